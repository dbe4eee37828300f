//! Members and values, put after what a writer holds.
ghost use Rattle.std.specs.Prelude.{[], ◌∷◌, pos, codes, decimal, OnOk};
ghost use Rattle.json.specs.Token.{begin_object, end_object, key, string, number, boolean};
ghost use Rattle.osdm_parts.specs.Times.{time_text as time_text_of};
ghost use Rattle.osdm_parts.specs.Ids.{HasId, booking_id as booking_id_of};
ghost use Rattle.osdm_parts.specs.Amounts.{amount_tree};
ghost use Rattle.osdm_parts.specs.Appends.{Appends, tokens_of};
ghost use Rattle.osdm_parts.specs.AmountTokens.{amount_rest};

use crate::ids::{booking_id, text_of, time_text};
use json::Writer;
use rail_ids::RowNo;
use rail_time::Moment;
use std::alloc::AllocError;

/// A member that is a text.
pub fn put_text(out: &mut Writer, name: &str, text: &str) -> Result<(), AllocError>
    ensures { OnOk result (Appends out.old out.new (key name.now ∷ string text.now ∷ [])) }
{
    out.key(name)?;
    out.string(text)
}

pub(crate) fn put_count(out: &mut Writer, name: &str, count: u64) -> Result<(), AllocError>
    ensures { OnOk result (Appends out.old out.new (key name.now ∷ number (decimal count) ∷ [])) }
{
    out.key(name)?;
    out.u64(count)
}

/// A member that is true or false.
pub fn put_flag(out: &mut Writer, name: &str, flag: bool) -> Result<(), AllocError>
    ensures { OnOk result (Appends out.old out.new (key name.now ∷ boolean flag ∷ [])) }
{
    out.key(name)?;
    out.boolean(flag)
}

/// A member that is a moment.
pub fn put_time(out: &mut Writer, name: &str, moment: Moment) -> Result<(), AllocError>
    ensures { OnOk result (Appends out.old out.new (key name.now ∷ string (time_text_of moment) ∷ [])) }
{
    let text = time_text(moment);
    put_text(out, name, text_of(text.as_slice()))
}

/// A member that is the id of the booking of a row.
pub fn put_booking_id(out: &mut Writer, name: &str, row: RowNo) -> Result<(), AllocError>
    requires generation { HasId row }
    ensures { OnOk result (Appends out.old out.new (key name.now ∷ string (booking_id_of row) ∷ [])) }
{
    let text = booking_id(row);
    put_text(out, name, text_of(text.as_slice()))
}

/// A price: an amount of 0 or more.
pub fn put_price(out: &mut Writer, name: &str, currency: &str, price: u64) -> Result<(), AllocError>
    ensures { OnOk result (Appends out.old out.new (key name.now ∷ tokens_of (amount_tree currency.now (pos price)))) }
{
    begin_amount(out, name)?;
    out.u64(price)?;
    end_amount(out, currency)
}

/// An amount that may be less than 0.
pub fn put_amount(
    out: &mut Writer,
    name: &str,
    currency: &str,
    amount: i64,
) -> Result<(), AllocError>
    ensures { OnOk result (Appends out.old out.new (key name.now ∷ tokens_of (amount_tree currency.now amount))) }
{
    begin_amount(out, name)?;
    out.i64(amount)?;
    end_amount(out, currency)
}

fn begin_amount(out: &mut Writer, name: &str) -> Result<(), AllocError>
    ensures { OnOk result (Appends out.old out.new (key name.now ∷ begin_object ∷ key (codes "amount") ∷ [])) }
{
    out.key(name)?;
    out.begin_object()?;
    out.key("amount")
}

fn end_amount(out: &mut Writer, currency: &str) -> Result<(), AllocError>
    ensures { OnOk result (Appends out.old out.new (amount_rest currency.now)) }
{
    put_text(out, "currency", currency)?;
    put_count(out, "scale", 2)?;
    out.end_object()
}
