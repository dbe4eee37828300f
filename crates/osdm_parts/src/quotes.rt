//! Refund offers and exchange offers.
ghost use Rattle.std.specs.Prelude.{◌≡◌, true, OnOk};
ghost use Rattle.offer_codes.specs.Refunds.{is_refund};
ghost use Rattle.offer_codes.specs.Exchanges.{is_exchange, exchange_view};
ghost use Rattle.osdm_parts.specs.Quotes.{refund_tree, exchange_tree};
ghost use Rattle.osdm_parts.specs.Appends.{Appends, tokens_of};

use crate::ids::{exchange_id, refund_id, text_of};
use crate::members::{put_amount, put_price, put_text, put_time};
use catalogue_contents::Catalogue;
use json::Writer;
use offer_codes::{ExchangeCode, RefundCode, VALID_SECONDS};
use std::alloc::AllocError;

/// A refund offer.
pub fn put_refund(out: &mut Writer, cat: &Catalogue, code: &RefundCode) -> Result<(), AllocError>
    requires ranges { is_refund code.now ≡ true }
    ensures { OnOk result (Appends out.old out.new (tokens_of (refund_tree cat.now code.now))) }
{
    let id = refund_id(code);
    out.begin_object()?;
    put_price(out, "amount", cat.currency_text(), code.amount)?;
    put_text(out, "id", text_of(id.as_slice()))?;
    put_time(out, "validUntil", code.made.later(VALID_SECONDS))?;
    out.end_object()
}

/// An exchange offer.
pub fn put_exchange(
    out: &mut Writer,
    cat: &Catalogue,
    code: &ExchangeCode,
) -> Result<(), AllocError>
    requires ranges { is_exchange (exchange_view code.now) ≡ true }
    ensures { OnOk result (Appends out.old out.new (tokens_of (exchange_tree cat.now code.now))) }
{
    let id = exchange_id(code);
    out.begin_object()?;
    put_amount(out, "difference", cat.currency_text(), code.difference)?;
    put_text(out, "id", text_of(id.as_slice()))?;
    put_time(out, "validUntil", code.made.later(VALID_SECONDS))?;
    out.end_object()
}
