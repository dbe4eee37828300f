//! Bookings.
ghost use Rattle.std.specs.Prelude.{◌≡◌, IfSome, OnOk};
ghost use Rattle.std.specs.Option.{option_map_or};
ghost use Rattle.serde_json.specs.Data.{no_members};
ghost use Rattle.booking_rows.specs.Views.{MaySucceed};
ghost use Rattle.osdm_parts.specs.Ids.{HasId};
ghost use Rattle.osdm_texts.specs.Bookings.{is_settled as is_settled_of, succeeding, successor_members, HasIds, booking_tree, seen_end};
ghost use Rattle.osdm_texts.specs.EndTokens.{end_tokens};
ghost use Rattle.osdm_texts.specs.Seen.{seen_of};
ghost use Rattle.osdm_parts.specs.Appends.{Appends, tokens_of, members_of};

use booking_rows::{EndView, RowView};
use catalogue_contents::Catalogue;
use history_model::phase::{EndKind, Phase};
use json::Writer;
use leg_masks::Item;
use osdm_parts::{
    phase_text, put_amount, put_booking_id, put_flag, put_price, put_reservations, put_text,
    put_time,
};
use rail_ids::RowNo;
use rail_time::Moment;
use std::alloc::AllocError;

// What is shown of a booking: all but whose it is.
#[derive(Clone, Copy)]
pub(crate) struct Shown<'v> {
    pub(crate) phase: Phase,
    pub(crate) limit: Moment,
    pub(crate) total: u64,
    pub(crate) items: &'v [Item],
    pub(crate) ended: Option<EndView>,
}

pub(crate) fn put_booking(
    out: &mut Writer,
    cat: &Catalogue,
    row: RowNo,
    view: &RowView,
) -> Result<(), AllocError>
    requires ids { HasIds row view.now }
    ensures { OnOk result (Appends out.old out.new (tokens_of (booking_tree cat.now row view.now))) }
{
    let shown = Shown {
        phase: view.phase,
        limit: view.limit,
        total: view.total,
        items: view.items.as_slice(),
        ended: view.ended,
    };
    put_shown(out, cat, row, &shown)
}

pub(crate) fn put_shown(
    out: &mut Writer,
    cat: &Catalogue,
    row: RowNo,
    shown: &Shown<'_>,
) -> Result<(), AllocError>
    requires ids { HasIds row (seen_of shown.now) }
    ensures { OnOk result (Appends out.old out.new (tokens_of (booking_tree cat.now row (seen_of shown.now)))) }
{
    out.begin_object()?;
    put_time(out, "confirmableUntil", shown.limit)?;
    put_end(out, cat, shown.ended)?;
    put_booking_id(out, "id", row)?;
    put_price(out, "price", cat.currency_text(), shown.total)?;
    out.key("reservations")?;
    out.begin_array()?;
    put_reservations(out, cat, shown.items)?;
    out.end_array()?;
    put_flag(out, "settled", is_settled(shown.phase))?;
    put_text(out, "status", phase_text(shown.phase))?;
    put_successor(out, shown.phase, shown.ended)
}

fn is_settled(phase: Phase) -> bool
    ensures { result ≡ is_settled_of phase }
{
    matches!(phase, Phase::Ended(_))
}

// How a settled booking ended.
fn put_end(out: &mut Writer, cat: &Catalogue, ended: Option<EndView>) -> Result<(), AllocError>
    ensures { OnOk result (Appends out.old out.new (end_tokens cat.now (seen_end ended))) }
{
    match ended {
        Some(end) => {
            put_amount(out, "endAmount", cat.currency_text(), end.amount)?;
            put_time(out, "endedAt", end.moment)
        }
        None => Ok(()),
    }
}

// The successor of a booking that ended by exchange, and the end of the object.
fn put_successor(out: &mut Writer, phase: Phase, ended: Option<EndView>) -> Result<(), AllocError>
    requires successor { MaySucceed (seen_end ended) }
    ensures { OnOk result (Appends out.old out.new (members_of (successor_members phase (seen_end ended)))) }
{
    if let Some(row) = successor(phase, ended) {
        put_booking_id(out, "successor", row)?;
    }
    out.end_object()
}

fn successor(phase: Phase, ended: Option<EndView>) -> Option<RowNo>
    requires successor { MaySucceed (seen_end ended) }
    ensures members { successor_members phase (seen_end ended) ≡ option_map_or succeeding result no_members }
    ensures id { IfSome result HasId }
{
    match phase {
        Phase::Ended(EndKind::Exchange) => ended?.successor,
        _ => None,
    }
}
