ghost use Rattle.std.specs.Prelude.{◌≡◌, [], All, IfOk, OnOk};
ghost use Rattle.serde_json.specs.Data.{Data};
ghost use Rattle.serde_json.specs.Written.{compact_text};
ghost use Rattle.osdm_parts.specs.Offers.{IsWritable};
ghost use Rattle.osdm_parts.specs.Ids.{HasId};
ghost use Rattle.osdm_texts.specs.Bookings.{HasIds, booking_tree};
ghost use Rattle.osdm_texts.specs.Seen.{seen_of};
ghost use Rattle.osdm_texts.specs.Replies.{offers_tree, exchanged_tree, tree_of, CanBeWritten};
ghost use Rattle.osdm_parts.specs.Problems.{problem_tree};
ghost use Rattle.osdm_texts.specs.Sweeps.{swept_tree};
ghost use Rattle.osdm_parts.specs.Appends.{Appends, tokens_of};

use crate::bookings::{Shown, put_booking, put_shown};
use crate::swept::swept_text;
use booking_rows::{RowView, Swept};
use catalogue_contents::Catalogue;
use json::Writer;
use offer_codes::{ExchangeCode, Offer, RefundCode};
use osdm_parts::{
    Problem, places_text, put_amount, put_booking_id, put_exchange, put_offers, put_refund,
    run_places, small_text,
};
use rail_ids::{RowNo, RunNo};
use std::alloc::{AllocError, Global};

/// What a request is answered.
#[derive(Drop)]
pub enum Reply<'r> {
    /// The offers of a wish, in order.
    OfferList {
        offers: &'r [Offer],
    },
    /// A booking as its row showed it.
    Booking {
        row: RowNo,
        view: RowView,
    },
    /// What a refund would pay back.
    RefundOffer {
        code: RefundCode,
    },
    /// What an exchange would cost.
    ExchangeOffer {
        code: ExchangeCode,
    },
    /// The new booking of an exchange, what was paid on top, and the booking that it replaced.
    Exchange {
        row: RowNo,
        view: RowView,
        difference: i64,
        replaced: RowNo,
    },
    /// All places of a run, in order, and for each whether it is free.
    PlaceList {
        run: RunNo,
        free: &'r [bool],
    },
    /// What a sweep did.
    Swept(Swept),
    /// Why there is no other answer.
    Problem(Problem),
}

/// The JSON text of the reply, in one growing buffer: no space, and each object's members in byte order of their names.
///
/// Each id in the reply has its ranges, each offer has one count for each segment, and a list of places one entry for
/// each place of its run. Whatever else the catalogue lacks is written as empty.
pub fn reply_text(alloc: Global, cat: &Catalogue, reply: &Reply<'_>) -> Result<Vec<u8>, AllocError>
    requires writable { CanBeWritten cat.now reply.now }
    ensures { IfOk result (λ text. text.items ≡ compact_text (tree_of cat.now reply.now)) }
{
    match reply {
        Reply::OfferList { offers } => {
            let mut out = start(alloc)?;
            put_offer_list(&mut out, cat, offers)?;
            Ok(finish(out))
        }
        Reply::Booking { row, view } => {
            let mut out = start(alloc)?;
            put_booking(&mut out, cat, *row, view)?;
            Ok(finish(out))
        }
        Reply::RefundOffer { code } => {
            let mut out = start(alloc)?;
            put_refund(&mut out, cat, code)?;
            Ok(finish(out))
        }
        Reply::ExchangeOffer { code } => {
            let mut out = start(alloc)?;
            put_exchange(&mut out, cat, code)?;
            Ok(finish(out))
        }
        Reply::Exchange {
            row,
            view,
            difference,
            replaced,
        } => {
            let mut out = start(alloc)?;
            put_exchanged(&mut out, cat, *row, view, *difference, *replaced)?;
            Ok(finish(out))
        }
        Reply::PlaceList { run, free } => places_text(alloc, run_places(cat, *run), free),
        Reply::Swept(swept) => counts_copy(alloc, *swept),
        Reply::Problem(problem) => problem_copy(alloc, problem),
    }
}

/// The text of a booking that is shown so.
pub(crate) fn shown_text(
    alloc: Global,
    cat: &Catalogue,
    row: RowNo,
    shown: &Shown<'_>,
) -> Result<Vec<u8>, AllocError>
    requires ids { HasIds row (seen_of shown.now) }
    ensures { IfOk result (λ text. text.items ≡ compact_text (booking_tree cat.now row (seen_of shown.now))) }
{
    let mut out = start(alloc)?;
    put_shown(&mut out, cat, row, shown)?;
    Ok(finish(out))
}

// A sweep's text. It stands apart, like a problem's, since room for a small text is costly to clear for each reply.
#[inline(never)]
fn counts_copy(alloc: Global, swept: Swept) -> Result<Vec<u8>, AllocError>
    ensures { IfOk result (λ text. text.items ≡ compact_text (swept_tree swept)) }
{
    Vec::from_slice(alloc, swept_text(swept).as_slice())
}

#[inline(never)]
fn problem_copy(alloc: Global, problem: &Problem) -> Result<Vec<u8>, AllocError>
    ensures { IfOk result (λ text. text.items ≡ compact_text (problem_tree problem.now)) }
{
    Vec::from_slice(alloc, small_text(problem).as_slice())
}

// A writer that has written nothing, into a buffer that few replies outgrow.
fn start(alloc: Global) -> Result<Writer, AllocError>
    ensures before { IfOk result (λ out. out.before ≡ []) }
    ensures tokens { IfOk result (λ out. out.tokens ≡ []) }
{
    Ok(Writer::new(Vec::with_capacity(alloc, 1024)?))
}

// The text of the value whose tokens were written.
fn finish(out: Writer) -> Vec<u8>
    requires { out.before ≡ [] }
    ensures { (d : Data) → out.tokens ≡ tokens_of d → result.items ≡ compact_text d }
{
    out.into_inner()
}

fn put_offer_list(out: &mut Writer, cat: &Catalogue, offers: &[Offer]) -> Result<(), AllocError>
    requires writable { All IsWritable offers.now }
    ensures { OnOk result (Appends out.old out.new (tokens_of (offers_tree cat.now offers.now))) }
{
    out.begin_object()?;
    out.key("offers")?;
    out.begin_array()?;
    put_offers(out, cat, offers)?;
    out.end_array()?;
    out.end_object()
}

fn put_exchanged(
    out: &mut Writer,
    cat: &Catalogue,
    row: RowNo,
    view: &RowView,
    difference: i64,
    replaced: RowNo,
) -> Result<(), AllocError>
    requires ids { HasIds row view.now × HasId replaced }
    ensures { OnOk result (Appends out.old out.new
        (tokens_of (exchanged_tree cat.now row view.now difference replaced))) }
{
    out.begin_object()?;
    out.key("booking")?;
    put_booking(out, cat, row, view)?;
    put_amount(out, "difference", cat.currency_text(), difference)?;
    put_booking_id(out, "replaced", replaced)?;
    out.end_object()
}
