//! Refunds: offered, and paid back.
ghost use Rattle.std.specs.Prelude.{◌≡◌, ◌≤◌, true, Ok, IfOk, IfErr};
ghost use Rattle.history_model.specs.declared.phase.EndKind.TheVariants as kind;
ghost use Rattle.history_model.specs.Booking.{greatest_amount};
ghost use Rattle.booking_rows.specs.declared.turns.Aim.TheVariants as aim;
ghost use Rattle.booking_rows.specs.Aims.{end_of};
ghost use Rattle.offer_codes.specs.Refunds.{is_refund};
ghost use Rattle.refund_core.specs.Refunding.{IsRefunded};
ghost use Rattle.osdm_parts.specs.declared.problem.Problem.TheVariants.{NoMemory};
ghost use Rattle.osdm_texts.specs.Answers.{refund_offer, told_of, Tells};
ghost use Rattle.shop.specs.Homes.{IsAtHome, StaysHome};
ghost use Rattle.booking_service.specs.Deciding.{Answered, OnBooking, at_end};
ghost use Rattle.trade_service.specs.Refunds.{AnswersRefundQuote, RefundsFound, refusal_of};

use booking_rows::{EndView, RowView};
use booking_service::booking_answer;
use claim_rule::Desk;
use history_model::phase::{EndKind, Phase};
use offer_codes::RefundCode;
use osdm_texts::{Problem, Reply, Success, Written, write_reply};
use rail_ids::RowNo;
use rail_time::Moment;
use refund_core::{Quoted, Refunded, accept_refund, find_booking, quote_refund};
use shop::{Asker, Shop};

// The text that offers a refund.
fn refund_offer_answer(shop: &Shop<'_>, code: RefundCode) -> Result<Written, Problem>
    requires range { is_refund code ≡ true }
    ensures told { IfOk result (Tells shop.now.cat.now (refund_offer code)) }
    ensures untold { IfErr result (λ p. p ≡ NoMemory) }
{
    write_reply(
        shop.alloc,
        shop.cat,
        Success::Created,
        &Reply::RefundOffer { code },
    )
    .ok_or(Problem::NoMemory)
}

/// Offers a refund of a booking (OSDM's refund offer).
pub fn quote_refund_booking(
    shop: &Shop<'_>,
    desk: &mut Desk,
    asker: Asker,
    row: RowNo,
) -> Result<Written, Problem>
    requires home { IsAtHome shop.now.books.now desk.old }
    ensures home { StaysHome shop.now.books.now desk.old desk.new }
    ensures answer { Answered shop.now.cat.now
        (AnswersRefundQuote shop.now.cat.now shop.now.books.now.layout.rows row asker.retailer.0 asker.moment)
        desk.old desk.new (told_of result) }
{
    match quote_refund(
        shop.cat,
        shop.books,
        desk,
        row,
        asker.retailer,
        asker.moment,
    ) {
        Quoted::Done(code) => refund_offer_answer(shop, code),
        Quoted::Unknown => Err(Problem::UnknownBooking),
        Quoted::WrongState { shown } => Err(Problem::WrongState { shown }),
    }
}

// The booking after its refund.
fn refunded(now: Moment, amount: u64, view: RowView) -> RowView
    requires amount { amount ≤ greatest_amount }
    ensures view { result ≡ at_end kind.Refund (end_of (aim.Refund now amount)) view }
{
    RowView {
        phase: Phase::Ended(EndKind::Refund),
        ended: Some(EndView {
            amount: amount as i64,
            moment: now,
            successor: None,
        }),
        ..view
    }
}

// The problem of a refund that was refused.
fn refusal(refunded: Refunded) -> Option<Problem>
    ensures problem { result ≡ refusal_of refunded }
{
    match refunded {
        Refunded::Done { .. } => None,
        Refunded::Unknown => Some(Problem::UnknownBooking),
        Refunded::WrongState { shown } => Some(Problem::WrongState { shown }),
        Refunded::QuoteStale { made, now } => Some(Problem::OfferTooOld { made, now }),
        Refunded::QuoteWrong => Some(Problem::QuoteWrong),
    }
}

/// Refunds a booking by an offer (OSDM's confirmation of a refund offer): all its places are given back before the
/// answer. The offer is in the ranges of its spelling.
pub fn accept_refund_booking(
    shop: &Shop<'_>,
    desk: &mut Desk,
    asker: Asker,
    code: &RefundCode,
) -> Result<Written, Problem>
    requires home { IsAtHome shop.now.books.now desk.old }
    requires range { is_refund code.now ≡ true }
    ensures refunded { IfOk result (λ _. IsRefunded desk.new code.now.row asker.moment code.now.amount) }
    ensures home { StaysHome shop.now.books.now desk.old desk.new }
    ensures answer { Answered shop.now.cat.now (OnBooking shop.now.books.now.layout.rows code.now.row asker.retailer.0
        (RefundsFound shop.now.cat.now shop.now.books.now.layout.rows asker.retailer.0 code.now asker.moment))
        desk.old desk.new (told_of result) }
{
    let Some(view) = find_booking(shop.books, desk, code.row, asker.retailer) else {
        return Err(Problem::UnknownBooking);
    };
    let ended = refunded(asker.moment, code.amount, view);
    let Some(ready) = booking_answer(shop, code.row, ended) else {
        return Err(Problem::NoMemory);
    };
    let accepted = accept_refund(
        shop.cat,
        shop.books,
        desk,
        asker.retailer,
        code,
        asker.moment,
    );
    match refusal(accepted) {
        None => Ok(ready),
        Some(problem) => Err(problem),
    }
}
