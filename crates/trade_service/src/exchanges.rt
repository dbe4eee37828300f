//! Exchanges: offered, and carried out.
ghost use Rattle.std.specs.Prelude.{◌≡◌, ◌≤◌, true, length, Ok, IfSome, IfOk, IfErr};
ghost use Rattle.std.specs.List.{list_all};
ghost use Rattle.claim_rule.specs.Calls.{AddsStepsBy};
ghost use Rattle.claim_rule.specs.Out.{HasNotedItems, EndsNone, AreSettled};
ghost use Rattle.history_model.specs.Booking.{greatest_amount};
ghost use Rattle.history_model.specs.History.{own};
ghost use Rattle.offer_codes.specs.Offers.{is_offer, offer_view};
ghost use Rattle.offer_codes.specs.Exchanges.{is_exchange, exchange_view};
ghost use Rattle.offer_prices.specs.Runs.{is_of_runs};
ghost use Rattle.exchange_core.specs.Ready.{IsReadyFor};
ghost use Rattle.exchange_core.specs.Exchanges.{Readies};
ghost use Rattle.exchange_core.specs.declared.readying.Readied.{Readied as ReadiedBy};
ghost use Rattle.exchange_core.specs.declared.readying.Readied.TheVariants as readied;
ghost use Rattle.osdm_parts.specs.declared.problem.Problem.TheVariants.{NoMemory};
ghost use Rattle.osdm_texts.specs.Answers.{Reply as Replied, exchange_offer, exchanged, reply_told, told_of, Tells};
ghost use Rattle.osdm_parts.specs.Ids.{HasId};
ghost use Rattle.osdm_texts.specs.Bookings.{HasIds};
ghost use Rattle.shop.specs.Homes.{IsAtHome, StaysHome};
ghost use Rattle.booking_service.specs.Deciding.{Answered};
ghost use Rattle.reservation_service.specs.Outs.{IsOutAt};
ghost use Rattle.trade_service.specs.Exchanges.{AnswersExchangeQuote, AnswersExchange, AnswersReady, DecidesOrNot, IsUnready, lost_problem as lost_problem_of, ready_of};

use booking_rows::{Detail, RowView, note_detail};
use claim_rule::{Desk, Hold};
use exchange_core::{
    ExchangeReady, Exchanged, QuotedExchange, Readied, accept_exchange, quote_exchange,
    ready_exchange,
};
use history_model::phase::Phase;
use hold_core::abandon;
use offer_codes::{ExchangeCode, OfferCode};
use osdm_texts::{Problem, Reply, Success, Written, write_reply};
use rail_ids::{RetailerNo, RowNo};
use rail_time::Moment;
use reservation_service::{Held, detail_for, hold_places, new_view};
use shop::{Asker, Shop};

// The text that offers an exchange.
fn exchange_offer_answer(shop: &Shop<'_>, code: ExchangeCode) -> Result<Written, Problem>
    requires range { is_exchange (exchange_view code) ≡ true }
    ensures told { IfOk result (Tells shop.now.cat.now (exchange_offer code)) }
    ensures untold { IfErr result (λ p. p ≡ NoMemory) }
{
    write_reply(
        shop.alloc,
        shop.cat,
        Success::Created,
        &Reply::ExchangeOffer { code },
    )
    .ok_or(Problem::NoMemory)
}

/// Offers an exchange of a booking for an offer (OSDM's exchange offer). The offer is in the ranges of its spelling.
pub fn quote_exchange_booking(
    shop: &Shop<'_>,
    desk: &mut Desk,
    asker: Asker,
    row: RowNo,
    offer: &OfferCode,
) -> Result<Written, Problem>
    requires home { IsAtHome shop.now.books.now desk.old }
    requires offer { is_offer (offer_view offer.now) ≡ true }
    ensures home { StaysHome shop.now.books.now desk.old desk.new }
    ensures answer { Answered shop.now.cat.now (AnswersExchangeQuote shop.now.cat.now shop.now.books.now.layout.rows
        row asker.retailer.0 (offer_view offer.now) asker.moment) desk.old desk.new (told_of result) }
{
    let quoted = quote_exchange(
        shop.cat,
        shop.books,
        desk,
        row,
        asker.retailer,
        offer,
        asker.moment,
    );
    match quoted {
        QuotedExchange::Done(code) => exchange_offer_answer(shop, code),
        QuotedExchange::Unknown => Err(Problem::UnknownBooking),
        QuotedExchange::WrongState { shown } => Err(Problem::WrongState { shown }),
    }
}

/// Exchanges a booking for a new one by an offer (OSDM's exchange operation): the places of the new booking are held
/// first, one for each passenger at each segment; then one turn of the old booking decides. All places of the old
/// booking are given back before the answer.
///
/// The new booking is confirmed at once. The books have the catalogue's places, each segment's run holds its span, and
/// the code is in the ranges of its spelling.
pub fn accept_exchange_booking(
    shop: &Shop<'_>,
    desk: &mut Desk,
    asker: Asker,
    code: &ExchangeCode,
) -> Result<Written, Problem>
    requires home { IsAtHome shop.now.books.now desk.old }
    requires offer { is_offer (offer_view code.now.offer) ≡ true }
    requires runs { list_all (is_of_runs shop.now.cat.now.runs) code.now.offer.segments.items ≡ true }
    ensures home { StaysHome shop.now.books.now desk.old desk.new }
    ensures answer { AnswersExchange shop.now.cat.now shop.now.books.now.layout.rows asker.retailer.0
        (exchange_view code.now) asker.moment desk.old desk.new (told_of result) }
{
    let ready = check(shop, desk, asker.retailer, code, asker.moment)?;
    carry_out(shop, desk, asker, code, ready)
}

// The quote as it was checked, or what is wrong with it.
fn check(
    shop: &Shop<'_>,
    desk: &mut Desk,
    retailer: RetailerNo,
    code: &ExchangeCode,
    now: Moment,
) -> Result<ExchangeReady, Problem>
    requires home { IsAtHome shop.now.books.now desk.old }
    requires offer { is_offer (offer_view code.now.offer) ≡ true }
    ensures home { StaysHome shop.now.books.now desk.old desk.new }
    ensures fine { IfOk result (λ ready. AddsStepsBy (Readies shop.now.cat.now shop.now.books.now.layout.rows retailer.0
        (exchange_view code.now) now (readied.Fine ready)) desk.old desk.new) }
    ensures ready { IfOk result (IsReadyFor desk.new) }
    ensures unready { IfErr result (λ p. (a : ReadiedBy) × AddsStepsBy (Readies shop.now.cat.now
        shop.now.books.now.layout.rows retailer.0 (exchange_view code.now) now a) desk.old desk.new × IsUnready a p) }
{
    match ready_exchange(shop.cat, shop.books, desk, retailer, code, now) {
        Readied::Fine(ready) => Ok(ready),
        Readied::Unknown => Err(Problem::UnknownBooking),
        Readied::WrongState { shown } => Err(Problem::WrongState { shown }),
        Readied::QuoteStale { made, now } => Err(Problem::OfferTooOld { made, now }),
        Readied::QuoteWrong => Err(Problem::QuoteWrong),
    }
}

// Holds the places of the new booking and carries the exchange out, by a quote that was checked.
fn carry_out(
    shop: &Shop<'_>,
    desk: &mut Desk,
    asker: Asker,
    code: &ExchangeCode,
    ready: ExchangeReady,
) -> Result<Written, Problem>
    requires home { IsAtHome shop.now.books.now desk.old }
    requires offer { is_offer (offer_view code.now.offer) ≡ true }
    requires runs { list_all (is_of_runs shop.now.cat.now.runs) code.now.offer.segments.items ≡ true }
    requires ready { IsReadyFor desk.old ready }
    requires same { ready ≡ ready_of asker.retailer.0 (exchange_view code.now) asker.moment }
    ensures home { StaysHome shop.now.books.now desk.old desk.new }
    ensures answer { AnswersReady shop.now.cat.now (ready_of asker.retailer.0 (exchange_view code.now) asker.moment)
        desk.old desk.new (told_of result) }
{
    let Some(Held { hold, placing }) = hold_places(shop, desk, &code.offer, false) else {
        return Err(Problem::RowsFull);
    };
    match placing.problem() {
        Some(problem) => {
            abandon(shop.books, desk, hold);
            Err(problem)
        }
        None => {
            let detail = detail_for(shop.cat, &code.offer, asker);
            decide(shop, desk, hold, detail, code, ready)
        }
    }
}

// Decides the exchange for a hold with all its places, once the whole answer is written. Where there is no memory for
// it, or the turn of the old booking is lost, all is given back.
fn decide(
    shop: &Shop<'_>,
    desk: &mut Desk,
    mut hold: Hold,
    detail: Detail,
    code: &ExchangeCode,
    ready: ExchangeReady,
) -> Result<Written, Problem>
    requires out { IsOutAt shop.now.books.now desk.old hold }
    requires noted { HasNotedItems desk.old hold }
    requires some { 1 ≤ length hold.items }
    requires total { detail.total ≤ greatest_amount }
    requires none { EndsNone desk.old }
    requires ready { IsReadyFor desk.old ready }
    requires same { ready.code ≡ exchange_view code.now }
    ensures home { IsAtHome shop.now.books.now desk.new }
    ensures settled { AreSettled (own desk.old.seen desk.old.number) → AreSettled (own desk.new.seen desk.new.number) }
    ensures answer { (reply : Replied) × DecidesOrNot ready hold.row hold.items detail desk.old desk.new reply
        × (told_of result ≡ reply_told shop.now.cat.now reply) }
{
    let view = new_view(Phase::Confirmed, hold.items(), &detail);
    let Some(answer) = exchanged_answer(shop, hold.row(), view, code.difference, code.row) else {
        abandon(shop.books, desk, hold);
        return Err(Problem::NoMemory);
    };
    note_detail(shop.books, desk, &mut hold, detail);
    match accept_exchange(shop.books, desk, hold, ready) {
        Exchanged::Done {
            new: _,
            difference: _,
        } => Ok(answer),
        Exchanged::WrongState { shown, hold } => {
            abandon(shop.books, desk, hold);
            Err(lost_problem(shown))
        }
    }
}

// What is wrong where the turn was lost: the booking's row was given away, or it is in another phase.
fn lost_problem(shown: Phase) -> Problem
    ensures problem { result ≡ lost_problem_of shown }
{
    match shown {
        Phase::Free => Problem::UnknownBooking,
        _ => Problem::WrongState { shown },
    }
}

// The text that shows the new booking of an exchange, or `None` where there is no memory for it.
fn exchanged_answer(
    shop: &Shop<'_>,
    row: RowNo,
    view: RowView,
    difference: i64,
    replaced: RowNo,
) -> Option<Written>
    requires ids { HasIds row view × HasId replaced }
    ensures told { IfSome result (Tells shop.now.cat.now (exchanged row view difference replaced)) }
{
    let reply = Reply::Exchange {
        row,
        view,
        difference,
        replaced,
    };
    write_reply(shop.alloc, shop.cat, Success::Created, &reply)
}
