//! What a retailer's command does, and is answered.
ghost use Rattle.std.specs.Prelude.{◌≡◌, Ok};
ghost use Rattle.session_loop.specs.Answered.{answer_bytes};
ghost use Rattle.rail_service.specs.Reaching.{reach_of as reach_in};
ghost use Rattle.catalogue_contents.specs.Contents.{legs_in};
ghost use Rattle.claim_rule.specs.Desks.{IsOf};
ghost use Rattle.claim_rule.specs.Out.{IsIdle, IsTidy, MakesEmpty};
ghost use Rattle.shop.specs.Homes.{IsAtHome, StaysHome};
ghost use Rattle.expiry_sweeper.specs.Complete.{LeavesNoneOverdue};
ghost use Rattle.osdm_texts.specs.Answers.{Reply, told_of};
ghost use Rattle.osdm_json.specs.Readable.{IsReadable};
ghost use Rattle.service_rules.specs.Checks.{ordered};
ghost use Rattle.service_rules.specs.Orders.{order_view, IsSoundOrder};
ghost use Rattle.service_rules.specs.Answering.{Answers, BooksAllOrNone};
ghost use Rattle.service_laws.specs.Bounded.{EndsWithin};
ghost use Rattle.service_laws.specs.Commands.{IfSweeps};
ghost use Rattle.rail_service.specs.Bytes.{reply_bytes};
ghost use Rattle.rail_service.specs.Commands.{Says, GoesOn};
ghost use Rattle.rail_service.specs.Sparing.{MakesFor};

use crate::answering::answer_of;
use booking_service::{
    confirm_booking, fulfil_booking, release_booking, show_booking, sweep_bookings,
};
use catalogue_contents::Catalogue;
use claim_rule::{Books, Desk};
use http_wire::Answer;
use osdm_json::{Command, Problem};
use osdm_texts::Written;
use rail_ids::RetailerNo;
use rail_io::Clock;
use rail_time::Moment;
use reservation_service::{book_offer, reserve_places};
use search_service::{list_places, search_offers};
use service_rules::{Order, order_of};
use shop::{Asker, Shop};
use std::alloc::Global;
use trade_service::{
    accept_exchange_booking, accept_refund_booking, quote_exchange_booking, quote_refund_booking,
};

/// Does what a retailer's command asks at this moment, and answers it.
///
/// The answer is the command's defined reply, by the desk's own entries in this very call, whatever other desks do
/// meanwhile. They are no more than the catalogue, the moment and the order give. A sweep leaves no booking prebooked
/// that was so when it began, with a limit before the moment. Nothing is out at the desk, the books have the
/// catalogue's places and rows, and the command is one that was read. Inlined, since an answer is large to hand on.
#[inline(always)]
pub fn perform(
    alloc: Global,
    cat: &Catalogue,
    books: &Books,
    desk: &mut Desk,
    retailer: RetailerNo,
    command: &Command,
    now: Moment,
    last: bool,
) -> Answer
    requires own { IsOf books.now desk.old }
    requires legs { books.now.layout.legs ≡ legs_in cat.now }
    requires rows { books.now.layout.rows ≡ cat.now.rows }
    requires idle { IsIdle desk.old }
    requires command { IsReadable cat.now command.now }
    ensures own { IsOf books.now desk.new }
    ensures idle { IsIdle desk.new }
    ensures tidy { IsTidy desk.old → IsTidy desk.new }
    ensures no_item { MakesEmpty desk.new }
    ensures goes_on { GoesOn desk.old desk.new }
    ensures bound { EndsWithin cat.now now (ordered cat.now now command.now) desk.old desk.new }
    ensures complete { IfSweeps (ordered cat.now now command.now)
        (LeavesNoneOverdue books.now now desk.old desk.new) }
    ensures answer { (reply : Reply) × Answers cat.now retailer.0 now command.now desk.old desk.new reply
        × BooksAllOrNone cat.now now command.now desk.old desk.new reply
        × MakesFor desk.old desk.new reply
        × (answer_bytes result ≡ reply_bytes cat.now last reply) }
{
    let shop = Shop { alloc, cat, books };
    let asker = Asker {
        retailer,
        moment: now,
    };
    let said = say(&shop, desk, asker, command);
    answer_of(said, last, 0)
}

/// What the services answer to a command that has begun.
#[inline(always)]
pub(crate) fn say_begun<C: Clock>(
    clock: &C,
    shop: &Shop<'_>,
    desk: &mut Desk,
    asker: Asker,
    command: &Command,
) -> Result<Written, Problem>
    requires begun { C.begun clock.now (reach_in command.now) }
    requires home { IsAtHome shop.now.books.now desk.old }
    requires command { IsReadable shop.now.cat.now command.now }
    ensures home { StaysHome shop.now.books.now desk.old desk.new }
    ensures said { Says shop.now.cat.now asker.retailer.0 asker.moment
        (ordered shop.now.cat.now asker.moment command.now) desk.old desk.new (told_of result) }
{
    let _ = clock;
    say(shop, desk, asker, command)
}

/// What the services answer to a command.
fn say(
    shop: &Shop<'_>,
    desk: &mut Desk,
    asker: Asker,
    command: &Command,
) -> Result<Written, Problem>
    requires home { IsAtHome shop.now.books.now desk.old }
    requires command { IsReadable shop.now.cat.now command.now }
    ensures home { StaysHome shop.now.books.now desk.old desk.new }
    ensures said { Says shop.now.cat.now asker.retailer.0 asker.moment
        (ordered shop.now.cat.now asker.moment command.now) desk.old desk.new (told_of result) }
{
    match order_of(shop.cat, command, asker.moment) {
        Ok(order) => carry_out(shop, desk, asker, &order),
        Err(problem) => Err(problem),
    }
}

// Does what was ordered.
fn carry_out(
    shop: &Shop<'_>,
    desk: &mut Desk,
    asker: Asker,
    order: &Order<'_>,
) -> Result<Written, Problem>
    requires home { IsAtHome shop.now.books.now desk.old }
    requires sound { IsSoundOrder shop.now.cat.now asker.moment (order_view order.now) }
    ensures home { StaysHome shop.now.books.now desk.old desk.new }
    ensures answer { Says shop.now.cat.now asker.retailer.0 asker.moment (Ok (order_view order.now))
        desk.old desk.new (told_of result) }
{
    match order {
        Order::Offers(wish) => search_offers(shop, desk, wish, asker.moment),
        Order::Book { offer, together } => book_offer(shop, desk, asker, offer, *together),
        Order::Reserve(reservation) => reserve_places(shop, desk, asker, *reservation),
        Order::Show(row) => show_booking(shop, desk, asker.retailer, *row),
        Order::Release(row) => release_booking(shop, desk, asker, *row),
        Order::Confirm(row) => confirm_booking(shop, desk, asker, *row),
        Order::Fulfil(row) => fulfil_booking(shop, desk, asker.retailer, *row),
        Order::QuoteRefund(row) => quote_refund_booking(shop, desk, asker, *row),
        Order::AcceptRefund(code) => accept_refund_booking(shop, desk, asker, code),
        Order::QuoteExchange { row, offer } => {
            quote_exchange_booking(shop, desk, asker, *row, offer)
        }
        Order::AcceptExchange(code) => accept_exchange_booking(shop, desk, asker, code),
        Order::Places(segment) => list_places(shop, desk, *segment),
        Order::Sweep => Ok(sweep_bookings(shop.books, desk, asker.moment)),
    }
}
