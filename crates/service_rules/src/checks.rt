//! What a command orders, or is refused for by its ids, its codes and the moment alone.
ghost use Rattle.std.specs.Prelude.{◌≡◌, Ok, Err, IfOk, IfErr};
ghost use Rattle.osdm_json.specs.Readable.{IsReadable};
ghost use Rattle.service_rules.specs.Checks.{aged, checked, offer_checked, row_checked, is_of_row as is_row_of, refund_checked, is_quoted as is_quote, exchange_checked, ordered};
ghost use Rattle.service_rules.specs.Orders.{order_view, IsOrder, IsSoundOrder};

use crate::order::Order;
use catalogue_contents::Catalogue;
use offer_codes::{ExchangeCode, OfferCode, RefundCode, VALID_SECONDS};
use offer_engine::{OfferWish, is_offered};
use osdm_json::{Command, Problem};
use rail_ids::RowNo;
use rail_time::Moment;
use reservation_service::Reservation;

/// What the command orders, with its ids and codes read and checked; or what it is refused for by these and the moment
/// alone. It is refused for an id or a code that is no spelling, and for an offer that the catalogue doesn't have or
/// that was made after now. Then comes an offer that was made over 900 seconds ago. Quotes are also refused where they
/// are of another booking than the id's, and where their offer wasn't good when the quote was made.
///
/// No memory is taken.
pub fn order_of<'c>(
    cat: &Catalogue,
    command: &'c Command,
    now: Moment,
) -> Result<Order<'c>, Problem>
    ensures exact { IsOrder result (ordered cat.now now command.now) }
    ensures sound { IsReadable cat.now command.now → IfOk result (λ o. IsSoundOrder cat.now now (order_view o)) }
{
    Ok(match command {
        Command::Offers {
            trip,
            adults,
            children,
            class,
            wanted,
        } => Order::Offers(OfferWish {
            trip: *trip,
            adults: *adults,
            children: *children,
            class: *class,
            wanted: *wanted,
        }),
        Command::Book { offer, together } => Order::Book {
            offer: check_offer(cat, offer, now)?,
            together: *together,
        },
        Command::Reserve {
            segment,
            class,
            count,
            wanted,
            together,
        } => Order::Reserve(Reservation {
            segment: *segment,
            class: *class,
            count: *count,
            traits: *wanted,
            together: *together,
        }),
        Command::Show { row } => Order::Show(check_row(*row)?),
        Command::Release { row } => Order::Release(check_row(*row)?),
        Command::Confirm { row } => Order::Confirm(check_row(*row)?),
        Command::Fulfil { row } => Order::Fulfil(check_row(*row)?),
        Command::QuoteRefund { row } => Order::QuoteRefund(check_row(*row)?),
        Command::AcceptRefund { row, code } => Order::AcceptRefund(check_refund(*row, code, now)?),
        Command::QuoteExchange { row, offer } => {
            let offer = check_offer(cat, offer, now)?;
            let row = check_row(*row)?;
            Order::QuoteExchange { row, offer }
        }
        Command::AcceptExchange { row, code } => {
            Order::AcceptExchange(check_exchange(cat, *row, code, now)?)
        }
        Command::Places { segment } => Order::Places(*segment),
        Command::Sweep => Order::Sweep,
    })
}

fn check_row(row: Option<RowNo>) -> Result<RowNo, Problem>
    ensures { result ≡ row_checked row }
{
    row.ok_or(Problem::UnknownBooking)
}

fn check_offer<'c>(
    cat: &Catalogue,
    offer: &'c Option<OfferCode>,
    now: Moment,
) -> Result<&'c OfferCode, Problem>
    ensures ok { IfOk result (λ c. offer_checked cat.now now offer.now ≡ Ok c.now) }
    ensures err { IfErr result (λ p. offer_checked cat.now now offer.now ≡ Err p) }
{
    let Some(code) = offer else {
        return Err(Problem::UnknownOffer);
    };
    check(is_offered(cat, code), code.made, now)?;
    Ok(code)
}

// Whether the id spells this booking's row and generation.
fn is_of_row(id: Option<RowNo>, row: RowNo) -> bool
    ensures { result ≡ is_row_of id row }
{
    match id {
        Some(named) => named.row == row.row && named.generation == row.generation,
        None => false,
    }
}

fn check_refund(
    row: Option<RowNo>,
    quote: &Option<RefundCode>,
    now: Moment,
) -> Result<RefundCode, Problem>
    ensures { result ≡ refund_checked now row quote.now }
{
    let Some(code) = quote else {
        return Err(Problem::UnknownOffer);
    };
    check(is_of_row(row, code.row), code.made, now)?;
    Ok(*code)
}

fn check_exchange<'c>(
    cat: &Catalogue,
    row: Option<RowNo>,
    quote: &'c Option<ExchangeCode>,
    now: Moment,
) -> Result<&'c ExchangeCode, Problem>
    ensures ok { IfOk result (λ c. exchange_checked cat.now now row quote.now ≡ Ok c.now) }
    ensures err { IfErr result (λ p. exchange_checked cat.now now row quote.now ≡ Err p) }
{
    let Some(code) = quote else {
        return Err(Problem::UnknownOffer);
    };
    check(
        is_of_row(row, code.row) && is_quoted(cat, code),
        code.made,
        now,
    )?;
    Ok(code)
}

// Whether the quote's offer is one of the catalogue, and was good when the quote was made.
fn is_quoted(cat: &Catalogue, code: &ExchangeCode) -> bool
    ensures { result ≡ is_quote cat.now code.now }
{
    let offered = code.offer.made.seconds();
    let quoted = code.made.seconds();
    is_offered(cat, &code.offer)
        && offered <= quoted
        && quoted <= offered + u64::from(VALID_SECONDS)
}

// What is wrong with a code that was made at this moment, and is known or not.
fn check(is_known: bool, made: Moment, now: Moment) -> Result<(), Problem>
    ensures { result ≡ checked is_known made now tt }
{
    if is_known && made.seconds() <= now.seconds() {
        check_age(made, now)
    } else {
        Err(Problem::UnknownOffer)
    }
}

fn check_age(made: Moment, now: Moment) -> Result<(), Problem>
    ensures { result ≡ aged made now tt }
{
    if made.seconds() + u64::from(VALID_SECONDS) < now.seconds() {
        Err(Problem::OfferTooOld { made, now })
    } else {
        Ok(())
    }
}
