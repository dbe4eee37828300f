//! The bodies that name a booking, an offer or a status.
ghost use Rattle.std.specs.Prelude.{◌≡◌, Ok, Err, IfOk, IfErr};
ghost use Rattle.catalogue_contents.specs.Contents.{CatalogueView};
ghost use Rattle.json_text.specs.View.{view};
ghost use Rattle.osdm_parts.specs.declared.field.FieldName.TheVariants.{Status};
ghost use Rattle.osdm_json.specs.declared.fault.BodyFault.TheVariants.{Field};
ghost use Rattle.osdm_json.specs.IdBodies.{IsStatusTest, fulfil_of, accept_refund_of, book_of, quote_exchange_of, accept_exchange_of};
ghost use Rattle.osdm_json.specs.Commands.{Asks};
ghost use Rattle.osdm_json.specs.Readable.{IsReadable};

use crate::command::Command;
use crate::fault::BodyFault;
use crate::members::{flag_in, text_in};
use crate::spellings::{exchange_of, offer_of, refund_of, row_of};
use json_text::Value;
use osdm_texts::FieldName;

/// The offer that the body books, and whether its passengers are to sit together.
pub(crate) fn read_book(body: &Value<'_>) -> Result<Command, BodyFault>
    ensures ok { IfOk result (λ c. Asks (book_of (view body.now)) c) }
    ensures readable { IfOk result (λ c. (cat : CatalogueView) → IsReadable cat c) }
    ensures err { IfErr result (λ e. book_of (view body.now) ≡ Err e) }
{
    let Some(offer) = text_in(body.get("offerId")) else {
        return Err(BodyFault::Field {
            name: FieldName::OfferId,
        });
    };
    let Some(together) = flag_in(body.get("together")) else {
        return Err(BodyFault::Field {
            name: FieldName::Together,
        });
    };
    Ok(Command::Book {
        offer: offer_of(offer.as_bytes()),
        together,
    })
}

/// That the ticket of the booking with this id was collected.
pub(crate) fn read_fulfil(id: &[u8], body: &Value<'_>) -> Result<Command, BodyFault>
    ensures ok { IfOk result (λ c. Asks (fulfil_of id.now (view body.now)) c) }
    ensures readable { IfOk result (λ c. (cat : CatalogueView) → IsReadable cat c) }
    ensures err { IfErr result (λ e. fulfil_of id.now (view body.now) ≡ Err e) }
{
    if !has_status(body, "FULFILLED") {
        return Err(BodyFault::Field {
            name: FieldName::Status,
        });
    }
    Ok(Command::Fulfil { row: row_of(id) })
}

/// The refund that was quoted with this offer, of the booking with this id.
pub(crate) fn read_accept_refund(
    id: &[u8],
    offer: &[u8],
    body: &Value<'_>,
) -> Result<Command, BodyFault>
    ensures ok { IfOk result (λ c. Asks (accept_refund_of id.now offer.now (view body.now)) c) }
    ensures readable { IfOk result (λ c. (cat : CatalogueView) → IsReadable cat c) }
    ensures err { IfErr result (λ e. accept_refund_of id.now offer.now (view body.now) ≡ Err e) }
{
    if !has_status(body, "CONFIRMED") {
        return Err(BodyFault::Field {
            name: FieldName::Status,
        });
    }
    Ok(Command::AcceptRefund {
        row: row_of(id),
        code: refund_of(offer),
    })
}

fn has_status(body: &Value<'_>, status: &str) -> bool
    ensures { IsStatusTest status.now (view body.now) result }
{
    match text_in(body.get("status")) {
        Some(text) => text == status,
        None => false,
    }
}

/// The booking and the offer that the body would exchange.
pub(crate) fn read_quote_exchange(body: &Value<'_>) -> Result<Command, BodyFault>
    ensures ok { IfOk result (λ c. Asks (quote_exchange_of (view body.now)) c) }
    ensures readable { IfOk result (λ c. (cat : CatalogueView) → IsReadable cat c) }
    ensures err { IfErr result (λ e. quote_exchange_of (view body.now) ≡ Err e) }
{
    let Some(booking) = text_in(body.get("bookingId")) else {
        return Err(BodyFault::Field {
            name: FieldName::BookingId,
        });
    };
    let Some(offer) = text_in(body.get("offerId")) else {
        return Err(BodyFault::Field {
            name: FieldName::OfferId,
        });
    };
    Ok(Command::QuoteExchange {
        row: row_of(booking.as_bytes()),
        offer: offer_of(offer.as_bytes()),
    })
}

/// The exchange that the body accepts, of the booking with this id.
pub(crate) fn read_accept_exchange(id: &[u8], body: &Value<'_>) -> Result<Command, BodyFault>
    ensures ok { IfOk result (λ c. Asks (accept_exchange_of id.now (view body.now)) c) }
    ensures readable { IfOk result (λ c. (cat : CatalogueView) → IsReadable cat c) }
    ensures err { IfErr result (λ e. accept_exchange_of id.now (view body.now) ≡ Err e) }
{
    let Some(offer) = text_in(body.get("exchangeOfferId")) else {
        return Err(BodyFault::Field {
            name: FieldName::ExchangeOfferId,
        });
    };
    Ok(Command::AcceptExchange {
        row: row_of(id),
        code: exchange_of(offer.as_bytes()),
    })
}
