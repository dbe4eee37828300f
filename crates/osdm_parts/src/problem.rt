ghost use Rattle.std.specs.Prelude.{◌≡◌, ◌≤◌, length};
ghost use Rattle.osdm_parts.specs.Problems.{problem_line};
ghost use Rattle.osdm_parts.specs.Statuses.{phase_text, end_text};

use crate::field::FieldName;
use history_model::phase::{EndKind, Phase};
use rail_time::Moment;

/// Why a request isn't answered as asked. Each has a line in the table of problems: its code, its HTTP status, its
/// title, and for some a detail.
#[derive(Clone, Copy, PartialEq, Eq)]
pub enum Problem {
    /// 400: the head is no request head (RFC 9112).
    BadHead,
    /// 431: the head has too many bytes or lines.
    HeadTooLarge,
    /// 413: the body is longer than 262,144 bytes.
    BodyTooLarge,
    /// 501: the body has a transfer coding.
    Coding,
    /// 400: the body's length is no number, or two unlike ones.
    BadLength,
    /// 501: there is no such service yet.
    NotBuilt,
    /// 401: the retailer's key is missing or unknown.
    NoRetailer,
    /// 403: the connection is another retailer's.
    OtherRetailer,
    /// 404: there is no such path.
    NoRoute,
    /// 405: the path has no such method.
    NoMethod,
    /// 400: the body is no JSON in UTF-8 (RFC 8259).
    NotJson,
    /// 400: the field is missing, of another kind, out of its range, or against its rule.
    BadField { name: FieldName },
    /// 404: no station has the code that the field gives.
    UnknownStation { name: FieldName },
    /// 404: the id is no offer's.
    UnknownOffer,
    /// 410: the offer was made too long ago.
    OfferTooOld { made: Moment, now: Moment },
    /// 404: the retailer has no such booking.
    UnknownBooking,
    /// 404: the quote isn't the one that was made.
    QuoteWrong,
    /// 409: the booking is in another state than asked. The phase shown is neither free nor in the making.
    WrongState { shown: Phase },
    /// 410: the limit of confirmation has passed.
    TooLate { limit: Moment, now: Moment },
    /// 507: no booking row is free, and none has a booking that has ended.
    RowsFull,
    /// 409: too few places are free.
    NoPlace,
    /// 503: a place changed again and again while it was tried.
    Contended,
    /// 500: there was no memory, and nothing has changed.
    NoMemory,
}

impl Problem {
    /// The HTTP status (RFC 9110) of the problem.
    pub fn status(&self) -> u16
        ensures { result ≡ (problem_line self.now).status }
    {
        match self {
            Problem::BadHead | Problem::BadLength | Problem::NotJson | Problem::BadField { .. } =>
                400,
            Problem::NoRetailer => 401,
            Problem::OtherRetailer => 403,
            Problem::NoRoute
            | Problem::UnknownStation { .. }
            | Problem::UnknownOffer
            | Problem::UnknownBooking
            | Problem::QuoteWrong => 404,
            Problem::NoMethod => 405,
            Problem::WrongState { .. } | Problem::NoPlace => 409,
            Problem::OfferTooOld { .. } | Problem::TooLate { .. } => 410,
            Problem::BodyTooLarge => 413,
            Problem::HeadTooLarge => 431,
            Problem::NoMemory => 500,
            Problem::Coding | Problem::NotBuilt => 501,
            Problem::Contended => 503,
            Problem::RowsFull => 507,
        }
    }

    /// The code, by which programs tell problems apart.
    pub fn code(&self) -> &'static str
        ensures text { result.now ≡ (problem_line self.now).code }
        ensures short { length result.now ≤ 14 }
    {
        match self {
            Problem::BadHead => "BadHead",
            Problem::HeadTooLarge => "HeadTooLarge",
            Problem::BodyTooLarge => "BodyTooLarge",
            Problem::Coding => "Coding",
            Problem::BadLength => "BadLength",
            Problem::NotBuilt => "NotBuilt",
            Problem::NoRetailer => "NoRetailer",
            Problem::OtherRetailer => "OtherRetailer",
            Problem::NoRoute => "NoRoute",
            Problem::NoMethod => "NoMethod",
            Problem::NotJson => "NotJson",
            Problem::BadField { .. } => "BadField",
            Problem::UnknownStation { .. } => "UnknownStation",
            Problem::UnknownOffer => "UnknownOffer",
            Problem::OfferTooOld { .. } => "OfferTooOld",
            Problem::UnknownBooking => "UnknownBooking",
            Problem::QuoteWrong => "QuoteWrong",
            Problem::WrongState { .. } => "WrongState",
            Problem::TooLate { .. } => "TooLate",
            Problem::RowsFull => "RowsFull",
            Problem::NoPlace => "NoPlace",
            Problem::Contended => "Contended",
            Problem::NoMemory => "NoMemory",
        }
    }

    /// The title, for people.
    pub fn title(&self) -> &'static str
        ensures text { result.now ≡ (problem_line self.now).title }
        ensures short { length result.now ≤ 20 }
    {
        match self {
            Problem::BadHead => "Bad head",
            Problem::HeadTooLarge => "Head too large",
            Problem::BodyTooLarge => "Body too large",
            Problem::Coding => "Coding not supported",
            Problem::BadLength => "Bad length",
            Problem::NotBuilt => "Not built",
            Problem::NoRetailer => "No retailer",
            Problem::OtherRetailer => "Other retailer",
            Problem::NoRoute => "No route",
            Problem::NoMethod => "No method",
            Problem::NotJson => "Not JSON",
            Problem::BadField { .. } => "Bad field",
            Problem::UnknownStation { .. } => "Unknown station",
            Problem::UnknownOffer => "Unknown offer",
            Problem::OfferTooOld { .. } => "Offer too old",
            Problem::UnknownBooking => "Unknown booking",
            Problem::QuoteWrong => "Quote wrong",
            Problem::WrongState { .. } => "Wrong state",
            Problem::TooLate { .. } => "Too late",
            Problem::RowsFull => "Rows full",
            Problem::NoPlace => "No place",
            Problem::Contended => "Contended",
            Problem::NoMemory => "No memory",
        }
    }
}

/// The status text of a phase.
pub fn phase_text(phase: Phase) -> &'static str
    ensures text { result.now ≡ phase_text phase }
    ensures short { length result.now ≤ 9 }
{
    match phase {
        Phase::Free | Phase::Making => "",
        Phase::Prebooked => "PREBOOKED",
        Phase::Confirmed => "CONFIRMED",
        Phase::Fulfilled => "FULFILLED",
        Phase::Ending(kind) | Phase::Ended(kind) => end_text(kind),
    }
}

fn end_text(kind: EndKind) -> &'static str
    ensures text { result.now ≡ end_text kind }
    ensures short { length result.now ≤ 9 }
{
    match kind {
        EndKind::Release => "RELEASED",
        EndKind::Expire => "EXPIRED",
        EndKind::Refund => "REFUNDED",
        EndKind::Exchange => "EXCHANGED",
    }
}
