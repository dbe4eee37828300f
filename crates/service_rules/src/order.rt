use offer_codes::{ExchangeCode, OfferCode, RefundCode, Segment};
use offer_engine::OfferWish;
use rail_ids::RowNo;
use reservation_service::Reservation;

/// A command whose ids and codes were read and checked, with what its service takes.
#[derive(Clone, Copy)]
pub enum Order<'c> {
    /// Trips between two stations with their prices and what is free.
    Offers(OfferWish),
    /// A booking of an offer.
    Book {
        offer: &'c OfferCode,
        /// Whether the passengers of each segment are to sit side by side.
        together: bool,
    },
    /// A booking of one segment, without an offer.
    Reserve(Reservation),
    /// A booking as it stands.
    Show(RowNo),
    /// That a booking be given up before it is confirmed.
    Release(RowNo),
    /// That a booking be confirmed.
    Confirm(RowNo),
    /// That the ticket be noted as collected.
    Fulfil(RowNo),
    /// What a refund would pay back.
    QuoteRefund(RowNo),
    /// The refund that was quoted.
    AcceptRefund(RefundCode),
    /// What an exchange for an offer would cost.
    QuoteExchange {
        row: RowNo,
        offer: &'c OfferCode,
    },
    /// The exchange that was quoted.
    AcceptExchange(&'c ExchangeCode),
    /// All places of a run, and which are free on the segment.
    Places(Segment),
    /// That bookings past their limit be expired.
    Sweep,
}
