use offer_codes::{ExchangeCode, OfferCode, RefundCode, Segment};
use place_map::Class;
use rail_ids::RowNo;
use train_runs::TripWish;

/// What a retailer asks. An id or a code that is no spelling is `None`.
#[derive(Drop)]
pub enum Command {
    /// Trips between two stations with their prices and what is free.
    Offers {
        trip: TripWish,
        adults: u8,
        children: u8,
        class: Class,
        /// The sum of the bits of the traits that each place has to have.
        wanted: u8,
    },
    /// A booking of an offer.
    Book {
        offer: Option<OfferCode>,
        /// Whether the passengers of each segment are to sit side by side. They sit apart only where each stretch of
        /// places had one with a leg that was taken or contended when it was looked at or tried.
        together: bool,
    },
    /// A booking of one segment, without an offer, for that many adults.
    Reserve {
        segment: Segment,
        class: Class,
        count: u8,
        wanted: u8,
        /// Whether the places are to lie side by side. They lie apart only where each stretch of places had one with a
        /// leg that was taken or contended when it was looked at or tried.
        together: bool,
    },
    /// A booking as it stands.
    Show {
        row: Option<RowNo>,
    },
    /// That a booking be given up before it is confirmed.
    Release {
        row: Option<RowNo>,
    },
    /// That a booking be confirmed.
    Confirm {
        row: Option<RowNo>,
    },
    /// That the ticket be noted as collected.
    Fulfil {
        row: Option<RowNo>,
    },
    /// What a refund would pay back.
    QuoteRefund {
        row: Option<RowNo>,
    },
    /// The refund that was quoted.
    AcceptRefund {
        row: Option<RowNo>,
        code: Option<RefundCode>,
    },
    /// What an exchange for an offer would cost.
    QuoteExchange {
        row: Option<RowNo>,
        offer: Option<OfferCode>,
    },
    /// The exchange that was quoted.
    AcceptExchange {
        row: Option<RowNo>,
        code: Option<ExchangeCode>,
    },
    /// All places of a run, and which are free on the segment.
    Places {
        segment: Segment,
    },
    /// That bookings past their limit be expired.
    Sweep,
}
