use arrayvec::ArrayVec;
use place_map::Class;
use rail_ids::RowNo;
use rail_time::Moment;
use train_runs::Segment;

/// How many passengers an offer is for at most.
pub const MOST_PASSENGERS: u8 = 8;

/// For how many seconds an offer and a quote stand.
pub const VALID_SECONDS: u32 = 900;

/// What an offer's id spells: who travels, in which class, with which traits of a place, and the trip.
#[derive(Drop)]
pub struct OfferCode {
    /// When the offer was made.
    pub made: Moment,
    pub adults: u8,
    pub children: u8,
    pub class: Class,
    /// The sum of the bits of the traits that each place has to have.
    pub wanted: u8,
    /// One to three segments, in the order of travel.
    pub segments: ArrayVec<Segment, 3>,
}

/// What a refund offer's id spells.
#[derive(Clone, Copy, PartialEq, Eq)]
pub struct RefundCode {
    /// The booking that is to be refunded.
    pub row: RowNo,
    /// When the quote was made.
    pub made: Moment,
    /// Whether the ticket had been collected then.
    pub fulfilled: bool,
    /// The amount to be paid back, in minor units.
    pub amount: u64,
}

/// What an exchange offer's id spells.
#[derive(Drop)]
pub struct ExchangeCode {
    /// The booking that is to be given in exchange.
    pub row: RowNo,
    /// When the quote was made.
    pub made: Moment,
    /// Whether the ticket had been collected then.
    pub fulfilled: bool,
    /// What the customer has to pay on top, in minor units; less than 0 where money goes back.
    pub difference: i64,
    /// The offer that is to be booked.
    pub offer: OfferCode,
}

/// An offer with its price and what is free.
#[derive(Drop)]
pub struct Offer {
    pub code: OfferCode,
    /// The price for all passengers over all segments, in minor units.
    pub price: u64,
    /// For each segment how many of its wanted places were free on it.
    pub free: ArrayVec<u32, 3>,
}
