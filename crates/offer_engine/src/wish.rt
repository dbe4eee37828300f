use place_map::Class;
use trip_builder::TripWish;

/// How many wish to travel, in which class, with which traits of each place, and from where to where.
#[derive(Clone, Copy, PartialEq, Eq)]
pub struct OfferWish {
    pub trip: TripWish,
    pub adults: u8,
    pub children: u8,
    pub class: Class,
    /// The sum of the bits of the traits that each place has to have.
    pub wanted: u8,
}
