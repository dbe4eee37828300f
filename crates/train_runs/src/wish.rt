use rail_ids::StationNo;
use rail_time::Moment;

/// From where to where a retailer wishes to go, and the window of the first departure, with both its ends.
#[derive(Clone, Copy, PartialEq, Eq)]
pub struct TripWish {
    pub origin: StationNo,
    pub destination: StationNo,
    pub earliest: Moment,
    pub latest: Moment,
}
