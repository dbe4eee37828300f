//! The numbers by which the host names things, and the one text of a booking's id.
//!
//! Each number is a type of its own, so that a place is never taken for a row. A row serves one booking after another,
//! each of a further generation. A booking is known to retailers by its id, which spells its row and generation and has
//! one spelling: `read_booking_id` reads exactly the texts that `write_booking_id` writes, each as the booking that it
//! was written for.
//!
//! No call takes memory.
#![tactic(auto)]

mod booking_ids;

pub use booking_ids::{BookingId, read_booking_id, write_booking_id};

/// The last generation of a row.
pub const LAST_GENERATION: u32 = 65_535;

/// The number of a station, counted from 0 in the order of the catalogue.
#[derive(Clone, Copy, Debug, PartialEq, Eq, PartialOrd, Ord)]
pub struct StationNo(pub u32);

/// The number of a run, counted from 0 in the order of the catalogue.
#[derive(Clone, Copy, Debug, PartialEq, Eq, PartialOrd, Ord)]
pub struct RunNo(pub u32);

/// The number of a place, counted from 0 over all runs, coaches and groups.
#[derive(Clone, Copy, Debug, PartialEq, Eq, PartialOrd, Ord)]
pub struct PlaceNo(pub u32);

/// A booking by its row, counted from 0, and its generation there: 0 for the row's first booking, and one more for each
/// further one.
#[derive(Clone, Copy, Debug, PartialEq, Eq, PartialOrd, Ord)]
pub struct RowNo {
    pub row: u32,
    pub generation: u32,
}

/// The number by which the catalogue knows a retailer.
#[derive(Clone, Copy, Debug, PartialEq, Eq, PartialOrd, Ord)]
pub struct RetailerNo(pub u32);
