//! Moments: whole seconds of the years 1970 to 2099, read from and written as RFC 3339 texts.
//!
//! A `Moment` is the number of seconds since 1970-01-01T00:00:00Z, without leap seconds. `read_moment` takes what the
//! instant reader of `jiff` takes, with any offset, and cuts a fraction of a second off downwards. `write_moment`
//! writes one text for each moment, in UTC, with the year, month and day of `jiff`'s calendar. Both are exact.
#![tactic(auto)]

mod moment;
mod text;

pub use moment::{Moment, MomentFault, read_moment};
pub use text::write_moment;
