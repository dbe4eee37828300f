ghost use Rattle.std.specs.Prelude.{◌≡◌, ◌≤◌, ◌+◌, ℕ, min, Some, None, nat_le, if◌then◌else◌};
ghost use Rattle.rail_time.specs.Moments.{moment_of, last_second};

use jiff::Timestamp;
use std::alloc::Global;
use std::marker::Model;

const LAST: u64 = 4_102_444_799;

const NANOSECONDS: i128 = 1_000_000_000;

/// A whole second from 1970-01-01T00:00:00Z to 2099-12-31T23:59:59Z. Contracts see its number.
#[derive(Debug, Clone, Copy, PartialEq, Eq, PartialOrd, Ord)]
pub struct Moment {
    seconds: u64,
}

impl Model for Moment {
    ghost Value = { ℕ };

    ghost view = { λ m. m.seconds };

    ghost invariant = { λ m. m.seconds ≤ 4_102_444_799 };

    ghost inverse = { λ n. record { seconds = n } };
}

/// Why a text is no moment.
#[derive(Clone, Copy, PartialEq, Eq)]
pub enum MomentFault {
    /// It is no instant of RFC 3339 with an offset, as `jiff` reads one.
    NotAMoment,
    /// It is an instant before 1970 or after 2099.
    OutOfYears,
    /// Want of memory. `read_moment` takes none, so it never answers this.
    NoMemory,
}

impl Moment {
    /// The moment of this many seconds since 1970-01-01T00:00:00Z: `None` exactly where that is after 2099.
    pub fn of(seconds: u64) -> Option<Moment>
        ensures { result ≡ (if nat_le seconds last_second then Some seconds else None) }
    {
        if seconds <= LAST {
            Some(Moment { seconds })
        } else {
            None
        }
    }

    /// The seconds since 1970-01-01T00:00:00Z.
    pub fn seconds(self) -> u64
        ensures value { result ≡ self }
        ensures in_years { result ≤ last_second }
    {
        self.seconds
    }

    /// The moment this many seconds later, or the last moment of 2099 where that is before it.
    pub fn later(self, by: u32) -> Moment
        ensures { result ≡ min (self + by) last_second }
    {
        Moment {
            seconds: (self.seconds + u64::from(by)).min(LAST),
        }
    }
}

/// The moment of a text of RFC 3339 with any offset, as the instant reader of `jiff` reads it. A fraction of a second
/// is cut off downwards.
///
/// `NotAMoment` comes exactly where that reader refuses the text, and `OutOfYears` exactly where the whole seconds are
/// not those of a moment. No memory is taken.
pub fn read_moment(_alloc: Global, text: &str) -> Result<Moment, MomentFault>
    ensures { result ≡ moment_of text.now }
{
    let Ok(instant) = text.parse::<Timestamp>() else {
        return Err(MomentFault::NotAMoment);
    };
    let nanoseconds = instant.as_nanosecond();
    if nanoseconds < 0 {
        return Err(MomentFault::OutOfYears);
    }
    Moment::of((nanoseconds / NANOSECONDS) as u64).ok_or(MomentFault::OutOfYears)
}
