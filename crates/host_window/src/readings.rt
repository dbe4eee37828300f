//! What is made of readings of the system's clock, which are since 1970.
ghost use Rattle.std.specs.Prelude.{◌≡◌};
ghost use Rattle.host_window.specs.Clocks.{moment_by, nanoseconds_by};

use rail_time::Moment;
use std::time::Duration;

/// The nanoseconds from a reading to a later one, or 0. They stop at the last value of 64 bits, after 584 years.
#[inline(always)]
pub(crate) fn nanoseconds_since(before: Duration, now: Duration) -> u64
    ensures { result ≡ nanoseconds_by before now }
{
    if now.as_secs() == before.as_secs() {
        return u64::from(now.subsec_nanos().saturating_sub(before.subsec_nanos()));
    }
    nanoseconds_over(before, now)
}

// The same of any two readings.
#[cold]
#[inline(never)]
fn nanoseconds_over(before: Duration, now: Duration) -> u64
    ensures { result ≡ nanoseconds_by before now }
{
    u64::try_from(now.saturating_sub(before).as_nanos()).unwrap_or(u64::MAX)
}

/// The moment of a reading since 1970, or the last one.
#[inline(always)]
pub(crate) fn moment_of(since: Duration) -> Moment
    ensures { result ≡ moment_by since }
{
    let seconds = u32::try_from(since.as_secs()).unwrap_or(u32::MAX);
    Moment::of(0).unwrap().later(seconds)
}
