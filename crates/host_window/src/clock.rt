//! The system's clock, whose commands are counted and timed.
ghost use Rattle.std.specs.Prelude.{◌≡◌, IfOk, IfSome, None, OnErr, Some};
ghost use Rattle.host_window.specs.Clocks.{moment_by};

use crate::readings::{moment_of, nanoseconds_since};
use crate::routes::RouteCounts;
use rail_io::{Clock, Reach, RouteName};
use rail_time::Moment;
use std::time::Duration;
use std::{io, time};

/// The system's clock, in whole seconds and brought into the range of moments. It tells no reading. Where there are
/// counts, it counts requests by their route, and how long it takes from a request's moment to its answer.
///
/// One reading gives a request its moment and begins its time. So where the system's clock is set meanwhile, that
/// request's time is wrong, and none where it was set back past the request's moment.
#[derive(Drop)]
pub struct CountingClock<'c, N> {
    time: N,
    last: Moment,
    counts: Option<&'c RouteCounts>,
    /// The last reading that gave a moment, since 1970.
    since: Duration,
    /// The last request that had a route, where there are counts.
    came: Option<RouteName>,
}

impl<'c, N: time::Clock> CountingClock<'c, N> {
    /// A clock by this one, which hasn't been read.
    pub fn of(time: N, counts: Option<&'c RouteCounts>) -> CountingClock<'c, N>
        ensures time { result.time ≡ time }
        ensures first { result.last ≡ 0 }
        ensures counts { result.counts ≡ counts.entry }
        ensures came { result.came ≡ None }
    {
        CountingClock {
            time,
            last: moment_of(Duration::from_secs(0)),
            counts,
            since: Duration::from_secs(0),
            came: None,
        }
    }

    // The moment of a reading. Where the system's clock can't be read, the last one stands in.
    #[inline(always)]
    fn take(&mut self, read: io::Result<Duration>) -> Moment
        ensures read { IfOk read (λ since. result ≡ moment_by since) }
        ensures unread { OnErr read (result ≡ self.old.last) }
        ensures last { self.new.last ≡ result }
        ensures begins { IfOk read (λ since. self.new.since ≡ since) }
        ensures same { (self.new.came ≡ self.old.came) × (self.new.counts ≡ self.old.counts) }
    {
        if let Ok(since) = read {
            self.last = moment_of(since);
            self.since = since;
        }
        self.last
    }

    // The last request has its answer. Each answer follows the arrival of its own request.
    #[inline(always)]
    fn note_end(&self, counts: &RouteCounts) {
        let Some(route) = self.came else {
            return;
        };
        if let Ok(now) = self.time.since_1970() {
            counts.note_done(route, nanoseconds_since(self.since, now));
        }
    }
}

impl<N: time::Clock + Drop> Clock for CountingClock<'_, N> {
    ghost told = { λ _. None };

    #[inline(always)]
    fn now(&mut self) -> Moment {
        let read = self.time.since_1970();
        self.take(read)
    }

    #[inline(always)]
    fn arrive(&mut self, route: RouteName)
        ensures came { IfSome self.old.counts (λ _. self.new.came ≡ Some route) }
    {
        if let Some(counts) = self.counts {
            counts.note_arrival(route);
            self.came = Some(route);
        }
    }

    #[inline(always)]
    fn begin(&mut self, reach: Reach)
        ensures same { self.new ≡ self.old }
    {
        let _ = reach;
    }

    #[inline(always)]
    fn end(&mut self) -> u64
        ensures at_once { result ≡ 0 }
    {
        if let Some(counts) = self.counts {
            self.note_end(counts);
        }
        0
    }
}
