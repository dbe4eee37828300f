//! What is counted of requests by their route.
ghost use Rattle.std.specs.Prelude.{◌<◌};

use crate::family::Sample;
use crate::route_texts::{Bucket, RouteTime};
use crate::tallies::Tally;
use rail_io::RouteName;
use std::alloc::{AllocError, Global};
use std::array;

/// The names of routes, in their order.
const ROUTES: [&[u8]; 13] = [
    b"offers",
    b"book",
    b"reserve",
    b"show",
    b"release",
    b"confirm",
    b"fulfil",
    b"quote_refund",
    b"accept_refund",
    b"quote_exchange",
    b"accept_exchange",
    b"places",
    b"sweep",
];

/// The labels of routes.
const LABELS: [&[u8]; 13] = [
    b"{route=\"offers\"}",
    b"{route=\"book\"}",
    b"{route=\"reserve\"}",
    b"{route=\"show\"}",
    b"{route=\"release\"}",
    b"{route=\"confirm\"}",
    b"{route=\"fulfil\"}",
    b"{route=\"quote_refund\"}",
    b"{route=\"accept_refund\"}",
    b"{route=\"quote_exchange\"}",
    b"{route=\"accept_exchange\"}",
    b"{route=\"places\"}",
    b"{route=\"sweep\"}",
];

/// The bounds of times in seconds, as texts.
const BOUNDS: [&[u8]; 15] = [
    b"0.00005", b"0.0001", b"0.0002", b"0.0005", b"0.001", b"0.002", b"0.005", b"0.01", b"0.02",
    b"0.05", b"0.1", b"0.2", b"0.5", b"1", b"+Inf",
];

/// The nanoseconds of a microsecond.
const MICROSECOND: u64 = 1_000;

/// The nanoseconds of a millisecond.
const MILLISECOND: u64 = 1_000 * MICROSECOND;

/// The same in nanoseconds, but for the last.
const LIMITS: [u64; 14] = [
    50 * MICROSECOND,
    100 * MICROSECOND,
    200 * MICROSECOND,
    500 * MICROSECOND,
    MILLISECOND,
    2 * MILLISECOND,
    5 * MILLISECOND,
    10 * MILLISECOND,
    20 * MILLISECOND,
    50 * MILLISECOND,
    100 * MILLISECOND,
    200 * MILLISECOND,
    500 * MILLISECOND,
    1_000 * MILLISECOND,
];

// The number of a route's name.
fn number_of(route: RouteName) -> usize
    ensures { result < 13 }
{
    match route {
        RouteName::Offers => 0,
        RouteName::Book => 1,
        RouteName::Reserve => 2,
        RouteName::Show => 3,
        RouteName::Release => 4,
        RouteName::Confirm => 5,
        RouteName::Fulfil => 6,
        RouteName::QuoteRefund => 7,
        RouteName::AcceptRefund => 8,
        RouteName::QuoteExchange => 9,
        RouteName::AcceptExchange => 10,
        RouteName::Places => 11,
        RouteName::Sweep => 12,
    }
}

// The number of the least bound that the time doesn't exceed.
#[inline(never)]
fn bucket_of(nanoseconds: u64) -> usize
    ensures { result < 15 }
{
    match LIMITS.iter().position(|limit| nanoseconds <= *limit) {
        Some(number) if number < LIMITS.len() => number,
        _ => LIMITS.len(),
    }
}

/// One count for each route.
type Row = [Tally; ROUTES.len()];

// Nothing counted yet.
fn new_row() -> Row {
    array::from_fn(|_| Tally::new())
}

// One more of the route of this number.
#[inline(always)]
fn raise(row: &Row, number: usize)
    requires { number < 13 }
{
    row[number].add(1);
}

/// What is counted of the requests that a clock hears of.
#[derive(Drop)]
pub struct RouteCounts {
    arrived: Row,
    /// The nanoseconds of those that were carried out.
    spent: Row,
    /// How many were carried out within each bound and not within the one before.
    within: [Row; BOUNDS.len()],
}

impl RouteCounts {
    /// Nothing counted yet.
    pub(crate) fn new() -> RouteCounts {
        RouteCounts {
            arrived: new_row(),
            spent: new_row(),
            within: array::from_fn(|_| new_row()),
        }
    }

    /// A request came.
    #[inline(always)]
    pub(crate) fn note_arrival(&self, route: RouteName) {
        self.arrived[number_of(route)].add(1);
    }

    /// A request was carried out in this time.
    #[inline(always)]
    pub(crate) fn note_done(&self, route: RouteName, nanoseconds: u64) {
        let number = number_of(route);
        self.spent[number].add(nanoseconds);
        // Most are within the first bounds. With the bound's number written out, nothing is left to do but to count.
        if nanoseconds <= LIMITS[0] {
            raise(&self.within[0], number);
        } else if nanoseconds <= LIMITS[1] {
            raise(&self.within[1], number);
        } else if nanoseconds <= LIMITS[2] {
            raise(&self.within[2], number);
        } else {
            raise(&self.within[bucket_of(nanoseconds)], number);
        }
    }

    // The count that is meant, of the route of this number.
    fn read(&self, pick: Picks, number: usize) -> u64 {
        let Some(row) = self.row(pick) else {
            return 0;
        };
        match row.get(number) {
            Some(count) => count.read(),
            None => 0,
        }
    }

    // The counts that are meant, one for each route.
    fn row(&self, pick: Picks) -> Option<&Row> {
        match pick {
            Picks::Arrived => Some(&self.arrived),
            Picks::Spent => Some(&self.spent),
            Picks::Within(bucket) => self.within.get(bucket),
        }
    }
}

// Which counts are meant.
#[derive(Clone, Copy)]
enum Picks {
    Arrived,
    Spent,
    Within(usize),
}

// The sum of a count over all clocks.
fn sum_of(sets: &[RouteCounts], pick: Picks, number: usize) -> u64 {
    let mut sum: u64 = 0;
    for set in sets {
        sum = sum.wrapping_add(set.read(pick, number));
    }
    sum
}

// Adds the buckets of a route, each with all times within its bound.
fn push_buckets(
    sets: &[RouteCounts],
    number: usize,
    route: &'static [u8],
    buckets: &mut Vec<Bucket>,
) -> Result<(), AllocError>
    requires { number < 13 }
{
    let mut done: u64 = 0;
    for place in 0..BOUNDS.len() {
        let more = sum_of(sets, Picks::Within(place), number);
        done = done.wrapping_add(more);
        buckets.push(Bucket {
            route,
            bound: BOUNDS[place],
            done,
        })?;
    }
    Ok(())
}

/// The buckets of all routes.
pub(crate) fn buckets_of(alloc: Global, sets: &[RouteCounts]) -> Result<Vec<Bucket>, AllocError> {
    let mut buckets = Vec::new(alloc);
    for number in 0..ROUTES.len() {
        push_buckets(sets, number, ROUTES[number], &mut buckets)?;
    }
    Ok(buckets)
}

// How many requests of a route were carried out: those of its last bucket.
fn done_of(buckets: &[Bucket], number: usize) -> u64
    requires { number < 13 }
{
    match buckets.get(number * BOUNDS.len() + LIMITS.len()) {
        Some(bucket) => bucket.done,
        None => 0,
    }
}

/// The requests of all routes.
pub(crate) fn requests_of(alloc: Global, sets: &[RouteCounts]) -> Result<Vec<Sample>, AllocError> {
    let mut samples = Vec::new(alloc);
    for number in 0..LABELS.len() {
        samples.push(Sample {
            labels: LABELS[number],
            value: sum_of(sets, Picks::Arrived, number),
        })?;
    }
    Ok(samples)
}

/// The times of all routes, of which these are the buckets.
pub(crate) fn times_of(
    alloc: Global,
    sets: &[RouteCounts],
    buckets: &[Bucket],
) -> Result<Vec<RouteTime>, AllocError> {
    let mut times = Vec::new(alloc);
    for number in 0..ROUTES.len() {
        times.push(RouteTime {
            route: ROUTES[number],
            done: done_of(buckets, number),
            nanoseconds: sum_of(sets, Picks::Spent, number),
        })?;
    }
    Ok(times)
}
