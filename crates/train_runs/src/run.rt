ghost use Rattle.std.specs.Prelude.{◌≡◌, ◌<◌, ◌≤◌, length};
ghost use Rattle.train_runs.specs.Stops.{RunView, most_stops, first_unrisen as first_unrisen_of, first_repeated as first_repeated_of, is_unrisen as is_unrisen_of, is_repeated as is_repeated_of, stop_of as stop_number_of};

use rail_ids::StationNo;
use rail_time::Moment;
use std::marker::Model;

/// How many stops a run may have.
pub const MOST_STOPS: usize = 127;

/// A stop of a run: when the run reaches the station, and when it leaves it. The first stop has an arrival too and the
/// last a departure, though no one rides to the one or on from the other: each may be the stop's other time, and
/// needn't be.
#[derive(Clone, Copy, PartialEq, Eq)]
pub struct Stop {
    pub station: StationNo,
    pub arrive: Moment,
    pub depart: Moment,
}

/// Why a run was refused.
#[derive(Clone, Copy, PartialEq, Eq)]
pub enum RunFault {
    /// It has fewer than two stops.
    TooFewStops,
    /// It has more than 127 stops.
    TooManyStops,
    /// The least stop that is left before it is reached, or that is reached no later than the one before is left.
    TimesNotRising { stop: u8 },
    /// There are 4,096 runs.
    TooManyRuns,
    /// The least stop whose station stood earlier.
    StationRepeated { stop: u8 },
    /// Want of memory.
    NoMemory,
}

/// A run of a train: the train's number, and its stops in order. Leg l lies between stop l and stop l + 1.
#[derive(Drop)]
pub struct Run {
    train: u32,
    stops: Vec<Stop>,
}

impl Model for Run {
    ghost use Rattle.train_runs.specs.Stops.{RunView};

    ghost Value = { RunView };

    ghost view = { λ r. record { train = r.train; stops = r.stops.items } };
}

impl Run {
    /// A run that isn't checked yet: `Runs::add` does that.
    pub fn new(train: u32, stops: Vec<Stop>) -> Run
        ensures value { result ≡ record { train = train; stops = stops.items } }
    {
        Run { train, stops }
    }

    /// The number of the train.
    pub fn train(&self) -> u32
        ensures value { result ≡ self.now.train }
    {
        self.train
    }

    /// The stops, in order.
    pub fn stops(&self) -> &[Stop]
        ensures value { result.now ≡ self.now.stops }
    {
        self.stops.as_slice()
    }
}

/// The least stop whose times don't rise.
pub(crate) fn first_unrisen(stops: &[Stop]) -> Option<u8>
    requires { length stops.now ≤ most_stops }
    ensures { result ≡ first_unrisen_of stops.now }
{
    for n in 0..stops.len() {
        if is_unrisen(stops, n) {
            return Some(n as u8);
        }
    }
    None
}

fn is_unrisen(stops: &[Stop], n: usize) -> bool
    requires { n < length stops.now }
    ensures { result ≡ is_unrisen_of stops.now n }
{
    let stop = &stops[n];
    stop.depart < stop.arrive || (0 < n && stop.arrive <= stops[n - 1].depart)
}

/// The least stop whose station stood earlier.
pub(crate) fn first_repeated(stops: &[Stop]) -> Option<u8>
    requires { length stops.now ≤ most_stops }
    ensures { result ≡ first_repeated_of stops.now }
{
    for n in 0..stops.len() {
        if is_repeated(stops, n) {
            return Some(n as u8);
        }
    }
    None
}

fn is_repeated(stops: &[Stop], n: usize) -> bool
    requires { n < length stops.now }
    ensures { result ≡ is_repeated_of stops.now n }
{
    let station = stops[n].station;
    for stop in &stops[..n] {
        if stop.station.0 == station.0 {
            return true;
        }
    }
    false
}

/// The number of the stop at the station.
pub(crate) fn stop_of(stops: &[Stop], station: StationNo) -> Option<u8>
    requires { length stops.now ≤ most_stops }
    ensures { result ≡ stop_number_of station stops.now }
{
    for (n, stop) in stops.iter().enumerate() {
        if stop.station.0 == station.0 {
            return Some(n as u8);
        }
    }
    None
}
