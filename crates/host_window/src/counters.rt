//! What is counted of a host while it runs.
use crate::counts::Counts;
use crate::family::Sample;
use crate::findings::Findings;
use crate::labels::{CAUSES, CODES, CREATED, Cause, FIRST_PROBLEM, STATUSES, number_of_code};
use crate::routes::{RouteCounts, buckets_of, requests_of, times_of};
use crate::tallies::{Tallies, Tally};
use std::alloc::{AllocError, Global};
use std::array;
use std::sync::atomic::{AtomicU64, Ordering};

/// How many sets of counts connections have, which take them in turn: as many as there may be workers, so that two of
/// them seldom raise the same count at once.
const SETS: usize = 16;

/// What is counted of connections.
#[derive(Drop)]
pub struct StreamCounts {
    received: Tally,
    sent: Tally,
    unwritten: Tally,
    ended: Tallies,
    answers: [Tally; STATUSES.len()],
    problems: Tallies,
}

/// How a host does.
#[derive(Clone, Copy, PartialEq, Eq)]
pub enum Health {
    /// It doesn't listen yet.
    Starting,
    /// It takes connections.
    Well,
    /// It has taken its last connection.
    Draining,
    /// It can't take connections any more.
    Deaf,
    /// Its journal is lost.
    Lost,
}

/// All counts of a host.
#[derive(Drop)]
pub struct Counters {
    sets: Vec<StreamCounts>,
    clocks: Vec<RouteCounts>,
    taken: Tally,
    sweeps: Tally,
    cuts: Tally,
    kept: Tally,
    rewrites: Tally,
    workers: u32,
    /// How the listener does: the number of a `Health`.
    door: AtomicU64,
    /// When the write of the journal began that is under way, in seconds since 1970; 0 where none is.
    writing: AtomicU64,
    /// 1 once the journal is lost.
    lost: AtomicU64,
    /// 1 once the host is over.
    over: AtomicU64,
    /// What the members of the host find in its books.
    pub findings: Findings,
}

impl StreamCounts {
    fn new(alloc: Global) -> Result<StreamCounts, AllocError> {
        Ok(StreamCounts {
            received: Tally::new(),
            sent: Tally::new(),
            unwritten: Tally::new(),
            ended: Tallies::new(alloc, CAUSES.len())?,
            answers: array::from_fn(|_| Tally::new()),
            problems: Tallies::new(alloc, CODES.len())?,
        })
    }

    /// So many bytes were received.
    #[inline(always)]
    pub(crate) fn note_received(&self, count: usize) {
        self.received.add(count as u64);
    }

    /// So many bytes of answers were written.
    #[inline(always)]
    pub(crate) fn note_sent(&self, count: usize) {
        self.sent.add(count as u64);
    }

    /// A write failed.
    pub(crate) fn note_unwritten(&self) {
        self.unwritten.add(1);
    }

    /// The connection was ended so.
    pub(crate) fn note_end(&self, cause: Cause) {
        self.ended.add(cause.number(), 1);
    }

    /// An answer whose status has this label has begun to be written, with this body.
    #[inline(always)]
    pub(crate) fn note_answer(&self, label: usize, body: &[u8]) {
        // Where 201 was told at once, none of the tests below is left.
        if label == CREATED {
            self.answers[CREATED].add(1);
            return;
        }
        if let Some(count) = self.answers.get(label) {
            count.add(1);
        }
        if label >= FIRST_PROBLEM {
            self.note_problem(body);
        }
    }

    // A problem with this body.
    #[inline(never)]
    fn note_problem(&self, body: &[u8]) {
        self.problems.add(number_of_code(body), 1);
    }
}

// The sums over all connections of what the number of a label picks.
fn table_of(
    alloc: Global,
    sets: &[StreamCounts],
    labels: &[&'static [u8]],
    pick: Picks,
) -> Result<Vec<Sample>, AllocError> {
    let mut samples = Vec::new(alloc);
    for number in 0..labels.len() {
        samples.push(Sample {
            labels: labels[number],
            value: sum_of(sets, pick, number),
        })?;
    }
    Ok(samples)
}

// Which counts of a connection are meant.
#[derive(Clone, Copy)]
enum Picks {
    Received,
    Sent,
    Unwritten,
    Ended,
    Answers,
    Problems,
}

impl StreamCounts {
    // The count that is meant; of the label of this number, where it has labels.
    fn read(&self, pick: Picks, number: usize) -> u64 {
        match pick {
            Picks::Received => self.received.read(),
            Picks::Sent => self.sent.read(),
            Picks::Unwritten => self.unwritten.read(),
            Picks::Ended => self.ended.read(number),
            Picks::Answers => match self.answers.get(number) {
                Some(count) => count.read(),
                None => 0,
            },
            Picks::Problems => self.problems.read(number),
        }
    }
}

// The sum of a count over all connections.
fn sum_of(sets: &[StreamCounts], pick: Picks, number: usize) -> u64 {
    let mut sum: u64 = 0;
    for set in sets {
        sum = sum.wrapping_add(set.read(pick, number));
    }
    sum
}

// A set of counts for each connection that there may be at once.
fn stream_sets(alloc: Global) -> Result<Vec<StreamCounts>, AllocError> {
    let mut sets = Vec::new(alloc);
    for _set in 0..SETS {
        sets.push(StreamCounts::new(alloc)?)?;
    }
    Ok(sets)
}

// And one for each clock.
fn clock_sets(alloc: Global) -> Result<Vec<RouteCounts>, AllocError> {
    let mut sets = Vec::new(alloc);
    for _set in 0..SETS {
        sets.push(RouteCounts::new())?;
    }
    Ok(sets)
}

impl Counters {
    /// Nothing counted yet, of a host with that many workers.
    pub fn new(alloc: Global, workers: u32) -> Result<Counters, AllocError> {
        Ok(Counters {
            sets: stream_sets(alloc)?,
            clocks: clock_sets(alloc)?,
            taken: Tally::new(),
            sweeps: Tally::new(),
            cuts: Tally::new(),
            kept: Tally::new(),
            rewrites: Tally::new(),
            workers,
            door: AtomicU64::new(0),
            writing: AtomicU64::new(0),
            lost: AtomicU64::new(0),
            over: AtomicU64::new(0),
            findings: Findings::new(),
        })
    }

    /// A connection was taken: what is counted of it, and of others.
    pub fn take_connection(&self) -> Option<&StreamCounts> {
        let number = self.taken.read() as usize % SETS;
        self.taken.add(1);
        self.sets.get(number)
    }

    /// What is counted of the requests that the clock of this number hears of, and maybe others.
    pub fn route_counts(&self, number: usize) -> Option<&RouteCounts> {
        self.clocks.get(number % SETS)
    }

    /// The listener does so now.
    pub fn note_door(&self, health: Health) {
        self.door.store(health.number(), Ordering::SeqCst);
    }

    /// A sweep was due.
    pub(crate) fn note_sweep(&self) {
        self.sweeps.add(1);
    }

    /// A write of the journal begins in this second since 1970, or, at 0, none is under way any more.
    pub(crate) fn note_writing(&self, since: u64) {
        self.writing.store(since, Ordering::SeqCst);
    }

    /// So many bytes were added to the journal, and are kept.
    pub(crate) fn note_cut(&self, bytes: usize) {
        self.cuts.add(1);
        self.kept.add(bytes as u64);
    }

    /// The journal was written anew, with that many bytes.
    pub(crate) fn note_rewrite(&self, bytes: usize) {
        self.rewrites.add(1);
        self.kept.add(bytes as u64);
    }

    /// The journal is lost.
    pub(crate) fn note_lost(&self) {
        self.lost.store(1, Ordering::SeqCst);
    }

    /// The host is over: nothing will be asked any more.
    pub fn end(&self) {
        self.over.store(1, Ordering::SeqCst);
    }

    /// Whether the host is over.
    pub fn is_over(&self) -> bool {
        self.over.load(Ordering::SeqCst) != 0
    }

    /// How the host does.
    pub fn health(&self) -> Health {
        if self.lost.load(Ordering::SeqCst) != 0 {
            return Health::Lost;
        }
        Health::of_number(self.door.load(Ordering::SeqCst))
    }

    fn sum(&self, pick: Picks) -> u64 {
        sum_of(&self.sets, pick, 0)
    }

    /// All that is counted, as it is now: other threads may go on counting meanwhile.
    pub fn read(&self, alloc: Global) -> Result<Counts, AllocError> {
        let health = self.health();
        let ended = table_of(alloc, &self.sets, &CAUSES, Picks::Ended)?;
        let taken = self.taken.read();
        let buckets = buckets_of(alloc, &self.clocks)?;
        Ok(Counts {
            healthy: u64::from(health == Health::Well),
            workers: u64::from(self.workers),
            busy: taken.saturating_sub(total_of(&ended)),
            taken,
            ended,
            unwritten: self.sum(Picks::Unwritten),
            received: self.sum(Picks::Received),
            sent: self.sum(Picks::Sent),
            answers: table_of(alloc, &self.sets, &STATUSES, Picks::Answers)?,
            problems: table_of(alloc, &self.sets, &CODES, Picks::Problems)?,
            requests: requests_of(alloc, &self.clocks)?,
            times: times_of(alloc, &self.clocks, &buckets)?,
            buckets,
            sweeps: self.sweeps.read(),
            cuts: self.cuts.read(),
            kept: self.kept.read(),
            rewrites: self.rewrites.read(),
            writing: self.writing.load(Ordering::SeqCst),
            lost: u64::from(health == Health::Lost),
        })
    }
}

// The sum of all numbers of a family.
fn total_of(samples: &[Sample]) -> u64 {
    let mut total: u64 = 0;
    for sample in samples {
        total = total.wrapping_add(sample.value);
    }
    total
}

impl Health {
    // Its number.
    fn number(self) -> u64 {
        match self {
            Health::Starting => 0,
            Health::Well => 1,
            Health::Draining => 2,
            Health::Deaf => 3,
            Health::Lost => 4,
        }
    }

    // Of its number.
    fn of_number(number: u64) -> Health {
        match number {
            0 => Health::Starting,
            1 => Health::Well,
            2 => Health::Draining,
            3 => Health::Deaf,
            _ => Health::Lost,
        }
    }
}
