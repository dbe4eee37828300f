//! Counts that all threads may raise.
use crate::family::Sample;
use std::alloc::{AllocError, Global};
use std::sync::atomic::{AtomicU64, Ordering};

/// A count that all threads may raise.
#[derive(Drop)]
pub(crate) struct Tally {
    count: AtomicU64,
}

impl Tally {
    /// None yet.
    pub(crate) fn new() -> Tally {
        Tally {
            count: AtomicU64::new(0),
        }
    }

    /// So many more. It begins anew at 0 after the last number of 64 bits.
    #[inline(always)]
    pub(crate) fn add(&self, more: u64) {
        self.count.fetch_add(more, Ordering::SeqCst);
    }

    /// How many there are now.
    pub(crate) fn read(&self) -> u64 {
        self.count.load(Ordering::SeqCst)
    }
}

/// Counts of one name, one for each of its labels.
#[derive(Drop)]
pub(crate) struct Tallies {
    counts: Vec<Tally>,
}

impl Tallies {
    /// So many counts.
    pub(crate) fn new(alloc: Global, labels: usize) -> Result<Tallies, AllocError> {
        let mut counts = Vec::new(alloc);
        for _label in 0..labels {
            counts.push(Tally::new())?;
        }
        Ok(Tallies { counts })
    }

    /// So many more with the label of this number, where there is one.
    #[inline(always)]
    pub(crate) fn add(&self, label: usize, more: u64) {
        if let Some(count) = self.counts.get(label) {
            count.add(more);
        }
    }

    /// How many there are now with the label of this number.
    pub(crate) fn read(&self, label: usize) -> u64 {
        match self.counts.get(label) {
            Some(count) => count.read(),
            None => 0,
        }
    }
}
