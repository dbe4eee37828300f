// What a port notes for the operator's window, where there are counters. They tell nothing.
use crate::refusals::health_of;
use host_window::{Counters, Health, StreamCounts};
use rail_io::Keeper;

/// Notes how the host does from now on.
pub(crate) fn note_door<K: Keeper>(counters: Option<&Counters>, keeper: &K, health: Health) {
    if let Some(counters) = counters {
        counters.note_door(health_of(keeper.is_lost(), health));
    }
}

/// What is counted of the next connection, and of others.
pub(crate) fn take_counts(counters: Option<&Counters>) -> Option<&StreamCounts> {
    match counters {
        Some(counters) => counters.take_connection(),
        None => None,
    }
}
