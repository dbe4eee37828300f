// The counters are shared among threads.
use crate::counters::Counters;
use crate::findings::Findings;

fn may_be_shared<T: Sync>() {}

/// They may be.
pub fn crosses() {
    may_be_shared::<Counters>();
    may_be_shared::<Findings>();
}
