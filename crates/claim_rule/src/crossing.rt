//! The books may be shared by threads, and what a desk has may go to one.
use crate::books::Books;
use crate::desk::Desk;
use crate::ending::Ending;
use crate::hold::Hold;
use crate::order::Told;

fn may_go<T: Send>() {}

fn may_be_shared<T: Sync>() {}

/// Books are shared by threads; a desk, a hold, an ending and what was told may go to one. It does nothing: that it is
/// accepted is the proof.
pub fn crosses() {
    may_go::<Books>();
    may_be_shared::<Books>();
    may_go::<Desk>();
    may_go::<Hold>();
    may_go::<Ending>();
    may_go::<Told>();
}
