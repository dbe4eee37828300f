use crate::runs::Runs;

fn may_go<T: Send>() {}

fn may_be_shared<T: Sync>() {}

/// Runs may go to a thread, and be shared by threads. It does nothing: that it is accepted is the proof.
pub fn crosses() {
    may_go::<Runs>();
    may_be_shared::<Runs>();
}
