// A worker and its desk.
use claim_rule::Desk;

/// A worker with the desk that it works on.
#[derive(Drop)]
pub struct Member<W> {
    /// Whose steps the worker's turns are.
    pub desk: Desk,
    /// What takes the turns.
    pub worker: W,
}
