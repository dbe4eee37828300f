//! A gate is shared by threads, and its clocks and keepers may go to one.
use crate::clock::GatedClock;
use crate::cuts::Cuts;
use crate::gate::Gate;
use crate::keeper::GateKeeper;
use crate::receipt::Receipt;

fn may_go<T: Send>() {}

fn may_be_shared<T: Sync>() {}

/// A gate is shared by threads; a clock before it and a keeper may go to one. It does nothing: that it is accepted is
/// the proof.
pub fn crosses<R: Sync + 'static, C: Send, K: Receipt + Drop + Send + 'static>() {
    may_go::<Gate>();
    may_be_shared::<Gate>();
    may_go::<Cuts<K>>();
    may_be_shared::<Cuts<K>>();
    may_go::<GatedClock<'static, R, C>>();
    may_go::<GateKeeper<'static, R, K>>();
    may_be_shared::<GateKeeper<'static, R, K>>();
}
