use crate::fare::Fare;
use crate::terms::Terms;

fn may_go<T: Send>() {}

fn may_be_shared<T: Sync>() {}

/// Fares and terms may go to a thread, and be shared by threads. It does nothing: that it is accepted is the proof.
pub fn crosses() {
    may_go::<Fare>();
    may_be_shared::<Fare>();
    may_go::<Terms>();
    may_be_shared::<Terms>();
}
