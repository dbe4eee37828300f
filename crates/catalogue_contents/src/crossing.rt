use crate::catalogue::Catalogue;

fn may_go<T: Send>() {}

fn may_be_shared<T: Sync>() {}

/// A catalogue may go to a thread, and be shared by threads. It does nothing: that it is accepted is the proof.
pub fn crosses() {
    may_go::<Catalogue>();
    may_be_shared::<Catalogue>();
}
