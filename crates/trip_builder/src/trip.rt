ghost use Rattle.std.specs.Prelude.{◌≡◌, ◌≤◌, length};

use arrayvec::ArrayVec;
use std::marker::Model;
use train_runs::Segment;

/// One to three segments, in the order of travel. Contracts see their list.
#[derive(Drop)]
pub struct Trip {
    segments: ArrayVec<Segment, 3>,
}

impl Model for Trip {
    ghost use Rattle.std.specs.Prelude.{◌≤◌, List, length};
    ghost use Rattle.train_runs.specs.declared.segment.Segment.{Segment};

    ghost Value = { List Segment };

    ghost view = { λ t. t.segments.items };

    ghost invariant = { λ t. 1 ≤ length t.segments.items };
}

impl Trip {
    // The trip of these segments.
    pub(crate) fn of(segments: &[Segment]) -> Trip
        requires some { 1 ≤ length segments.now }
        requires few { length segments.now ≤ 3 }
        ensures value { result ≡ segments.now }
    {
        let mut found = ArrayVec::new();
        let _copied = found.try_extend_from_slice(segments);
        Trip { segments: found }
    }

    /// The segments, in the order of travel.
    pub fn segments(&self) -> &[Segment]
        ensures value { result.now ≡ self.now }
        ensures some { 1 ≤ length self.now }
        ensures few { length self.now ≤ 3 }
    {
        self.segments.as_slice()
    }

    /// A copy of the segments.
    pub fn copied_segments(&self) -> ArrayVec<Segment, 3>
        ensures value { result.items ≡ self.now }
    {
        let mut found = ArrayVec::new();
        let _copied = found.try_extend_from_slice(self.segments());
        found
    }
}
