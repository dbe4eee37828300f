//! Which writes begin an answer.
ghost use Rattle.std.specs.Prelude.{◌≡◌, ◌<◌};
ghost use Rattle.host_window.specs.Counting.{Turns};

/// How many bytes of the answer that is being written are left.
#[derive(Clone, Copy, PartialEq, Eq)]
pub(crate) struct Turn {
    left: usize,
}

impl Turn {
    /// No answer is being written.
    pub(crate) fn new() -> Turn
        ensures { result.left ≡ 0 }
    {
        Turn { left: 0 }
    }

    /// Some bytes were taken of a write of that many, which were all that was left of an answer or all of a new one:
    /// whether they are the first of a new one.
    #[inline(always)]
    pub(crate) fn begins(&mut self, size: usize, taken: usize) -> bool
        requires some { 0 < taken }
        ensures { Turns self.old.left size taken result self.new.left }
    {
        if self.left != 0 {
            self.left = self.left.saturating_sub(taken);
            return false;
        }
        if taken != size {
            self.left = size.saturating_sub(taken);
        }
        true
    }
}
