//! Where each run's places and numbers stand. It is a hint alone: whoever goes by it looks whether it is right.
use crate::coach::Class;
use rail_ids::RunNo;
use std::alloc::Global;

/// How many runs have a mark at most: those of lower numbers.
const MOST_MARKS: usize = 65_536;

/// How many places there are, and how many numbers of each class.
#[derive(Clone, Copy)]
pub(crate) struct Sizes {
    pub places: usize,
    pub first: usize,
    pub second: usize,
}

/// The sizes before the first coach of a run, and after its last.
#[derive(Clone, Copy)]
pub(crate) struct Mark {
    pub start: Sizes,
    pub end: Sizes,
}

impl Mark {
    /// How many numbers of the class stand before the run's, and after which its last one stands.
    pub(crate) fn of_class(self, class: Class) -> (usize, usize) {
        match class {
            Class::First => (self.start.first, self.end.first),
            Class::Second => (self.start.second, self.end.second),
        }
    }
}

const NONE: Sizes = Sizes {
    places: 0,
    first: 0,
    second: 0,
};

const UNMARKED: Mark = Mark {
    start: NONE,
    end: NONE,
};

/// The marks of runs, by their numbers.
#[derive(Drop)]
pub(crate) struct Marks {
    of_runs: Vec<Mark>,
}

impl Marks {
    /// No marks. Takes no memory.
    pub(crate) fn new(alloc: Global) -> Marks {
        Marks {
            of_runs: Vec::new(alloc),
        }
    }

    /// The mark of a run.
    pub(crate) fn of(&self, run: RunNo) -> Mark {
        match self.of_runs.get(run.0 as usize) {
            Some(mark) => *mark,
            None => UNMARKED,
        }
    }

    /// Marks the sizes before and after a coach of the run. Where there is no memory for it, the run has no mark.
    pub(crate) fn note(&mut self, run: RunNo, start: Sizes, end: Sizes) {
        let at = run.0 as usize;
        if at < self.of_runs.len() {
            self.of_runs[at].end = end;
        } else if at < MOST_MARKS {
            self.begin(at, start, end);
        }
    }

    // Marks a later run than those before.
    fn begin(&mut self, at: usize, start: Sizes, end: Sizes) {
        if self.of_runs.resize(at, UNMARKED).is_err() {
            return;
        }
        let Ok(()) = self.of_runs.push(Mark { start, end }) else {
            return;
        };
    }
}
