// What a gate's lock keeps.
ghost use Rattle.std.specs.Prelude.{◌≡◌, ◌≢◌, ◌≤◌, ◌<◌, ◌+◌, ◌-◌, ◌^◌, ◌↔◌, ◌⊎◌, IfSome, IfNone, true, false};
ghost use Rattle.answer_gate.specs.declared.state.Phase.TheVariants.{Open, Closing, Looking};
ghost use Rattle.answer_gate.specs.declared.state.Course.TheVariants.{Going, Over, Lost};
ghost use Rattle.answer_gate.specs.Standings.{fresh, entered, left, shown_by, wanted_by, closed, opened, kept_by, over};
ghost use Rattle.answer_gate.specs.Standings.{lost, IsLastIn, IsAsleep, HasRoom, IsLeft, Wakes, Looked, NotLooked};

/// What a gate does with those who come.
#[derive(Clone, Copy, PartialEq, Eq)]
pub enum Phase {
    /// Whoever comes is let in.
    Open,
    /// Nobody is let in, and some may be inside still.
    Closing,
    /// Nobody is inside: the rows are looked at.
    Looking,
}

/// Whether there will be more cuts.
#[derive(Clone, Copy, PartialEq, Eq)]
pub enum Course {
    /// One more, once somebody waits for it.
    Going,
    /// None: all servers have parted, and nothing is left to be kept.
    Over,
    /// None: the journal is lost.
    Lost,
}

/// How a gate stands.
#[derive(Clone, Copy)]
pub struct Standing {
    pub phase: Phase,
    pub course: Course,
    /// How many have entered and not left.
    pub inside: u64,
    /// Whether something may have changed since the last cut was taken.
    pub changed: bool,
    /// How many cuts were taken, which is the number of the last.
    pub taken: u64,
    /// The last cut that is kept. All before it are.
    pub kept: u64,
    /// The last cut that anyone has waited for.
    pub wanted: u64,
    /// How many of the members that serve haven't parted.
    pub servers: u32,
}

/// One who is inside. That whoever has one that a gate gave has entered it and not left is read.
#[derive(Drop)]
pub struct Inside {
    _entered: (),
}

/// A closed gate with nobody inside, for the cut of this number. Until one is handed back that a gate gave, or the
/// journal is lost, or there are no more cuts, nobody is to enter that gate: the rows may be looked at.
pub struct Closed {
    number: u64,
}

impl Closed {
    /// The number of the cut.
    pub fn number(&self) -> u64
        ensures { result ≡ self.now.number }
    {
        self.number
    }
}

/// The cut that an answer waits for, by its number; 0 for none. Only a gate gives one.
#[derive(Drop)]
pub struct Cut {
    number: u64,
}

impl Cut {
    /// The number of the cut.
    pub fn number(&self) -> u64
        ensures { result ≡ self.now.number }
    {
        self.number
    }
}

/// A cut that was taken and wasn't kept by then. The gate was opened again with it.
pub struct Taken {
    number: u64,
}

impl Taken {
    /// The number of the cut.
    pub fn number(&self) -> u64
        ensures { result ≡ self.now.number }
    {
        self.number
    }

    /// It is kept, or never will be.
    pub(crate) fn settle(self) {
        let Taken { number: _ } = self;
    }
}

/// The last number of a cut: each answer's is at most one more.
const LAST: u64 = u64::MAX - 1;

/// How a gate stands, with what is always so.
#[derive(Drop)]
pub struct State {
    standing: Standing,
    ghost alone: { standing.phase ≡ Looking → standing.inside ≡ 0 },
    ghost in_order: { standing.kept ≤ standing.taken },
    ghost has_next: { standing.taken + 1 < 2 ^ 64 },
    ghost ended_open: { standing.course ≢ Going → standing.phase ≡ Open },
}

impl State {
    /// Open, with nobody inside and nothing changed.
    pub fn new() -> State
        ensures { result.standing ≡ fresh }
    {
        State {
            standing: Standing {
                phase: Phase::Open,
                course: Course::Going,
                inside: 0,
                changed: false,
                taken: 0,
                kept: 0,
                wanted: 0,
                servers: 0,
            },
        }
    }

    /// Whether one more may enter. The last test never fails on a machine of this world.
    pub fn is_open(&self) -> bool
        ensures { (result ≡ true) ↔ HasRoom self.now.standing }
    {
        self.standing.phase == Phase::Open && self.standing.inside < u64::MAX
    }

    /// One enters.
    pub fn enter(&mut self) -> Inside
        requires open { self.old.standing.phase ≡ Open }
        requires room { self.old.standing.inside + 1 < 2 ^ 64 }
        ensures { self.new.standing ≡ entered self.old.standing }
    {
        self.standing.inside += 1;
        Inside { _entered: () }
    }

    /// Whether the committer may be waiting for the next one to leave: no other is inside, and the gate is closed or
    /// all servers have parted.
    pub fn holds_committer(&self) -> bool
        ensures { (result ≡ true) ↔ IsLastIn self.now.standing }
    {
        let now = &self.standing;
        now.inside <= 1 && (now.phase == Phase::Closing || now.servers == 0)
    }

    /// One leaves, and is told the cut of its answer: the next to be taken.
    pub fn leave(&mut self, inside: Inside) -> Cut
        ensures standing { self.new.standing ≡ left self.old.standing }
        ensures cut { result.number ≡ self.old.standing.taken + 1 }
    {
        let Inside { _entered: () } = inside;
        self.standing.inside = self.standing.inside.saturating_sub(1);
        self.standing.changed = true;
        Cut {
            number: self.standing.taken + 1,
        }
    }

    /// The cut of an answer that only tells.
    pub fn tell(&self) -> Cut
        ensures { result.number ≡ shown_by self.now.standing }
    {
        Cut {
            number: self.last_shown(),
        }
    }

    // Its number.
    fn last_shown(&self) -> u64
        ensures { result ≡ shown_by self.now.standing }
    {
        let now = &self.standing;
        if now.changed || now.inside > 0 {
            now.taken + 1
        } else {
            now.taken
        }
    }

    /// Somebody waits for the cut of this number, and is told whether the committer is to be woken for it: it is to be
    /// taken yet, and nobody has waited for it or a later one before.
    pub fn want(&mut self, cut: u64) -> bool
        ensures standing { self.new.standing ≡ wanted_by cut self.old.standing }
        ensures wakes { (result ≡ true) ↔ Wakes cut self.old.standing }
    {
        let is_next = self.standing.wanted < cut && self.standing.taken < cut;
        self.standing.wanted = self.standing.wanted.max(cut);
        is_next
    }

    /// Whether the committer has nothing to do yet: nobody waits for a cut that is to be taken, and somebody still may.
    pub fn is_quiet(&self) -> bool
        ensures { (result ≡ true) ↔ IsAsleep self.now.standing }
    {
        let now = &self.standing;
        now.course == Course::Going
            && now.wanted <= now.taken
            && (now.inside > 0 || now.servers > 0)
    }

    /// Whether something changed that no cut shows, or somebody waits for the next cut, and there will be one.
    pub fn has_work(&self) -> bool
        ensures { (result ≡ true) ↔ IsLeft self.now.standing }
    {
        let now = &self.standing;
        now.course == Course::Going && (now.changed || now.taken < now.wanted)
    }

    /// There will be no more cuts.
    pub fn finish(&mut self)
        ensures going { self.old.standing.course ≡ Going → self.new.standing ≡ over self.old.standing }
        ensures ended { self.old.standing.course ≢ Going → self.new.standing ≡ self.old.standing }
    {
        if self.standing.course == Course::Going {
            self.end(Course::Over);
        }
    }

    /// The journal is lost.
    pub fn lose(&mut self)
        ensures { self.new.standing ≡ lost self.old.standing }
    {
        self.end(Course::Lost);
    }

    fn end(&mut self, course: Course)
        ensures { self.new.standing ≡ record self.old.standing { phase = Open; course = course } }
    {
        self.standing.phase = Phase::Open;
        self.standing.course = course;
    }

    /// Closes the gate.
    pub fn close(&mut self)
        requires { self.old.standing.course ≡ Going }
        ensures { self.new.standing ≡ closed self.old.standing }
    {
        self.standing.phase = Phase::Closing;
    }

    /// Whether the gate is closed, with somebody inside.
    pub fn is_closing(&self) -> bool
        ensures { (result ≡ true) ↔ ((self.now.standing.phase ≡ Closing) × (0 < self.now.standing.inside)) }
    {
        self.standing.phase == Phase::Closing && self.standing.inside > 0
    }

    /// Takes a cut, whose number it says. Nobody is inside until the gate opens. None only where the gate isn't closed,
    /// or with the journal lost, as where the numbers are spent.
    pub fn look(&mut self) -> Option<Closed>
        requires empty { self.old.standing.phase ≡ Closing → self.old.standing.inside ≡ 0 }
        ensures some { IfSome result (λ c. Looked self.old.standing self.new.standing c.number) }
        ensures none { IfNone result (NotLooked self.old.standing self.new.standing) }
    {
        if self.standing.phase != Phase::Closing {
            return None;
        }
        if self.standing.taken >= LAST {
            self.lose();
            return None;
        }
        self.standing.phase = Phase::Looking;
        self.standing.changed = false;
        self.standing.taken += 1;
        Some(Closed {
            number: self.standing.taken,
        })
    }

    /// Opens the gate: the rows were looked at.
    pub fn open(&mut self, closed: Closed) -> Taken
        ensures standing { self.new.standing ≡ opened self.old.standing }
        ensures number { result.number ≡ closed.number }
    {
        let Closed { number } = closed;
        self.standing.phase = Phase::Open;
        Taken { number }
    }

    /// The cut of this number is kept, where it was taken.
    pub fn keep(&mut self, cut: u64)
        ensures { self.new.standing ≡ kept_by cut self.old.standing }
    {
        if self.standing.kept < cut && cut <= self.standing.taken {
            self.standing.kept = cut;
        }
    }

    /// Whether the journal is lost.
    pub fn is_lost(&self) -> bool
        ensures { (result ≡ true) ↔ (self.now.standing.course ≡ Lost) }
    {
        self.standing.course == Course::Lost
    }

    /// So many members will serve.
    pub fn expect(&mut self, servers: u32)
        ensures { self.new.standing ≡ record self.old.standing { servers = servers } }
    {
        self.standing.servers = servers;
    }

    /// One of them has ended.
    pub fn part(&mut self)
        ensures { self.new.standing ≡ record self.old.standing { servers = self.old.standing.servers - 1 } }
    {
        self.standing.servers = self.standing.servers.saturating_sub(1);
    }
}
