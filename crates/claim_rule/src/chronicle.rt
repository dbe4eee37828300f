//! The layout and the history that only contracts read, chosen by a proof. They take no bytes.
ghost use Rattle.std.specs.Prelude.{◌≡◌};
ghost use Rattle.claim_rule.specs.declared.chronicle.Story.{Story};

use crate::books::Books;
use crate::desk::Desk;
use crate::rule::{Plan, View};
use atomic_table::{Closed, Mark, PerchPlay, PerchRule, RuledPerch, Seat};
use history_model::entry::Entry;
use std::alloc::Global;
use std::collections::LinkedList;
use std::marker::{Brand, PhantomData};
use std::snapshot::Snapshot;

/// A history of books of this layout. No value of it is made.
pub struct Story {
    pub plan: Plan,
    pub history: LinkedList<Entry>,
}

pub(crate) struct Anything;

impl PerchRule<Story> for Anything {
    ghost use Rattle.std.specs.Prelude.{[]};

    ghost holds = { λ _ _. Unit {0} };

    ghost first = { record { plan = record { legs = []; rows = 0; opening = [] }; history = [] } };
}

/// What is to be so of the story.
pub trait Tells {
    ghost use Rattle.claim_rule.specs.declared.chronicle.Story.{Story};

    ghost told: { Story → Type 0 };
}

impl Tells for Brand {
    ghost told = { λ _. Unit {0} };
}

pub(crate) struct Recalls<N> {
    tells: PhantomData<N>,
}

impl<N: Tells> PerchPlay<Story> for Recalls<N> {
    ghost then = { λ _ _ v n w. N.told w };
}

pub(crate) type Shelf = RuledPerch<u64, View, Story, Anything>;

pub(crate) type Chronicle = Mark<Story>;

pub(crate) fn blank(like: &Seat<u64, View>) -> (Shelf, Chronicle)
    ensures { result.1.perch ≡ result.0.name }
{
    RuledPerch::new(like, 0)
}

// The chronicle has a story of which this is so.
pub(crate) fn recall<N: Tells>(
    shelf: &Shelf,
    chronicle: &mut Chronicle,
    _books: &Snapshot<Books>,
    _desk: &Snapshot<Desk>,
    _closed: &Closed<u64, Global>,
)
    requires own { chronicle.old.perch ≡ shelf.now.name }
    requires told { (s : Story) × N.told s }
    ensures { N.told chronicle.new.view }
{
    shelf.load::<Recalls<N>>(chronicle);
}
