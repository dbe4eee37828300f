//! Order in time: what one desk has seen is told to another, without an end of either.
ghost use Rattle.std.specs.Prelude.{◌≡◌};
ghost use mathlib.Core.List.{IsPrefix};
ghost use Rattle.history_model.specs.declared.entry.Step.TheVariants.{Met};
ghost use Rattle.claim_rule.specs.Desks.{IsOf, Stepped};
ghost use Rattle.claim_rule.specs.Out.{IsIdle, IsTidy, KeepsEndings, KeepsHolds};

use crate::books::Books;
use crate::desk::Desk;
use crate::rule::{Learns, Tells, View};
use atomic_table::Seat;
use history_model::word::Word;
use std::marker::{Brand, Model};

/// What a desk had seen when it was told. It takes no bytes and may go to another thread.
#[derive(Drop)]
pub struct Told {
    seat: Seat<u64, View>,
}

impl Model for Told {
    ghost use Rattle.std.specs.Prelude.{◌≡◌, true, []};
    ghost use Rattle.claim_rule.specs.Rule.{ToldView};

    ghost Value = { ToldView };

    ghost view = { λ t. record { table = t.seat.table_id; seen = t.seat.me.0.seen } };

    ghost invariant = { λ t. (t.seat.me.0.spent ≡ true) × (t.seat.me.1 ≡ []) };
}

impl Books {
    /// Tells all that the desk has seen, its own entries among it. The desk stays as it is.
    pub fn tell(&self, desk: &mut Desk) -> Told
        requires own { IsOf self.now desk.old }
        ensures same { desk.new ≡ desk.old }
        ensures told { (result.table ≡ desk.old.table) × (result.seen ≡ desk.old.seen) }
    {
        let seat = self.table.shared.split_seat::<Tells>(&mut desk.seat);
        Told { seat }
    }

    /// The same once more, for a further desk to learn.
    pub fn tell_again(&self, told: &mut Told) -> Told
        requires own { told.old.table ≡ self.now.table }
        ensures same { (told.new ≡ told.old) × (result ≡ told.old) }
    {
        let seat = self.table.shared.split_seat::<Tells>(&mut told.seat);
        Told { seat }
    }

    /// All that was told stands before whatever the desk does from now on.
    pub fn learn(&self, desk: &mut Desk, told: Told)
        requires own { IsOf self.now desk.old }
        requires table { told.table ≡ self.now.table }
        ensures own { IsOf self.now desk.new }
        ensures met { Stepped Met desk.old desk.new }
        ensures learned { IsPrefix told.seen desk.new.seen }
        ensures holds { KeepsHolds desk.old desk.new }
        ensures endings { KeepsEndings desk.old desk.new }
        ensures still { (IsIdle desk.old → IsIdle desk.new) × (IsTidy desk.old → IsTidy desk.new) }
    {
        let Told { seat } = told;
        self.table.shared.join_seat::<Learns>(&mut desk.seat, seat);
        self.load_as::<Brand>(&mut desk.seat, Word::Place(0, 0));
    }
}
