//! Parting a desk, joining one, and closing the table.
ghost use Rattle.std.specs.Prelude.{◌≡◌, ◌≢◌, ◌+◌, []};
ghost use Rattle.history_model.specs.declared.entry.Step.TheVariants.{Met};
ghost use Rattle.history_model.specs.History.{own};
ghost use Rattle.claim_rule.specs.Desks.{IsNew, HasMet, IsOf, Stepped};
ghost use Rattle.claim_rule.specs.Out.{IsIdle, IsTidy, KeepsEndings, KeepsHolds};
ghost use Rattle.claim_rule.specs.Walls.{Finishes};

use crate::books::Books;
use crate::chronicle::{blank, recall};
use crate::desk::Desk;
use crate::rule::{Joins, Parts};
use crate::wall::Wall;
use history_model::word::Word;
use std::marker::Brand;
use std::snapshot::Snapshot;

impl Books {
    /// A further desk, which has seen what the first desk has now seen. A hold or an ending that the first desk has out
    /// stays out.
    pub fn part(&self, desk: &mut Desk) -> Desk
        requires own { IsOf self.now desk.old }
        requires first { desk.old.number ≡ 0 }
        ensures own { IsOf self.now desk.new × IsOf self.now result }
        ensures met { Stepped Met desk.old record desk.new { parted = desk.old.parted } }
        ensures parted { desk.new.parted ≡ desk.old.parted + 1 }
        ensures new { IsNew result desk.new.parted desk.new.seen × (own desk.new.seen desk.new.parted ≡ []) }
        ensures tidy { IsTidy result }
        ensures past { result.past ≡ desk.new.past }
        ensures holds { KeepsHolds desk.old desk.new }
        ensures endings { KeepsEndings desk.old desk.new }
        ensures still { (IsIdle desk.old → IsIdle desk.new) × (IsTidy desk.old → IsTidy desk.new) }
    {
        let _ = &self.table;
        self.load_as::<Brand>(&mut desk.seat, Word::Place(0, 0));
        let seat = self.table.shared.split_seat::<Parts>(&mut desk.seat);
        Desk {
            seat,
            kept: None,
            past: desk.past,
        }
    }

    /// Joins another desk, and with it all that it had joined. An empty row that the other desk kept stays unused.
    pub fn meet(&self, desk: &mut Desk, other: Desk)
        requires own { IsOf self.now desk.old × IsOf self.now other }
        requires other { other.number ≢ 0 }
        requires idle { IsIdle desk.old × IsIdle other }
        ensures own { IsOf self.now desk.new }
        ensures met { HasMet desk.old other desk.new }
        ensures idle { IsIdle desk.new }
        ensures tidy { IsTidy desk.old → IsTidy desk.new }
    {
        let Desk {
            seat,
            kept: _,
            past: _,
        } = other;
        self.table.shared.join_seat::<Joins>(&mut desk.seat, seat);
        self.load_as::<Brand>(&mut desk.seat, Word::Place(0, 0));
    }

    /// Closes the table. The words are those of one legal history.
    pub fn finish(self, desk: Desk) -> Wall
        requires own { IsOf self desk }
        requires idle { IsIdle desk }
        ensures layout { result.layout ≡ self.layout }
        ensures history { Finishes self.layout desk result.words result.history }
    {
        let was = Snapshot::of(&self);
        let knew = Snapshot::of(&desk);
        let Books {
            table,
            places,
            rows,
            marks: _,
        } = self;
        let Desk {
            seat,
            kept: _,
            past: _,
        } = desk;
        let (shelf, mut chronicle) = blank(&seat);
        let closed = table.close_with(seat);
        recall::<Brand>(&shelf, &mut chronicle, &was, &knew, &closed);
        Wall {
            closed,
            places,
            rows,
            chronicle,
        }
    }
}
