//! Why a place is contended.
ghost use Rattle.std.specs.Prelude.{◌≡◌, ◌++◌, ℕ, List, map};
ghost use Rattle.leg_masks.specs.Interval.{Interval, half_of};
ghost use Rattle.history_model.specs.declared.entry.Entry.{Entry};
ghost use Rattle.history_model.specs.Booking.{Layout};
ghost use Rattle.history_model.specs.History.{IsLegal, entry, own};
ghost use Rattle.hold_core.specs.Tries.{looks_at, AreMoving};
ghost use Rattle.hold_core.specs.Contending.{ChangesBetween};

/// Between two neighbouring looks at a piece stands an entry of another desk that changes the word of the half looked
/// at: so between the nine looks of a contended one stand at least eight.
pub fn contended_looks_have_causes()
    ensures causes { (g : Layout) (history entries : List Entry) (desk place : ℕ) (piece : Interval) (shown : List ℕ)
        → IsLegal g (history ++ entries) → own entries desk ≡ map (entry desk) (looks_at place piece shown)
        → AreMoving shown → ChangesBetween g history place (half_of piece) desk entries shown }
{}
