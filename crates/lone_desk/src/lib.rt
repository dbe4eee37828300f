//! What a desk sees between whose steps no other desk's stand. It is a crate of its own since `tiny`, which
//! rests on no service, needs it as the plain host does.
//!
//! The first desk of books, where it parted no other, has all entries there are, so each call adds just the call's own.
//! On such a desk a try of a candidate needs one look at each piece, which decides it, and nothing is contended. A hold
//! starts on the least row that is not in use, or, where all are, on the least whose booking may be followed by
//! another. Services of one thread rest on this. The crate has laws alone: it does nothing when it runs.
#![tactic(auto)]

ghost use Rattle.std.specs.Prelude.{◌≡◌, ◌≢◌, ◌<◌, ◌≤◌, ◌↔◌, ◌∷◌, ◌++◌, ℕ, List, Option};
ghost use Rattle.std.specs.List.{AllByRecursion, range_with_len};
ghost use Rattle.leg_masks.specs.Interval.{Interval, PlacedSpan as Item, most_legs};
ghost use Rattle.rail_ids.specs.declared.RowNo.{RowNo};
ghost use Rattle.history_model.specs.declared.entry.Step.{Step};
ghost use Rattle.history_model.specs.Lists.{Pairwise};
ghost use Rattle.history_model.specs.Booking.{Booking, Layout, State};
ghost use Rattle.history_model.specs.History.{IsLegalFrom};
ghost use Rattle.claim_rule.specs.Rule.{DeskView};
ghost use Rattle.claim_rule.specs.Calls.{AddsStepsBy};
ghost use Rattle.claim_rule.specs.Desks.{AddsSteps};
ghost use Rattle.booking_rows.specs.Starts.{StartsHold};
ghost use Rattle.hold_core.specs.Tries.{Try, IsTry};
ghost use Rattle.hold_core.specs.Places.{Adds, tries_steps, tried};
ghost use Rattle.hold_core.specs.declared.adds.Added.{Added};
ghost use Rattle.lone_desk.specs.Lone.{IsAlone, Follows, StartsLeast, entries_of};
ghost use Rattle.lone_desk.specs.Decided.{IsDecided, IsFreeAt, HasClearWords, FindsFirst};

/// The laws of a lone desk. A call's own steps are all that it then has seen more. Each try of unlike places has one
/// look at each piece that it comes to, and ends by what was free before it, so one place wanted of all is the least
/// that is free. A hold starts on the row in the making, or on the least row not in use, or, where all are, on the
/// least whose booking may be followed by another. The words of a place are clear on the pieces of a span exactly where
/// no item of the place that is not given back meets it.
pub fn lone_laws()
    ensures follows { (old new : DeskView) (steps : List Step) → IsAlone old → AddsSteps old new steps
        → Follows old new steps }
    ensures tries { (g : Layout) (s : State) (desk row k : ℕ) (span : Interval) (tries : List Try)
        → span.to ≤ most_legs → AllByRecursion (IsTry span) tries → Pairwise (λ p q. p ≢ q) (tried tries)
        → IsLegalFrom g s (entries_of desk (tries_steps row k span tries)) → AllByRecursion (IsDecided s span) tries }
    ensures first { (g : Layout) (s : State) (desk row k : ℕ) (span : Interval) (places : ℕ) (answer : Added)
        (won : List Item) (steps : List Step) → span.to ≤ most_legs → IsLegalFrom g s (entries_of desk steps)
        → Adds row k span 1 (range_with_len 0 places) answer won steps → FindsFirst s span places answer won }
    ensures starts { (old new : DeskView) (answer : Option RowNo) → IsAlone old
        → AddsStepsBy (StartsHold old new answer) old new → StartsLeast old new answer }
    ensures clear { (s : State) (place : ℕ) (span : Interval) → span.to ≤ most_legs
        → HasClearWords s span place ↔ IsFreeAt s span place }
{}
