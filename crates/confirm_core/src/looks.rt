//! Looks at single words of a booking's row.
ghost use Rattle.std.specs.Prelude.{◌≡◌, ◌≢◌, ◌<◌, true, [], ◌∷◌, IfSome};
ghost use Rattle.history_model.specs.Phase.{is_sealed as sealed_phase};
ghost use Rattle.history_model.specs.Booking.{row_words, standing_word};
ghost use Rattle.history_model.specs.declared.entry.Step.TheVariants.{SawRow};
ghost use Rattle.history_model.specs.declared.phase.Phase.{Phase as PhaseShown};
ghost use Rattle.history_model.specs.declared.phase.Phase.TheVariants.{Free};
ghost use Rattle.claim_rule.specs.Desks.{IsOf, AddsSteps};
ghost use Rattle.claim_rule.specs.Calls.{AddsStepsBy};
ghost use Rattle.claim_rule.specs.Out.{KeepsHolds, KeepsEndings};
ghost use Rattle.booking_rows.specs.Views.{saw_phase};
ghost use Rattle.booking_rows.specs.SealedRows.{IsSealedRow, IsSealedSince, IsStillPresent};
ghost use Rattle.confirm_core.specs.Looks.{SawPhase, HasWordAt, FindsOwned};

use claim_rule::{Books, Desk};
use history_model::booking::{RETAILER_WORD, STANDING_WORD};
use history_model::phase::{Phase, phase_shown};
use rail_ids::{RetailerNo, RowNo};

/// Whether a booking in this phase is sealed: it is neither free nor in the making.
pub fn is_sealed(phase: Phase) -> bool
    ensures sealed { result ≡ sealed_phase phase }
{
    !matches!(phase, Phase::Free | Phase::Making)
}

/// One look at the phase that its row shows a booking: free where it has none yet, and where it was given away.
pub fn look_phase(books: &Books, desk: &mut Desk, row: RowNo) -> Phase
    requires own { IsOf books.now desk.old }
    requires row { row.row < books.now.layout.rows }
    ensures own { IsOf books.now desk.new }
    ensures entries { AddsStepsBy (SawPhase row result) desk.old desk.new }
    ensures word { sealed_phase result ≡ true → AddsSteps desk.old desk.new (saw_phase row result ∷ []) }
    ensures sealed { sealed_phase result ≡ true → IsSealedSince desk.new row result }
    ensures present { result ≢ Free → IsStillPresent desk.new row }
    ensures holds { KeepsHolds desk.old desk.new }
    ensures endings { KeepsEndings desk.old desk.new }
{
    phase_shown(books.step_read(desk, row, STANDING_WORD), row.generation)
}

/// One look at a word of a sealed booking's row. It is the booking's where its row was not given away.
pub fn look_word(books: &Books, desk: &mut Desk, row: RowNo, word: u8) -> u64
    requires own { IsOf books.now desk.old }
    requires row { (row.row < books.now.layout.rows) × (word < row_words) }
    requires word { standing_word < word }
    requires sealed { IsSealedRow desk.old row }
    ensures own { IsOf books.now desk.new }
    ensures entries { AddsSteps desk.old desk.new (SawRow row.row word result ∷ []) }
    ensures word { IsStillPresent desk.new row → HasWordAt desk.new row word result }
    ensures sealed { (phase : PhaseShown) → IsSealedSince desk.old row phase → IsSealedSince desk.new row phase }
    ensures holds { KeepsHolds desk.old desk.new }
    ensures endings { KeepsEndings desk.old desk.new }
{
    books.step_read(desk, row, word)
}

/// The phase of this retailer's booking, by looks at its phase, its retailer and its phase again. `None` exactly where
/// the row is past the last, the first look shows the booking free or in the making, the last one free, or its retailer
/// is another.
pub fn find_owned(books: &Books, desk: &mut Desk, row: RowNo, retailer: RetailerNo) -> Option<Phase>
    requires own { IsOf books.now desk.old }
    ensures own { IsOf books.now desk.new }
    ensures entries { AddsStepsBy (FindsOwned books.now.layout.rows row retailer.0 result) desk.old desk.new }
    ensures sealed { IfSome result (λ _. IsSealedRow desk.new row) }
    ensures holds { KeepsHolds desk.old desk.new }
    ensures endings { KeepsEndings desk.old desk.new }
{
    if row.row >= books.rows() {
        return None;
    }
    let shown = look_phase(books, desk, row);
    if !is_sealed(shown) {
        return None;
    }
    let owner = look_word(books, desk, row, RETAILER_WORD);
    let last = look_phase(books, desk, row);
    if let Phase::Free = last {
        return None;
    }
    if owner != u64::from(retailer.0) {
        return None;
    }
    Some(shown)
}
