//! The letters of phases.
ghost use Rattle.std.specs.Prelude.{◌≡◌, ◌∷◌, [], IfNone, IfSome, option_to_list};
ghost use Rattle.history_model.specs.declared.phase.Phase.{Phase};
ghost use Rattle.line_text.specs.Lines.{phase_text};

use history_model::phase::{EndKind, Phase};

/// The letter of a phase that an export may say.
pub fn letter_of(phase: Phase) -> Option<u8>
    ensures { option_to_list result ≡ phase_text phase }
{
    match phase {
        Phase::Prebooked => Some(b'P'),
        Phase::Confirmed => Some(b'C'),
        Phase::Fulfilled => Some(b'F'),
        Phase::Ended(EndKind::Release) => Some(b'r'),
        Phase::Ended(EndKind::Expire) => Some(b'e'),
        Phase::Ended(EndKind::Refund) => Some(b'f'),
        Phase::Ended(EndKind::Exchange) => Some(b'x'),
        Phase::Free | Phase::Making | Phase::Ending(_) => None,
    }
}

/// The phase of a letter.
pub(crate) fn phase_of_letter(letter: u8) -> Option<Phase>
    ensures some { IfSome result (λ phase. phase_text phase ≡ letter ∷ []) }
    ensures none { IfNone result ((phase : Phase) → ¬ (phase_text phase ≡ letter ∷ [])) }
{
    match letter {
        b'P' => Some(Phase::Prebooked),
        b'C' => Some(Phase::Confirmed),
        b'F' => Some(Phase::Fulfilled),
        b'r' => Some(Phase::Ended(EndKind::Release)),
        b'e' => Some(Phase::Ended(EndKind::Expire)),
        b'f' => Some(Phase::Ended(EndKind::Refund)),
        b'x' => Some(Phase::Ended(EndKind::Exchange)),
        _ => None,
    }
}
