ghost use Rattle.std.specs.Prelude.{◌≡◌, ℕ, ◌↔◌, IsTrue, IfSome, IfNone, cond};
ghost use Rattle.std.specs.Int.{bit_at};
ghost use Rattle.leg_masks.specs.Interval.{mask, has_leg, half_at, half_of, leg_of, shows, IsPiece, IsSpan, IsClear, IsFirstTaken};

use crate::{Span, WORD_LEGS, half_of};

/// The word that has exactly the piece's legs as bits: those of its half.
pub fn mask_of(span: Span) -> u64
    requires piece { IsPiece span }
    ensures value { result ≡ mask span }
    ensures span { IsSpan span }
    ensures bits { (bit : ℕ) → bit_at result bit ≡ cond (has_leg span (leg_of (half_of span) bit)) 1 0 }
    ensures legs { (leg : ℕ) → half_at leg ≡ half_of span → shows result leg ≡ cond (has_leg span leg) 1 0 }
{
    let first = WORD_LEGS * half_of(span);
    let from = span.from - first;
    let to = span.to - first;
    (1 << to) - (1 << from)
}

/// Whether no leg of the piece is set in the word of its half.
pub fn free_on(word: u64, span: Span) -> bool
    requires piece { IsPiece span }
    ensures { IsTrue result ↔ IsClear word span }
{
    word & mask_of(span) == 0
}

/// The least leg of the piece that is set in the word of its half: `None` exactly where the word is free on the piece.
pub fn first_taken(word: u64, span: Span) -> Option<u8>
    requires piece { IsPiece span }
    ensures taken { IfSome result (IsFirstTaken word span) }
    ensures free { IfNone result (IsClear word span) }
{
    let taken = word & mask_of(span);
    if taken == 0 {
        return None;
    }
    Some(taken.trailing_zeros() as u8 + WORD_LEGS * half_of(span))
}
