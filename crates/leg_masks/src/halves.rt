//! The two halves of a place, each with a word of its own, and the pieces of a span.

ghost use Rattle.std.specs.Prelude.{◌≡◌, ℕ, ◌<◌, ◌≤◌};
ghost use Rattle.std.specs.List.{AllByRecursion};
ghost use Rattle.leg_masks.specs.Interval.{Holds, IsPiece, half_at, half_of as spec_half_of, halves, pieces as spec_pieces};

use crate::Span;
use arrayvec::ArrayVec;

/// How many legs a word has: half 0 of a place has legs 0 to 62, half 1 legs 63 to 125.
pub const WORD_LEGS: u8 = 63;

/// How many halves a place has, each with a word of its own.
pub const HALVES: u8 = 2;

/// The half of a piece, 0 or 1: all its legs lie in it.
pub fn half_of(span: Span) -> u8
    requires piece { IsPiece span }
    ensures value { result ≡ spec_half_of span }
    ensures half { result < halves }
    ensures legs { (leg : ℕ) → Holds span leg → half_at leg ≡ result }
{
    span.from / WORD_LEGS
}

/// The parts of a span that each lie in one half, in order: the span itself where it does, else its legs in half 0 and
/// its legs in half 1.
pub fn pieces(span: Span) -> ArrayVec<Span, 2>
    ensures value { result.items ≡ spec_pieces span }
    ensures each { AllByRecursion IsPiece result.items }
{
    let mut found = ArrayVec::new();
    if span.is_piece() {
        found.push(span);
    } else {
        found.push(Span {
            from: span.from,
            to: WORD_LEGS,
        });
        found.push(Span {
            from: WORD_LEGS,
            to: span.to,
        });
    }
    found
}
