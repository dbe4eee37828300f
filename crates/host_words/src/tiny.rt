// The words of `tiny`, which are read by hand.
ghost use Rattle.std.specs.Prelude.{◌≡◌, ◌≤◌, ℕ, IfSome, IfNone};
ghost use Rattle.host_words.specs.Options.{words_texts};
ghost use Rattle.host_words.specs.Tiny.{IsNumber, IsTiny};

use leg_masks::MOST_LEGS;

/// The number from 1 to `most` that the word spells.
fn number_spelled(word: &[u8], most: u16) -> Option<u16>
    requires { most ≤ 1200 }
    ensures some { IfSome result (IsNumber word.now most) }
    ensures none { IfNone result ((n : ℕ) → IsNumber word.now most n → ⊥) }
{
    for number in 1..most + 1 {
        if itoa::Buffer::new().format(number).as_bytes() == word {
            return Some(number);
        }
    }
    None
}

/// What the words of `tiny` say.
#[derive(Clone, Copy, PartialEq, Eq)]
pub struct TinyWords {
    /// How many legs the one run has: 1 to 126.
    pub legs: u8,
    /// How many places it has: 1 to 1,200.
    pub places: u16,
}

/// What the words say, of which the first is `tiny` itself.
pub fn read_tiny(words: &[String]) -> Option<TinyWords>
    ensures some { IfSome result (λ said. IsTiny (words_texts words.now) said.legs said.places) }
    ensures none { IfNone result ((legs places : ℕ) → IsTiny (words_texts words.now) legs places → ⊥) }
{
    match words {
        [command, legs, places] => {
            if command.as_str() != "tiny" {
                return None;
            }
            let Some(legs) = number_spelled(legs.as_str().as_bytes(), u16::from(MOST_LEGS)) else {
                return None;
            };
            let Some(places) = number_spelled(places.as_str().as_bytes(), 1200) else {
                return None;
            };
            Some(TinyWords {
                legs: legs as u8,
                places,
            })
        }
        _ => None,
    }
}
