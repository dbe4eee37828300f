//! The sum of a text.
ghost use Rattle.std.specs.Prelude.{◌≡◌, true, ◌↔◌};
ghost use Rattle.std.specs.List.{AllPass};
ghost use Rattle.journal_text.specs.Texts.{is_hex, sum_of};

use hex::encode_to_slice;
use sha2::{Digest, Sha256};

/// How many digits a sum has.
pub(crate) const SUM_DIGITS: usize = 64;

/// The SHA-256 of a text, or another print of as many bytes, as hex digits in lower case.
#[derive(Clone, Copy, Debug, PartialEq, Eq)]
pub struct Sum {
    pub digits: [u8; 64],
}

impl Sum {
    /// The sum of a text.
    pub fn of(text: &[u8]) -> Sum
        ensures { result.digits ≡ sum_of text.now }
    {
        let mut digits = [b'0'; SUM_DIGITS];
        let digest = Sha256::digest(text);
        // The room is twice as long as the digest, so this doesn't fail.
        if encode_to_slice(digest, &mut digits).is_err() {
            return Sum { digits };
        }
        Sum { digits }
    }
}

/// Whether all these bytes are hex digits in lower case.
pub(crate) fn are_hex(digits: &[u8]) -> bool
    ensures { result ≡ true ↔ AllPass is_hex digits.now }
{
    digits.iter().all(|digit| is_hex(*digit))
}

fn is_hex(digit: u8) -> bool
    ensures { result ≡ is_hex digit }
{
    matches!(digit, b'0'..=b'9' | b'a'..=b'f')
}
