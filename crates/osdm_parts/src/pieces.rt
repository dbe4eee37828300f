//! Texts of a fixed capacity, put together piece by piece.
ghost use Rattle.std.specs.Prelude.{◌≡◌, ◌≤◌, ◌+◌, ◌++◌, length};
ghost use Rattle.arrayvec.specs.ArrayVec.{array_vec_len};

use arrayvec::ArrayVec;
use itoa::{Buffer, Integer};

/// Appends the bytes.
pub fn push(text: &mut ArrayVec<u8, 256>, piece: &[u8])
    requires { array_vec_len text.old + length piece.now ≤ 256 }
    ensures items { text.new.items ≡ text.old.items ++ piece.now }
    ensures len { array_vec_len text.new ≡ array_vec_len text.old + length piece.now }
{
    text.try_extend_from_slice(piece).unwrap();
}

/// Appends the number in decimal digits.
pub fn push_number<I: Integer>(text: &mut ArrayVec<u8, 256>, number: I)
    requires { array_vec_len text.old + I.MAX_STR_LEN ≤ 256 }
    ensures items { text.new.items ≡ text.old.items ++ I.text number }
    ensures len { array_vec_len text.new ≤ array_vec_len text.old + I.MAX_STR_LEN }
{
    push(text, Buffer::new().format(number).as_bytes());
}
