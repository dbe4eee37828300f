//! What is read of an answer that is written.
ghost use Rattle.std.specs.Prelude.{◌≡◌, ◌<◌, ◌+◌, ◌*◌, ◌++◌, slice_index};
ghost use Rattle.host_window.specs.Counted.{label_in, number_in};

use crate::labels::{CREATED, number_of_status};

/// How many values a byte has.
const BYTE: u32 = 256;

// The number of three digits, or 0.
fn number_of(hundreds: u8, tens: u8, ones: u8) -> u16
    ensures { result ≡ number_in hundreds tens ones }
{
    if hundreds.is_ascii_digit() && tens.is_ascii_digit() && ones.is_ascii_digit() {
        let sum = u16::from(hundreds) * 100 + u16::from(tens) * 10 + u16::from(ones);
        sum - u16::from(b'0') * 111
    } else {
        0
    }
}

// The byte of both pieces at this place, or 0 past their end.
fn byte_at(first: &[u8], second: &[u8], place: usize) -> u8
    ensures { result ≡ slice_index (first.now ++ second.now) place }
{
    if place < first.len() {
        return first[place];
    }
    match second.get(place - first.len()) {
        Some(byte) => *byte,
        None => 0,
    }
}

// The number of the label of any answer.
fn label_by_digits(first: &[u8], second: &[u8]) -> usize
    ensures { result ≡ label_in (first.now ++ second.now) }
{
    let hundreds = byte_at(first, second, 9);
    let tens = byte_at(first, second, 10);
    let ones = byte_at(first, second, 11);
    number_of_status(number_of(hundreds, tens, ones))
}

// Four bytes as one number, so that they are compared at once.
#[inline(always)]
fn joined(ones: u8, twos: u8, threes: u8, fours: u8) -> u32
    ensures joined { result ≡ ones + 256 * (twos + 256 * (threes + 256 * fours)) }
    ensures bytes { (ones < 256) × (twos < 256) × (threes < 256) × (fours < 256) }
{
    u32::from(ones)
        + BYTE * (u32::from(twos) + BYTE * (u32::from(threes) + BYTE * u32::from(fours)))
}

// The number of the label of any answer. Most of those that get here are 200, so that it is looked for first.
#[inline(never)]
fn label_of_other(first: &[u8], second: &[u8]) -> usize
    ensures { result ≡ label_in (first.now ++ second.now) }
{
    if first.len() >= 12 {
        let status = joined(first[8], first[9], first[10], first[11]);
        if status == joined(b' ', b'2', b'0', b'0') {
            return 0;
        }
    }
    label_by_digits(first, second)
}

/// The number of the label of an answer that begins with these two pieces. 201 is told at once. All others are told
/// apart in a call, so that no test of theirs stands before it.
#[inline(always)]
pub(crate) fn label_of(first: &[u8], second: &[u8]) -> usize
    ensures { result ≡ label_in (first.now ++ second.now) }
{
    if first.len() >= 12 {
        let status = joined(first[8], first[9], first[10], first[11]);
        if status == joined(b' ', b'2', b'0', b'1') {
            return CREATED;
        }
    }
    label_of_other(first, second)
}
