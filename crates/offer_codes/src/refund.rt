ghost use Rattle.std.specs.Prelude.{◌≡◌, ◌==◌, Some, true, IfSome};
ghost use Rattle.offer_codes.specs.declared.code.RefundCode.{RefundCode};
ghost use Rattle.offer_codes.specs.Rows.{is_row};
ghost use Rattle.offer_codes.specs.Refunds.{is_refund, refund_text, phase_mark};
ghost use Rattle.offer_codes.specs.Found.{refund_from, refund_at as refund_value_at, has};
ghost use Rattle.offer_codes.specs.Marked.{IsSpelling, ReadsAny};

use crate::code::RefundCode;
use crate::numbers::{numbers, push_number, push_row, row_of};
use arrayvec::ArrayVec;
use rail_ids::RowNo;
use rail_time::Moment;

const MOST_AMOUNT: u64 = 99_999_999_999;

/// The refund offer's id.
pub fn write_refund(code: &RefundCode) -> ArrayVec<u8, 128>
    requires ranges { is_refund code.now ≡ true }
    ensures spelling { result.items ≡ refund_text code.now }
{
    let mut text = ArrayVec::new();
    push_row(&mut text, b"R".as_slice(), code.row);
    push_number(&mut text, b"-".as_slice(), code.made.seconds());
    push_number(&mut text, mark_of(code.fulfilled), code.amount);
    text
}

/// The mark of the phase that a quote was made for.
pub(crate) fn mark_of(fulfilled: bool) -> &'static [u8]
    ensures { result.now ≡ phase_mark fulfilled }
{
    if fulfilled {
        b"-F-".as_slice()
    } else {
        b"-C-".as_slice()
    }
}

/// The refund offer that has this id; `None` exactly where none has.
pub fn read_refund(text: &[u8]) -> Option<RefundCode>
    ensures some { IfSome result (IsSpelling is_refund refund_text text.now) }
    ensures spelled { ReadsAny is_refund refund_text text.now result }
{
    let numbers = numbers(text)?;
    let code = refund_of(numbers.as_slice(), has_letter(text, b'F'))?;
    if write_refund(&code).as_slice() == text {
        Some(code)
    } else {
        None
    }
}

/// Whether the letter stands in the text.
pub(crate) fn has_letter(text: &[u8], letter: u8) -> bool
    ensures { result ≡ has letter text.now }
{
    text.contains(&letter)
}

fn refund_of(numbers: &[u64], fulfilled: bool) -> Option<RefundCode>
    ensures value { result ≡ refund_from fulfilled numbers.now }
    ensures ranges { IfSome result (λ r. is_refund r ≡ true) }
{
    match numbers {
        [row, made, amount] => refund_at(row_of(*row, 0)?, *made, *amount, fulfilled),
        [row, generation, made, amount] => {
            refund_at(row_of(*row, *generation)?, *made, *amount, fulfilled)
        }
        _ => None,
    }
}

fn refund_at(row: RowNo, made: u64, amount: u64, fulfilled: bool) -> Option<RefundCode>
    requires row { is_row row ≡ true }
    ensures value { result ≡ refund_value_at row made amount fulfilled }
    ensures ranges { IfSome result (λ r. is_refund r ≡ true) }
{
    let made = Moment::of(made)?;
    if amount <= MOST_AMOUNT {
        Some(RefundCode {
            row,
            made,
            fulfilled,
            amount,
        })
    } else {
        None
    }
}
