ghost use Rattle.std.specs.Prelude.{◌≡◌, ◌≤◌, ◌+◌, ◌++◌, [], ◌∷◌, Some, true, IfSome, option_map};
ghost use Rattle.arrayvec.specs.ArrayVec.{array_vec_len};
ghost use Rattle.offer_codes.specs.Marked.{marked, IsSpelling, ReadsAny};
ghost use Rattle.offer_codes.specs.Rows.{is_row};
ghost use Rattle.offer_codes.specs.Refunds.{phase_mark};
ghost use Rattle.offer_codes.specs.Exchanges.{exchange_view, exchange_text, is_exchange, sign_mark, difference_mark, difference_bytes};
ghost use Rattle.offer_codes.specs.Found.{exchange_from, exchange_behind, signed as signed_of};

use crate::code::ExchangeCode;
use crate::numbers::{numbers, push_number, push_row, row_of};
use crate::offer::{offer_of, push_offer};
use crate::refund::{has_letter, mark_of};
use arrayvec::ArrayVec;
use rail_ids::RowNo;
use rail_time::Moment;

const MOST_AMOUNT: u64 = 99_999_999_999;

/// The exchange offer's id.
pub fn write_exchange(code: &ExchangeCode) -> ArrayVec<u8, 128>
    requires ranges { is_exchange (exchange_view code.now) ≡ true }
    ensures spelling { result.items ≡ exchange_text (exchange_view code.now) }
{
    let mut text = ArrayVec::new();
    push_row(&mut text, b"X".as_slice(), code.row);
    push_number(&mut text, b"-".as_slice(), code.made.seconds() as u32);
    push_difference(&mut text, code.fulfilled, code.difference);
    push_offer(&mut text, b"-O".as_slice(), &code.offer);
    text
}

fn push_difference(text: &mut ArrayVec<u8, 128>, fulfilled: bool, difference: i64)
    requires room { array_vec_len text.old ≤ 28 }
    ensures spelling { text.new.items ≡ text.old.items ++ marked (difference_mark fulfilled difference ∷ []) }
    ensures len { array_vec_len text.new ≤ array_vec_len text.old + difference_bytes }
{
    push_number(
        text,
        sign_of(fulfilled, difference < 0),
        difference.unsigned_abs(),
    );
}

fn sign_of(fulfilled: bool, less: bool) -> &'static [u8]
    ensures { result.now ≡ phase_mark fulfilled ++ sign_mark less }
{
    match (fulfilled, less) {
        (false, false) => b"-C-p".as_slice(),
        (false, true) => b"-C-m".as_slice(),
        (true, false) => b"-F-p".as_slice(),
        (true, true) => b"-F-m".as_slice(),
    }
}

/// The exchange offer that has this id; `None` exactly where none has.
pub fn read_exchange(text: &[u8]) -> Option<ExchangeCode>
    ensures some { IfSome result (λ c. IsSpelling is_exchange exchange_text text.now (exchange_view c)) }
    ensures spelled { ReadsAny is_exchange exchange_text text.now (option_map exchange_view result) }
{
    let numbers = numbers(text)?;
    let code = exchange_of(
        numbers.as_slice(),
        has_letter(text, b'F'),
        has_letter(text, b'm'),
    )?;
    if write_exchange(&code).as_slice() == text {
        Some(code)
    } else {
        None
    }
}

fn exchange_of(numbers: &[u64], fulfilled: bool, less: bool) -> Option<ExchangeCode>
    ensures value { option_map exchange_view result ≡ exchange_from fulfilled less numbers.now }
    ensures ranges { IfSome result (λ c. is_exchange (exchange_view c) ≡ true) }
{
    let [row, rest @ ..] = numbers else {
        return None;
    };
    if rest.len() % 3 == 2 {
        let [generation, rest @ ..] = rest else {
            return None;
        };
        return exchange_at(row_of(*row, *generation)?, rest, fulfilled, less);
    }
    exchange_at(row_of(*row, 0)?, rest, fulfilled, less)
}

fn exchange_at(row: RowNo, rest: &[u64], fulfilled: bool, less: bool) -> Option<ExchangeCode>
    requires row { is_row row ≡ true }
    ensures value { option_map exchange_view result ≡ exchange_behind fulfilled less rest.now row }
    ensures ranges { IfSome result (λ c. is_exchange (exchange_view c) ≡ true) }
{
    let [made, amount, rest @ ..] = rest else {
        return None;
    };
    let offer = offer_of(rest)?;
    let made = Moment::of(*made)?;
    if *amount <= MOST_AMOUNT {
        Some(ExchangeCode {
            row,
            made,
            fulfilled,
            difference: signed(less, *amount),
            offer,
        })
    } else {
        None
    }
}

fn signed(less: bool, amount: u64) -> i64
    requires { amount ≤ 99_999_999_999 }
    ensures { result ≡ signed_of less amount }
{
    if less {
        -(amount as i64)
    } else {
        amount as i64
    }
}
