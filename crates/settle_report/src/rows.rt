//! What a closed wall shows of a row's booking.
ghost use Rattle.std.specs.Prelude.{ℤ, ◌≡◌, ◌<◌, ◌↔◌, IsTrue};
ghost use Rattle.history_model.specs.declared.phase.EndKind.TheVariants.{Exchange};
ghost use Rattle.history_model.specs.Booking.{amount_word, phase_of_row, row_words};
ghost use Rattle.history_model.specs.Phase.{is_sealed as is_sealed_phase};
ghost use Rattle.history_model.specs.Words.{row_word};
ghost use Rattle.settle_report.specs.Accounts.{IsSettled, generation_at, state_on};
ghost use Rattle.settle_report.specs.Steps.{IsAmountBy, IsEndAmount, IsInPhase, sale_in};

use crate::account::Sale;
use claim_rule::Wall;
use history_model::booking::{END_AMOUNT_WORD, RETAILER_WORD, STANDING_WORD, TOTAL_WORD};
use history_model::phase::{EndKind, Phase, read_row_word};

/// What a row shows: the generation of its present booking, and what counts of it where it is a retailer's.
#[derive(Clone, Copy)]
pub(crate) struct Shown {
    pub(crate) generation: u32,
    pub(crate) sale: Option<Sale>,
}

// A word of a row.
fn word_at(wall: &Wall, row: u32, word: u8) -> u64
    requires settled { IsSettled wall.now }
    requires row { (row < wall.now.layout.rows) × (word < row_words) }
    ensures { result ≡ row_word (state_on wall.now) row word }
{
    match wall.row_word(row, word) {
        Some(word) => word,
        None => unreachable!(),
    }
}

// The amount of an end, by its word.
fn amount_of(kind: EndKind, word: u64) -> i64
    requires word { (amount : ℤ) × IsAmountBy kind word amount }
    ensures { (amount : ℤ) → IsAmountBy kind word amount → result ≡ amount }
{
    match kind {
        EndKind::Release | EndKind::Expire => 0,
        EndKind::Refund => word as i64,
        EndKind::Exchange => difference_of(word),
    }
}

// The difference of an exchange, by its word: twice it, or twice its size less 1 where it is negative.
fn difference_of(word: u64) -> i64
    ensures { (amount : ℤ) → amount_word Exchange amount ≡ word → result ≡ amount }
{
    let half = (word / 2) as i64;
    if word % 2 == 0 { half } else { -half - 1 }
}

// The amount of the end of a row's booking, which is in this phase: 0 where it hasn't ended.
fn amount_at(wall: &Wall, row: u32, phase: Phase) -> i64
    requires settled { IsSettled wall.now }
    requires row { row < wall.now.layout.rows }
    requires phase { IsInPhase (state_on wall.now) row phase }
    ensures { IsEndAmount (state_on wall.now) row result }
{
    match phase {
        Phase::Ended(kind) => amount_of(kind, word_at(wall, row, END_AMOUNT_WORD)),
        _ => 0,
    }
}

// Whether a booking in this phase is neither free nor in the making.
fn is_sealed(phase: Phase) -> bool
    ensures { result ≡ is_sealed_phase phase }
{
    !matches!(phase, Phase::Free | Phase::Making)
}

// Whether a retailer may have this number.
fn is_retailer(number: u64) -> bool
    ensures { IsTrue result ↔ (0 < number) }
{
    number > 0
}

// What counts of a row in this phase.
fn sale_at(wall: &Wall, row: u32, phase: Phase) -> Option<Sale>
    requires settled { IsSettled wall.now }
    requires row { row < wall.now.layout.rows }
    requires phase { phase ≡ phase_of_row (state_on wall.now) row }
    ensures { result ≡ sale_in (state_on wall.now) row }
{
    if !is_sealed(phase) {
        return None;
    }
    let retailer = word_at(wall, row, RETAILER_WORD);
    if !is_retailer(retailer) {
        return None;
    }
    Some(Sale {
        retailer,
        phase,
        total: word_at(wall, row, TOTAL_WORD),
        amount: amount_at(wall, row, phase),
    })
}

/// What a row shows.
pub(crate) fn shown_at(wall: &Wall, row: u32) -> Shown
    requires settled { IsSettled wall.now }
    requires row { row < wall.now.layout.rows }
    ensures generation { result.generation ≡ generation_at (state_on wall.now) row }
    ensures sale { result.sale ≡ sale_in (state_on wall.now) row }
{
    let Some((phase, generation)) = read_row_word(word_at(wall, row, STANDING_WORD)) else {
        unreachable!()
    };
    Shown {
        generation,
        sale: sale_at(wall, row, phase),
    }
}
