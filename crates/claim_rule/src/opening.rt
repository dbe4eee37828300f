//! The bookings at the beginning, which only contracts read: a proof chooses them. They take no bytes.
ghost use Rattle.std.specs.Prelude.{IfOk};
ghost use Rattle.history_model.specs.Booking.{State};

use atomic_table::{Mark, PerchPlay, PerchRule, RuledPerch, Seat, Table, TableRule};
use history_model::booking::BookingRow;
use std::alloc::{AllocError, Global};
use std::collections::LinkedList;
use std::marker::{Brand, PhantomData};

/// A state that a proof chooses. No list of bookings is made.
pub(crate) type Opening = Mark<LinkedList<BookingRow>>;

pub(crate) struct AnyState;

impl PerchRule<LinkedList<BookingRow>> for AnyState {
    ghost use Rattle.std.specs.Prelude.{[]};

    ghost holds = { λ _ _. Unit {0} };

    ghost first = { [] };
}

/// What is to be so of the state.
pub(crate) trait Opens {
    ghost use Rattle.history_model.specs.Booking.{State};

    ghost opens: { State → Type 0 };
}

impl Opens for Brand {
    ghost opens = { λ _. Unit {0} };
}

pub(crate) struct Chooses<N> {
    opens: PhantomData<N>,
}

impl<N: Opens> PerchPlay<LinkedList<BookingRow>> for Chooses<N> {
    ghost then = { λ _ _ v n w. N.opens w };
}

pub(crate) struct NoRule;

impl TableRule<u64, u64, u64> for NoRule {
    ghost holds = { λ _ _. Unit {0} };

    ghost first = { λ _. 0 };
}

// A table without words has the one seat on whose perch the state is chosen.
type NoWords = Table<u64, u64, u64, NoRule, Global>;

type Shelf = RuledPerch<u64, u64, LinkedList<BookingRow>, AnyState>;

// An opening state of which this is so. The proof of a call may name the legs, the rows and the words in it.
pub(crate) fn choose<N: Opens>(
    alloc: Global,
    _legs: &[u8],
    _rows: u32,
    _words: &[u64],
) -> Result<Opening, AllocError>
    requires some { (s : State) × N.opens s }
    ensures { IfOk result (λ mark. N.opens mark.view) }
{
    let (_table, seat): (NoWords, Seat<u64, u64>) = Table::of_words(alloc, [].as_slice(), &0)?;
    let (shelf, mut mark): (Shelf, Opening) = RuledPerch::new(&seat, 0);
    shelf.load::<Chooses<N>>(&mut mark);
    Ok(mark)
}
