//! Confirming a booking before its limit, and collecting its ticket; and what all calls that decide a booking's fate
//! share: looks at the phase and at other words of its row, and a turn to an end with all that follows it.
//!
//! Each call looks at the row, and then decides by one exchange on the row's phase: of all turns from one phase, by
//! whatever desks, the first decides. Every refusal has its cause in what this call's looks, or its lost turn, showed.
//!
//! No call takes memory, and none waits: none is given anything to do it with.
//!
//! A confirmation and a collection add at most six entries.
//!
//! Which look at a booking to use: `find_owned` where only its phase and its retailer matter (three looks), and
//! `find_terms` where its limit does too. `find_booking` of `refund_core` is for where the whole booking is shown or
//! priced (at most 57 looks). Each looks at word 0 again at the end, so none answers of a row that was given away
//! meanwhile.
#![tactic(auto)]

mod confirming;
mod ends;
mod fulfilling;
mod looks;

pub use confirming::{Confirmed, confirm};
pub use ends::{end_row, finish_end};
pub use fulfilling::{Fulfilment, fulfil};
pub use looks::{find_owned, is_sealed, look_phase, look_word};
