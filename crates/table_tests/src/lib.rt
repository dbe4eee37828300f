//! Tests of the table of words and of bookings by public calls, and of the gate that answers of a host with a journal
//! wait at: what no run of the program can show. They stand in a crate of their own, so that the crates that they test
//! are proved once, without tests.
//!
//! - `entries`: the machine's steps on a plain list of bookings (`ListHost`). Each kind of step once allowed and, but
//!   for a meeting, once refused, in five tables of entries, and the words of places after each. The words of phases,
//!   rows, items, successors and amounts, and the masks of spans stand in these tables as numbers.
//! - `lines`: the columns of a line. A table is a text, since a table of values is proved value by value, and a text
//!   isn't.
//! - `rows`, `given_away`: what takes two desks: both at one place, one that is told what the other has seen, a row that
//!   the other gives away. A hold's places, a booking's life, quotes and looks are cases of the built program
//!   (`tests/cases`).
//! - `left`: the fault of an export after a desk was given up in the middle, which no command does. What else an export
//!   has, and each fault of one that is read, is shown by the program (`tests/cases`, `tests/model/exports.py`).
//! - `lives`: a thousand bookings that are confirmed and swept at the same time.
//! - `gate`: servers and a committer at the gate. Journals and their lines are shown by the program (`recover-*` of
//!   `tests/cases`, `tests/journal`).
#![tactic(auto)]

#[cfg(test)]
mod entries;
#[cfg(test)]
mod gate;
#[cfg(test)]
mod given_away;
#[cfg(test)]
mod left;
#[cfg(test)]
mod lines;
#[cfg(test)]
mod lives;
#[cfg(test)]
mod rows;
