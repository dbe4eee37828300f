//! The table of places and rows, whose words are always those of one legal history.
//!
//! All desks step on one shared table. Whatever the threads do, there is one legal history of bookings such that the
//! words are those of its state, and each desk has seen a beginning of it in which all of its own entries stand. Each
//! `step_` call is one atomic operation, appends one entry, and leaves its own desk having seen all of the history up
//! to that entry. No history and no list of bookings is kept at run time: both are known to contracts alone.
//!
//! A row serves one booking after another, each with a generation of its own. Once its booking has ended, a row may be
//! started again with the next generation; it is never free again.
//!
//! Each row has a mark, which the steps set that change its standing word, and `take_marks` clears. Each 64 rows have
//! one of them all, which `take_marked_blocks` clears. So who writes down what changed need not look at all rows. No
//! contract speaks of marks: that each such step sets one is read and tested.
//!
//! No call takes memory but `start_books` and `adopt_books`, and none waits: no other is given anything to do it with.
//!
//! What contracts say of a desk (`specs/Desks`, `specs/Out`):
//! - `IsOf books desk`: it is of these books, has seen a legal history, and knows that every row below `past` is
//!   taken. Every call requires it and ensures it.
//! - `AddsSteps old new steps`: from one call to the next it has these steps more of its own, in one legal history
//!   that begins with what it had seen; where it is alone or complete there are no other entries between.
//! - `IsHolding`, `IsEnding`, `HoldsNone`, `EndsNone`, `IsIdle`, `IsTidy`: what is out at it. `KeepsHolds` and
//!   `KeepsEndings`: a call leaves that as it was.
//! - `HasNoted..`, `IsToBeSealed`, `SealsItems`: what is noted of a hold, all that a seal requires, and the booking
//!   that a seal leaves.
//!
//! `start_books` and `adopt_books` give the first desk; `part` gives another, which has seen what the first has seen;
//! `meet` joins an idle one; `finish` closes the table to a wall. `tell` gives what a desk has seen to one that learns
//! it: that stands before all that the other does from then on, and neither ends. `Hold::leave` and `Ending::leave` are
//! for a desk that is given up in the middle. The `step_` calls are for `seat_words` and `booking_rows`; `step_read` is
//! also for the crates that decide a booking's fate. `Books` may be shared by threads, and desks, holds, endings and
//! what was told may go to one (`crosses`).
//!
//! Lemmas for the crates above (`proofs`): `Shapes`, `Out`, `Reading` (a look shows the word of the state that the
//! desk has then seen), `OpeningKept` and `OpeningWords` (the bookings that books open with follow from the words).
#![tactic(auto)]

mod books;
mod chronicle;
mod crossing;
mod desk;
mod ending;
mod hold;
mod joins;
mod looks;
mod marks;
mod numbers;
mod opening;
mod order;
mod rule;
mod wall;

pub use books::{Books, adopt_books, start_books};
pub use crossing::crosses;
pub use desk::Desk;
pub use ending::{Ending, StepTurned, item_of};
pub use hold::{Hold, Started};
pub use order::Told;
pub use rule::{Plan, View};
pub use wall::Wall;
