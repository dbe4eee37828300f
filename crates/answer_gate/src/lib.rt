//! The gate that commands go through which change bookings, and the count of the cuts of a journal: which were taken,
//! which are kept, and which of them an answer has to wait for.
//!
//! A command that may change bookings *enters* the gate and *leaves* it with its answer made. For a cut the gate
//! closes, so that nobody enters. Once nobody is inside, the rows that changed are looked at, and then the gate opens.
//! Whoever leaves is told the number of a cut, and the answer may go out once that cut is kept.
//!
//! One member, the committer, takes the cuts and has them kept: `next_cut`, `taken`, `keep`, or `lose` where the
//! journal fails. It sleeps while nobody waits for a cut, so that one cut serves all answers that one read gave. Nobody
//! has the lock while rows are looked at or a device works.
//!
//! The value under the gate's lock has facts that each call keeps: nobody is inside in the phase in which rows are
//! looked at, and no cut is kept that wasn't taken. What a call does to that value is said by the clauses of `State`.
//! Where `wait_kept` finds a cut kept, that one or a later one has what its receipt means; of cut 0 nothing is shown.
//!
//! No clause of a `Gate` can say what a call did to the value under its lock. That its calls make just those of
//! `State`, and that whoever sleeps here is woken, is read and tested. What follows of such calls, in whatever order,
//! `host_journal` says, with its premises. Nothing changes while a cut is taken. And where the cut that an answer waits
//! for is kept, the journal has a cut whose looks began after all that the answer tells, but for looks.
#![tactic(auto)]

mod clock;
mod crossing;
mod cuts;
mod gate;
mod keeper;
mod receipt;
mod state;
mod tally;

pub use clock::GatedClock;
pub use crossing::crosses;
pub use cuts::Cuts;
pub use gate::Gate;
pub use keeper::GateKeeper;
pub use receipt::Receipt;
pub use state::{Closed, Cut, Inside, Taken};
