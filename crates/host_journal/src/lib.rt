//! The journal of `serve`: the books that it leaves at a start, and the member that has bookings kept in it.
//!
//! `open_journal` opens the books of a catalogue with the bookings that the journal leaves, and writes the journal
//! anew. `Log` knows the journal's text, and grows by cuts. `Committer` takes the cuts: it is to look at the rows that
//! were marked, and to have their lines kept. Of that a contract says that its desk looks, and that the lines kept are
//! those of some rows. It is one of the members that watch, whose desks only look, and whose trait is `Watcher`. How
//! serving ends, with a journal or without one, is a `KeptOutcome`.
//!
//! It is a crate of its own since nothing of it serves a connection.
//!
//! # What holds at each moment
//!
//! `laws` says what holds of a host that keeps a journal, at each of its moments. A *moment* has the one history of all
//! desks, how the gate stands, the cuts that were taken, and how far the journal has them. One moment follows another
//! where a desk makes an entry, where somebody makes a call at the gate, or where the journal is written. The gate's
//! calls are those of `State` (answer_gate), by the definitions of its clauses: under a lock they come one after
//! another, however many threads make them.
//!
//! These are premises of the laws:
//!
//! - A desk makes an entry that isn't a look only while somebody is inside of the gate. So say `begun` of `say_begun`
//!   (rail_service) and of `sweep_begun` (host_serve), as far as the `Inside` that the clock holds is this gate's,
//!   and as far as `serve` calls no `perform` or `sweep` besides. Both are read.
//! - A host begins with a fresh gate, and its journal has what its books opened with.
//! - Whoever leaves was inside: the call takes that `Inside`.
//! - An answer's cut is given after all that the answer tells was seen.
//! - The journal has each cut before the one that it has. A cut's looks begin once it is taken.
//! - Those who wait for a cut hear that it is kept once the journal has it: `keep` of `Cuts` takes a receipt, which
//!   only a log makes.
//!
//! Where to look for them in `specs/`: `Moments` (which moment follows another), `Ahead` (what stands before what),
//! `There` (what is there again).
#![tactic(auto)]

mod committing;
mod end;
mod keeping;
mod laws;
mod log;
mod looked;
mod opened;
mod watching;

pub use committing::Committer;
pub use end::{BooksOutcome, KeptOutcome, ServeEnd, ServeOutcome, command_end, kept_end};
pub use keeping::{KeepFault, Keeping, open_journal};
pub use laws::{
    answers_are_there_again, answers_follow_cuts, answers_may_be_kept, nothing_changes_meanwhile,
    other_calls_pass,
};
pub use log::{Head, Kept, Lines, Log};
pub use looked::Looked;
pub use opened::Opened;
pub use watching::{Either, Lookout, Watcher};
