//! Many connections: members that take streams in turn from a listener behind a lock, and serve each at a desk of their
//! own.
//!
//! A serving member's turn takes the next stream, and adds to its desk the entries of that one connection. One further
//! member sweeps the rows at each tick but maybe the last. `run_serve` starts them, waits for them, joins their desks
//! and closes the books, which may open with the bookings of an export, and of which it may write one. It hands back
//! the wall. In its history each member's entries are just those of the connections that it served, one after the
//! other, or of its sweeps. The first desk, which joined them, has done nothing else.
//!
//! `serve_kept` does so with a journal: the books open with the bookings that it leaves, and one member more, the
//! committer of `host_journal`, has what it looked at kept there. Another one that only looks is the `Looker`, which
//! counts rows and places for the operator's window. Of both, clauses say that their desks only look.
//!
//! That the lock is held only while a stream is taken, and that connections are served side by side, is read and
//! tested.
//!
//! It is a crate of its own since here alone threads meet the service.
#![tactic(auto)]

mod books;
mod crew;
mod devices;
mod draining;
mod export;
mod given;
mod kept;
mod letting;
mod listening;
mod looker;
mod mark;
mod member;
mod run;
mod serving;
mod shared_listener;
mod stream;
mod streams;
mod sweeping;
mod until;

pub use devices::{CLOCKS, Devices};
pub use kept::serve_kept;
pub use looker::Looker;
pub use mark::{Mark, Over};
pub use member::{Common, Post};
pub use run::run_serve;
pub use serving::Server;
pub use shared_listener::{Ended, ListenerEnd, Named, SharedListener};
pub use streams::{Door, Streams};
pub use sweeping::Sweeper;
pub use until::Until;
