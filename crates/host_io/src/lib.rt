//! What only a serving host needs of this machine: a port, and when it is time to sweep.
//!
//! `TcpPort` stands before a port, whose answers an `Outbox` holds back, and `SleepTicker` before the machine's clock.
//! `asked_of` reads from the words of `serve` what `main` itself does by them: the address and the operator's window.
//!
//! It is a crate of its own since `TcpPort`, its streams and `SleepTicker` are the edge of the proof: what the system
//! does is trusted there. What single answers mean is proved. What is done then is proved as far as the clauses of
//! `Talk`, `Port` and `FileJournal` go, and but for the lines that docs/proved.md lists.
#![tactic(auto)]

mod address;
mod asked;
mod bell;
mod callers;
mod door;
mod file_answers;
mod halves;
mod journal;
mod journal_files;
mod keeper;
mod kept_line;
mod line;
mod memory_files;
mod naps;
mod noting;
mod opened;
mod outbox;
mod pace;
mod refusals;
mod shared;
mod slot;
mod socket;
mod system_files;
mod system_watch;
mod talk;
mod tcp_door;
mod tcp_port;
mod tcp_wire;
mod ticker;
mod watch;
mod window;
mod wire;

pub use asked::{Asked, asked_of};
pub use bell::TcpBell;
pub use door::Door;
pub use halves::SocketReader;
pub use journal::FileJournal;
pub use journal_files::JournalFiles;
pub use keeper::NoKeeper;
pub use memory_files::MemoryFiles;
pub use naps::Naps;
pub use outbox::Outbox;
pub use refusals::{AfterRefusal, after_refusal};
pub use shared::Shared;
pub use slot::{OwnSlot, Slot};
pub use socket::SocketSink;
pub use system_files::SystemFiles;
pub use system_watch::SystemWatch;
pub use talk::Talk;
pub use tcp_door::{TcpDoor, make_ready};
pub use tcp_port::{Port, TcpPort};
pub use tcp_wire::TcpWire;
pub use ticker::SleepTicker;
pub use watch::Watch;
pub use window::{UntilOver, Window, counters_of, window_port};
pub use wire::Wire;
