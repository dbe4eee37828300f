//! The commands of the program: their names, and what their words say.
//!
//! `tiny LEGS PLACES`, `settle CATALOGUE EXPORT` and `recover CATALOGUE JOURNAL` are read by hand. `replay CATALOGUE
//! --start MOMENT --tick N --from EXPORT`, `export` with the same words, `drill --seed N --workers N --size N --places
//! N` and `serve CATALOGUE --port N --workers N --connections N --sweep N --from EXPORT --journal JOURNAL --export
//! --window N --address A` are each read as a simple command by `clap`. Their contract is `clap`'s stated reading: the
//! values are exactly those that it gives. The words are refused exactly where it refuses them for another cause than
//! memory, where a number is out of its range, or where the text of a moment is none. `read_address` refuses a text
//! that is no address. A wish for help or for a version is refused as well.
//!
//! It is a crate of its own, since every command and the program above them ask it which words are meant.
#![tactic(auto)]

mod address;
mod command;
mod drill;
mod fault;
mod options;
mod recover;
mod replay;
mod serve;
mod settle;
mod tiny;
mod window;

pub use address::read_address;
pub use command::{CommandName, command_of, is_for};
pub use drill::{DrillWords, read_drill};
pub use fault::WordsFault;
pub use recover::{RecoverWords, read_recover};
pub use replay::{ReplayWords, read_export, read_replay};
pub use serve::{ServeWords, Serving, read_serve};
pub use settle::{SettleWords, read_settle};
pub use tiny::{TinyWords, read_tiny};
pub use window::{WindowWords, read_window};
