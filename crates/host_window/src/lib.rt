//! The operator's window: a port that says whether the host is well, and what it has done.
//!
//! The devices here stand before those of the host, and tell what these tell: `CountingSource` and `CountingSink` count
//! bytes and answers, `CountingTicker` sweeps, and `CountingJournal` what is kept. `CountingClock` is the system's
//! clock, and counts requests and times. They are to raise the numbers of `Counters`, which all threads share and which
//! are added up where they are asked for. What these shared numbers are, no clause says.
//!
//! `show_all` serves each caller that it is handed, once and in order, until there will be none any more, the server is
//! over, or 2^64 - 1 were served (`ServesAll`). `Pages` serve one by `show_pages`: where its source and sink tell their
//! bytes, each request that is taken is answered once, in order, up to a write fault, by its method and path. The
//! answer says how some host does, has some numbers, or is 404, 405 or 500. Or there is no memory, and nothing is taken
//! or written. `window_page` writes the counts for Prometheus, in its text format of version 0.0.4. Its contract says
//! every byte: `specs/Texts` has the form of a family of numbers, `specs/Metrics` the families, and `specs/Routes`
//! those of routes.
//!
//! What is in the books a member of the host looks up, where the window asks for it by `Findings`, by which sweeps also
//! tell what they found. `specs/Finds` has their families.
//!
//! `count_session` is a session into an empty sink in memory, whose answers follow from their number alone and whose
//! counts stand in memory too. Each answer of which a byte was taken is counted once, while its count is below 2^64 -
//! 1, by its status, of which 15 have a count of their own. `count_replies` is such a session for any list of replies.
//! Its counts add up to the answers of which a byte was taken, while that is a number of 64 bits (`AddUp`, by
//! `counts_add_up`).
//!
//! The crate knows no booking and no host: it takes nothing but numbers.
#![tactic(auto)]

mod callers;
mod clock;
mod counters;
mod counts;
mod crossing;
mod family;
mod findings;
mod finds_texts;
mod found;
mod heads;
mod journal;
mod labels;
mod listed;
mod metrics;
mod noted;
mod pages;
mod readings;
mod reply;
mod route_texts;
mod routes;
mod run;
mod sink;
mod source;
mod tallies;
mod ticker;
mod turn;
mod words;

pub use callers::{Callers, Server, show_all, show_pages};
pub use clock::CountingClock;
pub use counters::{Counters, Health, StreamCounts};
pub use crossing::crosses;
pub use findings::Findings;
pub use found::{Finds, Found};
pub use journal::CountingJournal;
pub use listed::Reply;
pub use pages::Pages;
pub use routes::RouteCounts;
pub use run::{count_replies, counts_add_up};
pub use sink::CountingSink;
pub use source::CountingSource;
pub use ticker::CountingTicker;
