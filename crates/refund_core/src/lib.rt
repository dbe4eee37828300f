//! Releasing a prebooked booking, and refunding a confirmed one by a quote.
//!
//! A release and a refund look at the row, decide by one exchange on the row's phase, and where they won it give every
//! item back before they answer. A quote only looks. It spells all that it rests on, so nothing is kept of it.
//!
//! No call takes memory, and none waits: none is given anything to do it with.
//!
//! A refund is refused by the first that holds: the quote's age, an unknown booking, a wrong amount, a wrong phase. A
//! release has at most 105 entries, a refund at most 159.
#![tactic(auto)]

mod quotes;
mod quoting;
mod refunding;
mod releasing;

pub use quotes::{find_booking, is_collected, is_named, is_stale, phase_named, refund_at};
pub use quoting::{Quoted, quote_refund};
pub use refunding::{Refunded, accept_refund};
pub use releasing::{Released, release};
