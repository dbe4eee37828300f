//! Replies that are no problem, as they are told: a status, and a text with its length. What takes memory is written
//! before the reply is decided on, so that lack of memory can still be answered in its stead. What a sweep did takes
//! none, and is written where it is told.
ghost use Rattle.std.specs.Prelude.{◌≡◌, Ok, IfSome};
ghost use Rattle.serde_json.specs.Written.{compact_text};
ghost use Rattle.history_model.specs.declared.phase.Phase.TheVariants as phase;
ghost use Rattle.osdm_texts.specs.Replies.{tree_of as written_tree, CanBeWritten};
ghost use Rattle.osdm_texts.specs.Sweeps.{swept_tree};
ghost use Rattle.osdm_texts.specs.Answers.{status_told, telling, told_of, created, reply_told};
ghost use Rattle.osdm_parts.specs.Ids.{HasId};
ghost use Rattle.osdm_texts.specs.Seen.{made_view};

use crate::bookings::Shown;
use crate::reply::{Reply, reply_text, shown_text};
use crate::swept::swept_text;
use booking_rows::{Detail, Swept};
use catalogue_contents::Catalogue;
use history_model::phase::Phase;
use leg_masks::Item;
use rail_ids::RowNo;
use std::alloc::Global;

/// The status (RFC 9110) of a reply that is no problem.
#[derive(Clone, Copy, PartialEq, Eq)]
pub enum Success {
    /// 200 OK.
    Done,
    /// 201 Created.
    Created,
}

impl Success {
    /// The number of the status: 200 or 201.
    pub fn status(self) -> u16
        ensures { result ≡ status_told self }
    {
        match self {
            Success::Done => 200,
            Success::Created => 201,
        }
    }
}

/// A JSON text (RFC 8259).
#[derive(Drop)]
pub enum Text {
    /// That of a sweep's counts (`swept_text`), which is written where it is told, since that takes no memory.
    Counts(Swept),
    /// Any number of bytes.
    Large(Vec<u8>),
}

/// A reply that is no problem, as it is told: its status and its text, whose length fits a head's `Content-Length`.
#[derive(Drop)]
pub struct Written {
    pub success: Success,
    pub length: u32,
    pub text: Text,
}

/// Writes a reply that is told with this status. `None` where there is no memory for its text, or where its length
/// doesn't fit a head.
///
/// The reply is one that `reply_text` can write.
pub fn write_reply(
    alloc: Global,
    cat: &Catalogue,
    success: Success,
    reply: &Reply<'_>,
) -> Option<Written>
    requires writable { CanBeWritten cat.now reply.now }
    ensures told { IfSome result (λ written. told_of (Ok written)
        ≡ telling (status_told success) (compact_text (written_tree cat.now reply.now))) }
{
    written_of(success, reply_text(alloc, cat, reply).ok()?)
}

/// Writes the answer to a new booking that is to be sealed as prebooked with this detail and these items. `None` where
/// there is no memory for its text, or where its length doesn't fit a head.
///
/// The row has an id. No view of the booking is made, since one is large to copy.
pub fn write_prebooked(
    alloc: Global,
    cat: &Catalogue,
    row: RowNo,
    detail: &Detail,
    items: &[Item],
) -> Option<Written>
    requires id { HasId row }
    ensures told { IfSome result (λ written. told_of (Ok written)
        ≡ reply_told cat.now (created row (made_view phase.Prebooked detail.now items.now))) }
{
    let shown = Shown {
        phase: Phase::Prebooked,
        limit: detail.limit,
        total: detail.total,
        items,
        ended: None,
    };
    written_of(Success::Created, shown_text(alloc, cat, row, &shown).ok()?)
}

// A text as it is told, where its length fits a head.
fn written_of(success: Success, text: Vec<u8>) -> Option<Written>
    ensures told { IfSome result (λ written. told_of (Ok written) ≡ telling (status_told success) text.items) }
{
    let length = u32::try_from(text.len()).ok()?;
    Some(Written {
        success,
        length,
        text: Text::Large(text),
    })
}

/// Writes what a sweep did. No memory is taken.
pub fn write_swept(swept: Swept) -> Written
    ensures told { told_of (Ok result) ≡ telling 200 (compact_text (swept_tree swept)) }
{
    Written {
        success: Success::Done,
        length: swept_text(swept).len() as u32,
        text: Text::Counts(swept),
    }
}
