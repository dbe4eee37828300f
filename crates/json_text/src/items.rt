//! A list that is read item by item.
ghost use Rattle.std.specs.Prelude.{◌≡◌, ◌≤◌, ◌+◌, Some, None, Err, IfOk, IfSome, OnOk, MatchOption, MatchResult, IsUtf8, length, option_and_then, option_map};
ghost use Rattle.serde_json.specs.Data.{no_items, item};
ghost use Rattle.serde_json.specs.Events.{items_len};
ghost use Rattle.json_text.specs.View.{view};
ghost use Rattle.json_text.specs.Outlines.{list_tokens, member_at};
ghost use Rattle.json_text.specs.Ahead.{ahead, IsListOf};

use crate::fault::ReadFault;
use crate::passing::pass_so_many;
use crate::reading::{MAX_DEPTH, read};
use crate::value::Value;
use json::{Invalid, Reader, Scratch, Token};
use std::alloc::{AllocError, Global};

/// The items of a list that are still to come, of which only the one that is read is in memory.
#[derive(Drop)]
pub struct Items<'a> {
    reader: Reader<'a>,
}

impl<'a> Items<'a> {
    /// The next item, or `None` at the list's end.
    ///
    /// It is to look at this item only. Of a list that is no JSON further on, some values may be handed out, of which
    /// nothing is said; then comes an error, and never `None`. What stands after the list isn't looked at. After `None`
    /// or an error nothing is said of what a further call answers: it may be a value from after the end, or from after
    /// the fault.
    pub fn next(&mut self, alloc: Global) -> Result<Option<Value<'a>>, ReadFault>
        ensures ok { IfOk result (λ v. MatchOption v (ahead self.old ≡ Some no_items)
            (λ v. ahead self.old ≡ option_map (item (view v)) (ahead self.new))) }
        ensures err { result ≡ Err ReadFault.NotJson → ahead self.old ≡ None }
    {
        if self.reader.take_end_array() {
            return Ok(None);
        }
        Ok(Some(read(alloc, &mut self.reader, MAX_DEPTH - 2)?))
    }
}

/// The items of the list that stands at this place among the members of the outermost object; `None` where another
/// value stands there. Of bytes that aren't UTF-8 no clause speaks. After the bracket that opens the list nothing is
/// looked at, so the text needn't be JSON. In a text that is none, what stands after the object's closing brace may
/// pass for one more member.
pub fn items_at<'a>(
    bytes: &'a [u8],
    scratch: &'a mut Scratch,
    place: usize,
) -> Result<Option<Items<'a>>, AllocError>
    ensures items { IfOk result
        (λ l. IsUtf8 bytes.now → IsListOf (member_at place bytes.now) l) }
    ensures few { IfOk result
        (λ l. IfSome (option_and_then ahead l) (λ ds. items_len ds ≤ 9_223_372_036_854_775_807)) }
{
    let Ok(text) = simdutf8::basic::from_utf8(bytes) else {
        return Ok(None);
    };
    let mut reader = Reader::new(text, scratch)?;
    match open_list(&mut reader, place) {
        Ok(()) => Ok(Some(Items { reader })),
        Err(_) => Ok(None),
    }
}

// Goes up to the first item of the list at this place.
fn open_list(reader: &mut Reader<'_>, place: usize) -> Result<(), Invalid>
    ensures value { MatchResult result (λ _. list_tokens place reader.old ≡ Some reader.new)
        (λ _. list_tokens place reader.old ≡ None) }
    ensures shorter { OnOk result (length reader.new + 2 ≤ length reader.old) }
{
    let Some(Token::BeginObject) = reader.next() else {
        return Err(Invalid);
    };
    pass_so_many(reader, MAX_DEPTH - 1, place)?;
    let _key = reader.next_key()?;
    let Some(Token::BeginArray) = reader.next() else {
        return Err(Invalid);
    };
    Ok(())
}
