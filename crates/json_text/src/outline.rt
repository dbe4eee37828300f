//! A text without one member of its outermost object.
ghost use Rattle.std.specs.Prelude.{◌≡◌, ◌<◌, ◌^◌, None, Err, IfOk, IsUtf8, is_some, true, length};
ghost use Rattle.serde_json.specs.Read.{read as read_text};
ghost use Rattle.json.specs.Lex.{tokens};
ghost use Rattle.json_text.specs.View.{view};
ghost use Rattle.json_text.specs.Outlines.{IsOutline, IsOutlineOf, after_brace, members_of};

use crate::fault::ReadFault;
use crate::passing::pass;
use crate::reading::{MAX_DEPTH, OUTERMOST, read, read_all};
use crate::value::Value;
use json::{Reader, Scratch, Token};
use std::alloc::{AllocError, Global};

/// What a text is, without the members of one name of its outermost object.
#[derive(Drop)]
pub struct Outline<'a> {
    /// The value without them, where it is an object.
    pub kept: Value<'a>,
    /// How many members stand before one that has the value of the last of that name, if it is there.
    pub place: Option<usize>,
}

/// The outline of the bytes without the members of the name, which are passed over. They must be JSON too.
pub fn read_outline<'a>(
    alloc: Global,
    bytes: &'a [u8],
    scratch: &'a mut Scratch,
    name: &str,
) -> Result<Outline<'a>, ReadFault>
    ensures ok { IfOk result (λ o. IsUtf8 bytes.now × IsOutline name.now bytes.now (view o.kept) o.place) }
    ensures err { result ≡ Err ReadFault.NotJson → IsUtf8 bytes.now → read_text bytes.now ≡ None }
{
    let Ok(text) = simdutf8::basic::from_utf8(bytes) else {
        return Err(ReadFault::NotJson);
    };
    if opens_object(text, scratch)? {
        outline_of_object(alloc, text, scratch, name)
    } else {
        Ok(Outline {
            kept: read_all(alloc, text, scratch)?,
            place: None,
        })
    }
}

// Whether the text begins as an object.
fn opens_object(text: &str, scratch: &mut Scratch) -> Result<bool, AllocError>
    ensures { IfOk result (λ b. b ≡ is_some (after_brace (tokens text.now))) }
{
    let mut reader = Reader::new(text, scratch)?;
    Ok(matches!(reader.next(), Some(Token::BeginObject)))
}

fn outline_of_object<'a>(
    alloc: Global,
    text: &'a str,
    scratch: &'a mut Scratch,
    name: &str,
) -> Result<Outline<'a>, ReadFault>
    requires { is_some (after_brace (tokens text.now)) ≡ true }
    ensures ok { IfOk result (λ o. IsOutline name.now text.now (view o.kept) o.place) }
    ensures err { result ≡ Err ReadFault.NotJson → read_text text.now ≡ None }
{
    let mut reader = Reader::new(text, scratch)?;
    let _brace = reader.next();
    let outline = outline_of_members(alloc, &mut reader, name)?;
    if reader.next().is_some() {
        return Err(ReadFault::NotJson);
    }
    Ok(outline)
}

fn outline_of_members<'a>(
    alloc: Global,
    reader: &mut Reader<'a>,
    name: &str,
) -> Result<Outline<'a>, ReadFault>
    requires { length reader.old < 2 ^ 64 }
    ensures ok { IfOk result (λ o. IsOutlineOf name.now reader.old (view o.kept) o.place reader.new) }
    ensures err { result ≡ Err ReadFault.NotJson → members_of reader.old ≡ None }
{
    let mut kept = Vec::with_capacity(alloc, OUTERMOST)?;
    let mut place = None;
    let mut count = 0;
    'members: while let Some(key) = reader.next_key()? {
        let at = count;
        count += 1;
        if key == name {
            pass(reader, MAX_DEPTH - 1)?;
            place = Some(at);
            continue;
        }
        let member = read(alloc, reader, MAX_DEPTH - 1)?;
        kept.push((key, member))?;
    }
    Ok(Outline {
        kept: Value::Object(kept),
        place,
    })
}
