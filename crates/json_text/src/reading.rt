//! From bytes to a value, in one pass over the tokens.
ghost use Rattle.std.specs.Prelude.{◌≡◌, ◌<◌, [], length, Some, None, Err, IfOk, OnOk, IsUtf8};
ghost use Rattle.json.specs.Json.{value, items, members};
ghost use Rattle.serde_json.specs.Data.{no_members};
ghost use Rattle.serde_json.specs.Read.{of_json, of_items, of_members, converted, read as read_text};
ghost use Rattle.json_text.specs.View.{view, items_view, members_view};

use crate::fault::ReadFault;
use crate::number::Number;
use crate::value::Value;
use json::{Reader, Scratch, Token};
use std::alloc::{AllocError, Global};

pub(crate) const MAX_DEPTH: usize = 127;

/// How many members the outermost object has room for at first.
pub(crate) const OUTERMOST: usize = 8;

/// The value that the bytes are. `scratch` is room for the texts with escapes; one that is kept from reading to reading
/// saves its making.
pub fn read_value<'a>(
    alloc: Global,
    bytes: &'a [u8],
    scratch: &'a mut Scratch,
) -> Result<Value<'a>, ReadFault>
    ensures ok { IfOk result (λ v. IsUtf8 bytes.now × (read_text bytes.now ≡ Some (view v))) }
    ensures err { result ≡ Err ReadFault.NotJson → IsUtf8 bytes.now → read_text bytes.now ≡ None }
{
    match simdutf8::basic::from_utf8(bytes) {
        Ok(text) => read_all(alloc, text, scratch),
        Err(_) => Err(ReadFault::NotJson),
    }
}

pub(crate) fn read_all<'a>(
    alloc: Global,
    text: &'a str,
    scratch: &'a mut Scratch,
) -> Result<Value<'a>, ReadFault>
    ensures ok { IfOk result (λ v. read_text text.now ≡ Some (view v)) }
    ensures err { result ≡ Err ReadFault.NotJson → read_text text.now ≡ None }
{
    let mut reader = Reader::new(text, scratch)?;
    let value = read(alloc, &mut reader, MAX_DEPTH)?;
    if reader.next().is_some() {
        return Err(ReadFault::NotJson);
    }
    Ok(value)
}

#[cycle(read)]
pub(crate) fn read<'a>(
    alloc: Global,
    reader: &mut Reader<'a>,
    depth: usize,
) -> Result<Value<'a>, ReadFault>
    ensures ok { IfOk result (λ v. converted of_json (value depth reader.old) ≡ Some (view v, reader.new)) }
    ensures shorter { OnOk result (length reader.new < length reader.old) }
    ensures err { result ≡ Err ReadFault.NotJson → converted of_json (value depth reader.old) ≡ None }
{
    let token = reader.next().ok_or(ReadFault::NotJson)?;
    match token {
        Token::String(text) => Ok(Value::Text(text)),
        Token::Number(text) => match Number::parse(text) {
            Some(number) => Ok(Value::Number(number)),
            None => Err(ReadFault::NotJson),
        },
        Token::Bool(b) => Ok(Value::Bool(b)),
        Token::Null => Ok(Value::Null),
        Token::EndObject | Token::EndArray | Token::Key(_) | Token::Bad => Err(ReadFault::NotJson),
        Token::BeginArray => {
            if depth == 0 {
                return Err(ReadFault::NotJson);
            }
            Ok(Value::Array(read_items(alloc, reader, depth - 1)?))
        }
        Token::BeginObject => {
            if depth == 0 {
                return Err(ReadFault::NotJson);
            }
            Ok(Value::Object(read_members(alloc, reader, depth - 1)?))
        }
    }
}

#[cycle(read)]
fn read_items<'a>(
    alloc: Global,
    reader: &mut Reader<'a>,
    depth: usize,
) -> Result<Vec<Value<'a>>, ReadFault>
    ensures ok { IfOk result
        (λ v. converted of_items (items (value depth) (length reader.old) reader.old)
        ≡ Some (items_view v.items, reader.new)) }
    ensures shorter { OnOk result (length reader.new < length reader.old) }
    ensures err { result ≡ Err ReadFault.NotJson
        → converted of_items (items (value depth) (length reader.old) reader.old) ≡ None }
{
    let mut found = Vec::new(alloc);
    'items: while !reader.take_end_array() {
        let item = read(alloc, reader, depth)?;
        found.push(item)?;
    }
    found.shrink_to_fit();
    Ok(found)
}

// A list for the members at this depth. There is one outermost object, so what room it doesn't need is little.
fn new_members<'a>(alloc: Global, depth: usize) -> Result<Vec<(&'a str, Value<'a>)>, AllocError>
    ensures items { IfOk result (λ m. m.items ≡ []) }
{
    if depth == MAX_DEPTH - 1 {
        return Vec::with_capacity(alloc, OUTERMOST);
    }
    Ok(Vec::new(alloc))
}

// The members, without room that they don't need where there may be many such lists.
fn fitted<'a>(mut members: Vec<(&'a str, Value<'a>)>, depth: usize) -> Vec<(&'a str, Value<'a>)>
    ensures items { result.items ≡ members.entry.items }
{
    if depth != MAX_DEPTH - 1 {
        members.shrink_to_fit();
    }
    members
}

#[cycle(read)]
fn read_members<'a>(
    alloc: Global,
    reader: &mut Reader<'a>,
    depth: usize,
) -> Result<Vec<(&'a str, Value<'a>)>, ReadFault>
    ensures ok { IfOk result
        (λ m. converted (λ ms. of_members ms no_members) (members (value depth) (length reader.old) reader.old)
        ≡ Some (members_view m.items, reader.new)) }
    ensures shorter { OnOk result (length reader.new < length reader.old) }
    ensures err { result ≡ Err ReadFault.NotJson
        → converted (λ ms. of_members ms no_members)
        (members (value depth) (length reader.old) reader.old) ≡ None }
{
    let mut found = new_members(alloc, depth)?;
    'members: while let Some(name) = reader.next_key()? {
        let member = read(alloc, reader, depth)?;
        found.push((name, member))?;
    }
    Ok(fitted(found, depth))
}
