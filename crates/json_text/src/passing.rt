//! Passing over a value: it is checked as `read` checks it, and nothing of it is kept.
ghost use Rattle.std.specs.Prelude.{◌≡◌, ◌<◌, ◌≤◌, length, Some, None, OnOk, MatchResult};
ghost use Rattle.json_text.specs.Outlines.{behind, behind_items, behind_members, behind_so_many};

use crate::number::Number;
use json::{Invalid, Reader, Token};

#[cycle(pass)]
pub(crate) fn pass(reader: &mut Reader<'_>, depth: usize) -> Result<(), Invalid>
    ensures value { MatchResult result (λ _. behind depth reader.old ≡ Some reader.new)
        (λ _. behind depth reader.old ≡ None) }
    ensures shorter { OnOk result (length reader.new < length reader.old) }
{
    let token = reader.next().ok_or(Invalid)?;
    match token {
        Token::String(_) | Token::Bool(_) | Token::Null => Ok(()),
        Token::Number(text) => match Number::parse(text) {
            Some(_) => Ok(()),
            None => Err(Invalid),
        },
        Token::EndObject | Token::EndArray | Token::Key(_) | Token::Bad => Err(Invalid),
        Token::BeginArray => {
            if depth == 0 {
                return Err(Invalid);
            }
            pass_items(reader, depth - 1)
        }
        Token::BeginObject => {
            if depth == 0 {
                return Err(Invalid);
            }
            pass_members(reader, depth - 1)
        }
    }
}

#[cycle(pass)]
fn pass_items(reader: &mut Reader<'_>, depth: usize) -> Result<(), Invalid>
    ensures value { MatchResult result (λ _. behind_items depth reader.old ≡ Some reader.new)
        (λ _. behind_items depth reader.old ≡ None) }
    ensures shorter { OnOk result (length reader.new < length reader.old) }
{
    'items: while !reader.take_end_array() {
        pass(reader, depth)?;
    }
    Ok(())
}

#[cycle(pass)]
fn pass_members(reader: &mut Reader<'_>, depth: usize) -> Result<(), Invalid>
    ensures value { MatchResult result (λ _. behind_members depth reader.old ≡ Some reader.new)
        (λ _. behind_members depth reader.old ≡ None) }
    ensures shorter { OnOk result (length reader.new < length reader.old) }
{
    'members: while let Some(_) = reader.next_key()? {
        pass(reader, depth)?;
    }
    Ok(())
}

/// Passes over that many members of an object, as they stand, without a look at their numbers.
pub(crate) fn pass_so_many(
    reader: &mut Reader<'_>,
    depth: usize,
    count: usize,
) -> Result<(), Invalid>
    ensures value { MatchResult result (λ _. behind_so_many depth count reader.old ≡ Some reader.new)
        (λ _. behind_so_many depth count reader.old ≡ None) }
    ensures no_longer { OnOk result (length reader.new ≤ length reader.old) }
{
    let mut left = count;
    while left > 0 {
        reader.next_key()?;
        reader.skip_value(depth)?;
        left -= 1;
    }
    Ok(())
}
