ghost use Rattle.std.specs.Prelude.{◌≡◌, is_some, option_map, option_and_then, Some};
ghost use Rattle.serde_json.specs.Find.{as_bool, as_number, as_u64, as_str, as_array, as_object, get, get_member};
ghost use Rattle.json_text.specs.View.{view, items_view, members_view};

use crate::number::Number;

/// A JSON value. Its texts stand in the text that was read, or in the scratch that was lent to the reading.
#[derive(Drop)]
pub enum Value<'a> {
    Null,
    Bool(bool),
    Number(Number),
    Text(&'a str),
    Array(Vec<Value<'a>>),
    /// The members in the order of the text.
    Object(Vec<(&'a str, Value<'a>)>),
}

impl<'a> Value<'a> {
    /// Whether it is an object.
    pub fn is_object(&self) -> bool
        ensures { result ≡ is_some (as_object (view self.now)) }
    {
        matches!(self, Value::Object(_))
    }

    /// The items of an array.
    pub fn as_array(&self) -> Option<&[Value<'a>]>
        ensures { option_map (λ v. items_view v.now) result ≡ as_array (view self.now) }
    {
        if let Value::Array(items) = self {
            Some(items.as_slice())
        } else {
            None
        }
    }

    /// A text.
    pub fn as_str(&self) -> Option<&'a str>
        ensures { option_map (λ s. s.now) result ≡ as_str (view self.now) }
    {
        if let Value::Text(text) = self {
            Some(*text)
        } else {
            None
        }
    }

    /// A whole number below 2^64, written without fraction and exponent.
    pub fn as_u64(&self) -> Option<u64>
        ensures { result ≡ option_and_then as_u64 (as_number (view self.now)) }
    {
        if let Value::Number(Number::Whole(number)) = self {
            Some(*number)
        } else {
            None
        }
    }

    /// True or false.
    pub fn as_bool(&self) -> Option<bool>
        ensures { result ≡ as_bool (view self.now) }
    {
        if let Value::Bool(b) = self {
            Some(*b)
        } else {
            None
        }
    }

    /// The member of that name of an object; the last of those that have it.
    pub fn get(&self, name: &str) -> Option<&Value<'a>>
        ensures { option_map (λ v. view v.now) result ≡ get name.now (view self.now) }
    {
        if let Value::Object(members) = self {
            find(members, name)
        } else {
            None
        }
    }
}

fn find<'v, 'a>(members: &'v [(&'a str, Value<'a>)], name: &str) -> Option<&'v Value<'a>>
    ensures { option_map (λ v. view v.now) result ≡ get_member name.now (members_view members.now) }
{
    let mut left = members.len();
    while left > 0 {
        left -= 1;
        let member = &members[left];
        if member.0 == name {
            return Some(&member.1);
        }
    }
    None
}
