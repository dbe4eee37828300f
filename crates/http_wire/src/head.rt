// Where a head ends, and the readers of its lines.
ghost use Rattle.std.specs.Prelude.{◌≡◌, ◌<◌, ◌≤◌, ◌+◌, ℕ, length, IfSome, IfNone, ◌==◌};
ghost use Rattle.std.specs.List.{position_or_len};
ghost use Rattle.httparse.specs.Spans.{IsWithin};
ghost use Rattle.http_wire.specs.Named.{with_value, IsNamedWithin};
ghost use Rattle.http_wire.specs.HeadLines.{same_name, IsNumeral};

use httparse::spans::Span;

/// The most bytes of a head.
pub const HEAD_ROOM: usize = 16_384;

/// The most lines after the request line.
pub const HEAD_LINES: usize = 64;

/// What the named header lines hold.
#[derive(Clone, Copy)]
pub enum Named {
    None,
    First(Span),
    Several(Span),
}

impl Named {
    /// With one more value.
    pub fn with(self, value: Span) -> Named
        ensures value { result ≡ with_value self value }
        ensures within { (n : ℕ) → IsNamedWithin n self → IsWithin n value → IsNamedWithin n result }
    {
        match self {
            Named::None => Named::First(value),
            Named::First(first) | Named::Several(first) => Named::Several(first),
        }
    }
}

/// Whether the names are the same, without regard to ASCII case. It stands apart, since it is called in many places.
#[inline(never)]
pub fn same_name(a: &[u8], b: &[u8]) -> bool
    ensures { result ≡ same_name a.now b.now }
{
    a.eq_ignore_ascii_case(b)
}

/// The number that 1 to 10 digits spell.
pub fn long_number(digits: &[u8]) -> Option<u64>
    ensures some { IfSome result (λ n. IsNumeral digits.now n) }
    ensures none { IfNone result ((n : ℕ) → IsNumeral digits.now n → ⊥) }
{
    if digits.is_empty() || digits.len() > 10 {
        return None;
    }
    let mut number: u64 = 0;
    for digit in digits {
        if !digit.is_ascii_digit() {
            return None;
        }
        number = number * 10 + u64::from(*digit - b'0');
    }
    Some(number)
}

/// How many bytes stand before the first question mark.
pub fn path_length(target: &[u8]) -> usize
    ensures place { result ≡ position_or_len (λ b. b == 63) target.now }
    ensures within { result ≤ length target.now }
{
    for (i, byte) in target.iter().enumerate() {
        if *byte == b'?' {
            return i;
        }
    }
    target.len()
}

/// What a head's lines say.
#[derive(Clone, Copy)]
pub struct ServedLines {
    pub length: u32,
    pub key: Option<Span>,
    pub close: bool,
}

/// What the head of a request says.
#[derive(Clone, Copy)]
pub struct ServedHead {
    pub method: Span,
    pub path: Span,
    pub key: Option<Span>,
    pub length: u32,
    pub last: bool,
}
