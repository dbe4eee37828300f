ghost use Rattle.std.specs.Prelude.{◌≡◌, ◌<◌, ◌==◌, length, slice_index, IsTrue, true, false, option_map};
ghost use Rattle.serde_json.specs.Find.{of_float};
ghost use Rattle.serde_json.specs.Read.{number_of, number_from, float_of};
ghost use Rattle.json_text.specs.View.{num_of};

use fast_float::Numeral;

/// A number, by its value.
#[derive(Clone, Copy, Drop)]
pub enum Number {
    /// An integer that is not negative.
    Whole(u64),
    /// An integer below zero.
    Below(i64),
    /// Any other number, `-0` and larger integers among them, as the nearest float.
    Float(f64),
}

impl Number {
    // The number that a token of JSON writes, where it is in range.
    pub(crate) fn parse(text: &str) -> Option<Number>
        ensures { option_map num_of result ≡ number_of text.now }
    {
        let bytes = text.as_bytes();
        if has_minus(bytes) {
            Number::negative(&Numeral::scan(&bytes[1..]))
        } else {
            Number::unsigned(&Numeral::scan(bytes))
        }
    }

    fn unsigned(numeral: &Numeral<'_>) -> Option<Number>
        ensures { option_map num_of result ≡ number_from false numeral.now }
    {
        match numeral.to_u64() {
            Some(n) => Some(Number::Whole(n)),
            None => Number::nearest(false, numeral),
        }
    }

    fn negative(numeral: &Numeral<'_>) -> Option<Number>
        ensures { option_map num_of result ≡ number_from true numeral.now }
    {
        if let Some(n) = numeral.to_i64(true) {
            if n < 0 {
                return Some(Number::Below(n));
            }
        }
        Number::nearest(true, numeral)
    }

    fn nearest(negative: bool, numeral: &Numeral<'_>) -> Option<Number>
        ensures { option_map num_of result ≡ float_of negative numeral.now }
    {
        Number::from_f64(numeral.to_float::<f64>(negative))
    }

    fn from_f64(x: f64) -> Option<Number>
        ensures { option_map num_of result ≡ of_float x }
    {
        if x.is_finite() {
            Some(Number::Float(x))
        } else {
            None
        }
    }
}

fn has_minus(bytes: &[u8]) -> bool
    ensures value { result ≡ (slice_index bytes.now 0 == 45) }
    ensures len { IsTrue result → 0 < length bytes.now }
{
    !bytes.is_empty() && bytes[0] == b'-'
}
