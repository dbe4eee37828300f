//! A reader of an export's text, from its front.
ghost use Rattle.std.specs.Prelude.{◌≡◌, decimal};
ghost use Rattle.line_text.specs.Lines.{IsNumber, number_field};
ghost use Rattle.line_text.specs.Reads.{AreNumbers, Eats, Reads, TakesDigit, number_part, number_with, two_fields};

/// What is left of a text. What is read goes.
#[derive(Drop)]
pub struct Reader<'a> {
    pub rest: &'a [u8],
}

impl<'a> Reader<'a> {
    /// Whether these bytes stand at the front, which then go.
    pub fn eat(&mut self, bytes: &[u8]) -> bool
        ensures { Eats bytes.now self.old.rest.now self.new.rest.now result }
    {
        let Some(rest) = self.rest.strip_prefix(bytes) else {
            return false;
        };
        self.rest = rest;
        true
    }

    /// The number at the front: digits, of which the first is 0 only where it is the one.
    pub(crate) fn number(&mut self) -> Option<u64>
        ensures { Reads decimal IsNumber self.old.rest.now self.new.rest.now result }
    {
        if self.eat(b"0") {
            return Some(0);
        }
        let mut number = self.digit()?;
        while let Some(digit) = self.digit() {
            number = with_digit(number, digit)?;
        }
        Some(number)
    }

    // The value of the digit at the front, which then goes.
    fn digit(&mut self) -> Option<u64>
        ensures { TakesDigit self.old.rest.now self.new.rest.now result }
    {
        let (first, more) = self.rest.split_first()?;
        if !first.is_ascii_digit() {
            return None;
        }
        self.rest = more;
        Some(u64::from(*first - b'0'))
    }

    /// The number that is the next field.
    pub fn field(&mut self) -> Option<u64>
        ensures { Reads number_field IsNumber self.old.rest.now self.new.rest.now result }
    {
        if !self.eat(b" ") {
            return None;
        }
        self.number()
    }

    /// The number that stands after a dot.
    pub(crate) fn part(&mut self) -> Option<u64>
        ensures { Reads number_part IsNumber self.old.rest.now self.new.rest.now result }
    {
        if !self.eat(b".") {
            return None;
        }
        self.number()
    }

    /// The numbers that are the next two fields.
    pub fn fields(&mut self) -> Option<(u64, u64)>
        ensures { Reads two_fields AreNumbers self.old.rest.now self.new.rest.now result }
    {
        let first = self.field()?;
        let second = self.field()?;
        Some((first, second))
    }
}

// The number with one digit more, if it isn't too great.
fn with_digit(number: u64, digit: u64) -> Option<u64>
    ensures { result ≡ number_with number digit }
{
    number.checked_mul(10)?.checked_add(digit)
}
