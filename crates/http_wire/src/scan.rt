// The search for the end of a head, which goes on from where it stood.
ghost use Rattle.std.specs.Prelude.{◌≡◌, ◌<◌, ◌≤◌, ◌+◌, ◌-◌, ◌^◌, ℕ, List, [], ◌∷◌, ◌++◌, length, min, None, Some, not, ◌&&◌, if◌then◌else◌};
ghost use Rattle.http_wire.specs.Scan.{StandsFor, IsFoundFrom, looked_until, is_blank, with_plain as with_plain_bytes};

use std::sync::ledger::Ledger;
use step_count::Steps;

/// Where the search for the end of a head (RFC 9112, section 2.1) stands: each byte takes one step, whatever pieces the
/// bytes come in. Empty lines before the request line are skipped.
#[derive(Clone, Copy, PartialEq, Eq)]
pub struct HeadScan {
    /// The place after the head's end, which is that of the first empty line after a line that isn't empty.
    /// Nothing is searched past it.
    pub ended: Option<u32>,
    /// How many lines after the request line have ended and aren't empty.
    pub lines: u32,
    /// How many bytes were searched.
    pub at: u32,
    /// Whether the line in progress has no byte, or one carriage return alone.
    pub line_empty: bool,
    /// Whether the last byte searched is a carriage return.
    pub carriage: bool,
    /// Whether the request line has ended.
    pub begun: bool,
}

/// One line more after the request line, where that has ended before.
fn count_line(lines: u32, begun: bool) -> u32
    ensures { result ≡ (if begun then min (lines + 1) (2 ^ 32 - 1) else lines) }
{
    if begun {
        lines.saturating_add(1)
    } else {
        lines
    }
}

/// Whether a line is empty after one more byte, which is no line feed: after a carriage return in an empty one.
fn still_empty(line_empty: bool, carriage: bool, byte_carriage: bool) -> bool
    ensures { result ≡ (line_empty && not carriage && byte_carriage) }
{
    line_empty && !carriage && byte_carriage
}

/// A byte of a piece, and its place there.
#[derive(Clone, Copy)]
pub struct Found {
    pub at: usize,
    pub byte: u8,
}

fn behind(at: usize, byte: u8) -> Option<Found>
    ensures { result ≡ Some (record { at = at; byte = byte }) }
{
    Some(Found { at, byte })
}

/// The byte after those at the place and after it that are after CR in value; `None` where all are, up to the piece's
/// end. A step is one byte looked at: each of them once, and the one found. Two are looked at in a turn, so that a byte
/// costs less; where one is left over at the end, it is found, whatever it is.
fn past_plain<L: Ledger>(piece: &[u8], from: usize, steps: &mut Steps<L>) -> Option<Found>
    requires { from ≤ length piece.now }
    ensures found { IsFoundFrom piece.now from result }
    ensures steps { steps.new + from ≡ steps.old + looked_until piece.now result }
{
    let mut at = from;
    'twos: while piece.len() - at >= 2 {
        steps.tick();
        let first = piece[at];
        if first <= b'\r' {
            return behind(at, first);
        }
        steps.tick();
        let second = piece[at + 1];
        if second <= b'\r' {
            return behind(at + 1, second);
        }
        at += 2;
    }
    if at == piece.len() {
        return None;
    }
    steps.tick();
    behind(at, piece[at])
}

impl HeadScan {
    /// The search of no bytes.
    pub fn start() -> HeadScan
        ensures stands { StandsFor result [] }
        ensures at { result.at ≡ 0 }
    {
        HeadScan {
            ended: None,
            lines: 0,
            at: 0,
            line_empty: true,
            carriage: false,
            begun: false,
        }
    }

    /// The search with a line feed after what was searched.
    fn with_feed(self) -> HeadScan
        requires open { self.ended ≡ None }
        requires small { self.at < 2 ^ 32 - 1 }
        ensures stands { (bytes : List ℕ) → StandsFor self bytes → StandsFor result (bytes ++ 10 ∷ []) }
        ensures at { result.at ≡ self.at + 1 }
    {
        let at = self.at + 1;
        if !self.line_empty {
            return HeadScan {
                lines: count_line(self.lines, self.begun),
                at,
                line_empty: true,
                carriage: false,
                begun: true,
                ..self
            };
        }
        if !self.begun {
            return HeadScan {
                at,
                carriage: false,
                ..self
            };
        }
        HeadScan {
            ended: Some(at),
            at,
            carriage: false,
            ..self
        }
    }

    /// The search with that many bytes more, none of which tells lines apart.
    fn with_plain(self, count: u32) -> HeadScan
        requires small { self.at + count < 2 ^ 32 }
        ensures { result ≡ with_plain_bytes self count }
    {
        if count == 0 {
            return self;
        }
        HeadScan {
            at: self.at + count,
            line_empty: false,
            carriage: false,
            ..self
        }
    }

    /// The search with one more byte.
    fn with_byte(self, byte: u8) -> HeadScan
        requires open { self.ended ≡ None }
        requires small { self.at < 2 ^ 32 - 1 }
        ensures stands { (bytes : List ℕ) → StandsFor self bytes → StandsFor result (bytes ++ byte ∷ []) }
        ensures at { result.at ≡ self.at + 1 }
    {
        if byte == b'\n' {
            return self.with_feed();
        }
        let carriage = byte == b'\r';
        HeadScan {
            at: self.at + 1,
            line_empty: still_empty(self.line_empty, self.carriage, carriage),
            carriage,
            ..self
        }
    }

    /// The search with the piece after what was searched, for every list of bytes that was searched. It takes one step
    /// for each byte up to the head's end, and none for those past it. That each byte looked at is a step is read.
    pub fn feed<L: Ledger>(self, piece: &[u8], steps: &mut Steps<L>) -> HeadScan
        requires small { self.at + length piece.now ≤ 278528 }
        ensures stands { (bytes : List ℕ) → StandsFor self bytes → StandsFor result (bytes ++ piece.now) }
        ensures steps { steps.new ≤ steps.old + length piece.now }
        ensures each_once { steps.new + self.at ≡ steps.old + result.at }
    {
        let mut scan = self;
        if scan.ended.is_some() {
            return scan;
        }
        let mut from = 0;
        'bytes: loop {
            // Most bytes are neither of the two that tell lines apart, and are only counted.
            let Some(next) = past_plain(piece, from, steps) else {
                return scan.with_plain((piece.len() - from) as u32);
            };
            scan = scan
                .with_plain((next.at - from) as u32)
                .with_byte(next.byte);
            from = next.at + 1;
            if scan.ended.is_some() {
                return scan;
            }
            // After a carriage return mostly stands a line feed: the byte there is looked at in the same turn.
            if from == piece.len() || next.byte != b'\r' {
                continue;
            }
            steps.tick();
            scan = scan.with_byte(piece[from]);
            from += 1;
            if scan.ended.is_some() {
                return scan;
            }
        }
    }

    /// Whether all bytes searched are empty lines.
    pub fn is_blank(&self) -> bool
        ensures { result ≡ is_blank self.now }
    {
        self.line_empty && !self.begun && !self.carriage
    }
}
