// What the head of a request says.
ghost use Rattle.std.specs.Prelude.{◌≡◌, ◌<◌, ◌≤◌, ◌↔◌, ◌&&◌, ◌||◌, ◌==◌, ℕ, List, [], ◌∷◌, All, length, IfOk, IfErr, IfSome, IsTrue, option_map, slice_get, codes, reverse, true};
ghost use Rattle.std.specs.List.{AllByRecursion, position_or_len};
ghost use Rattle.httparse.specs.Grammar.{trim_ows, skip_ows};
ghost use Rattle.httparse.specs.Spans.{IsWithin, IsHeaderWithin, IsRequestOf, IsRequestWithin, span_bytes};
ghost use Rattle.http_wire.specs.Heads.{IsHead, HasLines};
ghost use Rattle.http_wire.specs.HeadLines.{same_name, IsNumeral, IsLength, lengths_in, says_close, lines_at, IsFirstOf};
ghost use Rattle.http_wire.specs.HeadRead.{IsServedRead, IsServedWithin, IsHeadFault};
ghost use Rattle.http_wire.specs.Named.{IsNamed, IsNamedWithin};
ghost use Rattle.http_wire.specs.Notes.{AreNotesOf, AreNotesWithin, with_line};
ghost use Rattle.http_wire.specs.ServedLines.{AreServedLines, IsLengthFault, IsLinesFault, Agrees, line_closes};

use crate::head::{
    HEAD_LINES, Named, ServedHead, ServedLines, long_number, path_length, same_name,
};
use crate::request::WireFault;
use httparse::Status;
use httparse::spans::{EMPTY_HEADER_SPAN, HeaderSpan, RequestSpans, Span, parse_request};

/// The most lines that nearly all heads have after the request line.
const FEW_LINES: usize = 8;

fn skip_front(text: &[u8]) -> &[u8]
    ensures { result.now ≡ skip_ows text.now }
{
    let mut rest = text;
    while let [b' ' | b'\t', after @ ..] = rest {
        rest = after;
    }
    rest
}

fn skip_back(text: &[u8]) -> &[u8]
    ensures { result.now ≡ reverse (skip_ows (reverse text.now)) }
{
    let mut rest = text;
    while let [before @ .., b' ' | b'\t'] = rest {
        rest = before;
    }
    rest
}

/// Whether the word is `close`, without regard to case and blanks around it.
#[tactic(auto, unfolding(httparse::specs::Grammar::trim_ows))]
fn word_closes(word: &[u8]) -> bool
    ensures { result ≡ same_name (trim_ows word.now) (codes "close") }
{
    same_name(skip_back(skip_front(word)), b"close")
}

/// How many bytes stand before the first comma.
fn word_length(text: &[u8]) -> usize
    ensures place { result ≡ position_or_len (λ b. b == 44) text.now }
    ensures within { result ≤ length text.now }
{
    for (i, byte) in text.iter().enumerate() {
        if *byte == b',' {
            return i;
        }
    }
    text.len()
}

/// Whether the value has the word `close`.
#[inline(never)]
fn says_close(value: &[u8]) -> bool
    ensures { result ≡ says_close value.now }
{
    let mut rest = value;
    'words: loop {
        let at = word_length(rest);
        let (word, more) = rest.split_at(at);
        let Some((_, after)) = more.split_first() else {
            return word_closes(word);
        };
        if word_closes(word) {
            return true;
        }
        rest = after;
    }
}

/// Whether a line's name is this one, without regard to ASCII case. Its usual spelling is compared first, as it stands,
/// which is cheap.
#[inline(always)]
fn is_named(name: &[u8], usual: &[u8], lower: &[u8]) -> bool
    requires { same_name usual.now lower.now ≡ true }
    ensures { result ≡ same_name name.now lower.now }
{
    name == usual || same_name(name, lower)
}

fn line_closes(head: &[u8], line: HeaderSpan) -> bool
    requires { IsHeaderWithin (length head.now) line }
    ensures { result ≡ line_closes head.now line }
{
    same_name(line.name.of(head), b"connection") && says_close(line.value.of(head))
}

/// What the lines say that were gone through.
#[derive(Clone, Copy)]
pub struct Notes {
    /// Whether one gives a coding.
    pub coded: bool,
    /// The lengths.
    pub lengths: Named,
    /// The retailers' keys.
    pub keys: Named,
    /// Whether one says that the connection closes.
    pub closes: bool,
}

impl Notes {
    /// Notes what one more line says. Its name is compared with the one of its length alone.
    fn note(&mut self, head: &[u8], line: HeaderSpan)
        requires { IsHeaderWithin (length head.now) line }
        ensures notes { self.new ≡ with_line head.now self.old line }
        ensures within { AreNotesWithin (length head.now) self.old → AreNotesWithin (length head.now) self.new }
    {
        let name = line.name.of(head);
        match name.len() {
            17 => {
                if same_name(name, b"transfer-encoding") {
                    self.coded = true;
                }
            }
            14 => {
                if is_named(name, b"Content-Length", b"content-length") {
                    self.lengths = self.lengths.with(line.value);
                }
            }
            12 => {
                if is_named(name, b"Retailer-Key", b"retailer-key") {
                    self.keys = self.keys.with(line.value);
                }
            }
            10 => {
                if line_closes(head, line) {
                    self.closes = true;
                }
            }
            _ => {}
        }
    }
}

/// What all the lines say.
fn notes_of(head: &[u8], lines: &[HeaderSpan]) -> Notes
    requires { All (IsHeaderWithin (length head.now)) lines.now }
    ensures notes { AreNotesOf head.now (lines_at head.now lines.now) result }
    ensures within { AreNotesWithin (length head.now) result }
{
    let mut notes = Notes {
        coded: false,
        lengths: Named::None,
        keys: Named::None,
        closes: false,
    };
    for line in lines {
        notes.note(head, *line);
    }
    notes
}

fn spells(digits: &[u8], number: u64) -> bool
    ensures { IsTrue result ↔ IsNumeral digits.now number }
{
    match long_number(digits) {
        Some(other) => other == number,
        None => false,
    }
}

fn agrees(head: &[u8], line: HeaderSpan, number: u64) -> bool
    requires { IsHeaderWithin (length head.now) line }
    ensures { IsTrue result ↔ Agrees head.now number line }
{
    if !same_name(line.name.of(head), b"content-length") {
        return true;
    }
    spells(line.value.of(head), number)
}

fn all_agree(head: &[u8], lines: &[HeaderSpan], number: u64) -> bool
    requires { All (IsHeaderWithin (length head.now)) lines.now }
    ensures { IsTrue result ↔ AllByRecursion (λ d. IsNumeral d number) (lengths_in (lines_at head.now lines.now)) }
{
    for line in lines {
        if !agrees(head, *line, number) {
            return false;
        }
    }
    true
}

/// The body's length, where the first line that gives one is there.
#[cold]
#[inline(never)]
fn length_of(head: &[u8], lines: &[HeaderSpan], first: Span) -> Result<u32, WireFault>
    requires lines { All (IsHeaderWithin (length head.now)) lines.now }
    requires within { IsWithin (length head.now) first }
    requires first { IsFirstOf (lengths_in (lines_at head.now lines.now)) (span_bytes head.now first) }
    ensures ok { IfOk result (IsLength (lengths_in (lines_at head.now lines.now))) }
    ensures fits { IfOk result (λ n. n ≤ 262144) }
    ensures err { IfErr result (IsLengthFault (lines_at head.now lines.now)) }
{
    let Some(number) = long_number(first.of(head)) else {
        return Err(WireFault::BadLength);
    };
    if !all_agree(head, lines, number) {
        return Err(WireFault::BadLength);
    }
    if number > 262_144 {
        return Err(WireFault::BodyTooLarge);
    }
    Ok(number as u32)
}

/// The body's length, where one line alone gives one.
fn only_length(head: &[u8], only: Span) -> Result<u32, WireFault>
    requires within { IsWithin (length head.now) only }
    ensures ok { IfOk result (IsLength (span_bytes head.now only ∷ [])) }
    ensures fits { IfOk result (λ n. n ≤ 262144) }
    ensures err { (lines : List (List ℕ × List ℕ)) → lengths_in lines ≡ span_bytes head.now only ∷ []
        → IfErr result (IsLengthFault lines) }
{
    let Some(number) = long_number(only.of(head)) else {
        return Err(WireFault::BadLength);
    };
    if number > 262_144 {
        return Err(WireFault::BodyTooLarge);
    }
    Ok(number as u32)
}

/// The body's length.
fn body_length(head: &[u8], lines: &[HeaderSpan], lengths: Named) -> Result<u32, WireFault>
    requires lines { All (IsHeaderWithin (length head.now)) lines.now }
    requires named { IsNamed head.now lengths (lengths_in (lines_at head.now lines.now)) }
    requires within { IsNamedWithin (length head.now) lengths }
    ensures ok { IfOk result (IsLength (lengths_in (lines_at head.now lines.now))) }
    ensures fits { IfOk result (λ n. n ≤ 262144) }
    ensures err { IfErr result (IsLengthFault (lines_at head.now lines.now)) }
{
    match lengths {
        Named::None => Ok(0),
        Named::First(only) => only_length(head, only),
        Named::Several(first) => length_of(head, lines, first),
    }
}

fn is_last(version: u8, close: bool, number: u32) -> bool
    ensures { result ≡ ((version == 0) || close || (number == 65536)) }
{
    version == 0 || close || number == 65_536
}

fn first_of(named: Named) -> Option<Span>
    ensures value { (head : List ℕ) (values : List (List ℕ)) → IsNamed head named values
        → option_map (span_bytes head) result ≡ slice_get values 0 }
    ensures within { (n : ℕ) → IsNamedWithin n named → IfSome result (IsWithin n) }
{
    match named {
        Named::None => None,
        Named::First(value) | Named::Several(value) => Some(value),
    }
}

/// What the lines say.
fn read_lines(head: &[u8], lines: &[HeaderSpan]) -> Result<ServedLines, WireFault>
    requires { All (IsHeaderWithin (length head.now)) lines.now }
    ensures ok { IfOk result (AreServedLines head.now (lines_at head.now lines.now)) }
    ensures err { IfErr result (IsLinesFault (lines_at head.now lines.now)) }
{
    let notes = notes_of(head, lines);
    if notes.coded {
        return Err(WireFault::Coding);
    }
    match body_length(head, lines, notes.lengths) {
        Ok(length) => Ok(ServedLines {
            length,
            key: first_of(notes.keys),
            close: notes.closes,
        }),
        Err(fault) => Err(fault),
    }
}

/// What a head says that was parsed, where it is one of a request.
fn parsed_head(
    head: &[u8],
    lines: &[HeaderSpan],
    spans: RequestSpans,
    number: u32,
) -> Result<ServedHead, WireFault>
    requires head { IsHead head.now }
    requires few { HasLines 66 head.now → ⊥ }
    requires parsed { IsRequestOf head.now lines.now spans }
    requires parsed_within { IsRequestWithin head.now lines.now spans }
    ensures ok { IfOk result (IsServedRead number head.now) }
    ensures within { IfOk result (IsServedWithin (length head.now)) }
    ensures err { IfErr result (IsHeadFault head.now) }
{
    let read = match read_lines(head, &lines[..spans.headers]) {
        Ok(read) => read,
        Err(fault) => return Err(fault),
    };
    let target = spans.path;
    let path = Span {
        start: target.start,
        end: target.start + path_length(target.of(head)),
    };
    Ok(ServedHead {
        method: spans.method,
        path,
        key: read.key,
        length: read.length,
        last: is_last(spans.version, read.close, number),
    })
}

/// What the head says, whatever lines it has. It stands apart, since room for the most lines is costly to clear.
#[inline(never)]
fn long_head(head: &[u8], number: u32) -> Result<ServedHead, WireFault>
    requires head { IsHead head.now }
    requires few { HasLines 66 head.now → ⊥ }
    ensures ok { IfOk result (IsServedRead number head.now) }
    ensures within { IfOk result (IsServedWithin (length head.now)) }
    ensures err { IfErr result (IsHeadFault head.now) }
{
    let mut lines = [EMPTY_HEADER_SPAN; HEAD_LINES];
    let Ok(Status::Complete(spans)) = parse_request(head, &mut lines) else {
        return Err(WireFault::BadHead);
    };
    parsed_head(head, &lines, spans, number)
}

/// What the head says where it is one of a request. Room for few lines is tried first.
pub fn served_head(head: &[u8], number: u32) -> Result<ServedHead, WireFault>
    requires head { IsHead head.now }
    requires few { HasLines 66 head.now → ⊥ }
    ensures ok { IfOk result (IsServedRead number head.now) }
    ensures within { IfOk result (IsServedWithin (length head.now)) }
    ensures err { IfErr result (IsHeadFault head.now) }
{
    let mut lines = [EMPTY_HEADER_SPAN; FEW_LINES];
    if let Ok(Status::Complete(spans)) = parse_request(head, &mut lines) {
        return parsed_head(head, &lines, spans, number);
    }
    long_head(head, number)
}
