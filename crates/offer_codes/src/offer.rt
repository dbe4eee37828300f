ghost use Rattle.std.specs.Prelude.{◌≡◌, ◌≤◌, ◌<◌, ◌+◌, ◌^◌, ◌++◌, codes, length, option_map, Some, true, IfSome, IsTrue};
ghost use Rattle.std.specs.List.{list_all};
ghost use Rattle.arrayvec.specs.ArrayVec.{array_vec_len};
ghost use Rattle.offer_codes.specs.Marked.{marked, IsSpelling, ReadsAny};
ghost use Rattle.offer_codes.specs.Offers.{offer_view, offer_text, offer_marks, is_offer, is_party as is_party_of, is_segment, segment_marks, segments_marks, class_number, most_passengers};
ghost use Rattle.train_runs.specs.declared.segment.Segment.{Segment};
ghost use Rattle.offer_codes.specs.Found.{offer_from, segments_from, segment_value, class_from};

use crate::code::{MOST_PASSENGERS, OfferCode};
use crate::numbers::{numbers, push_number};
use arrayvec::ArrayVec;
use leg_masks::{MOST_LEGS, Span};
use place_map::Class;
use rail_ids::RunNo;
use rail_time::Moment;
use train_runs::Segment;

/// The offer's id.
pub fn write_offer(code: &OfferCode) -> ArrayVec<u8, 128>
    requires ranges { is_offer (offer_view code.now) ≡ true }
    ensures spelling { result.items ≡ offer_text (offer_view code.now) }
{
    let mut text = ArrayVec::new();
    push_offer(&mut text, b"O".as_slice(), code);
    text
}

/// Appends the offer, whose first number stands after this mark.
pub(crate) fn push_offer(text: &mut ArrayVec<u8, 128>, mark: &[u8], code: &OfferCode)
    requires ranges { is_offer (offer_view code.now) ≡ true }
    requires room { array_vec_len text.old ≤ 52 }
    requires short { length mark.now ≤ 2 }
    ensures spelling { text.new.items ≡ text.old.items ++ marked (offer_marks mark.now (offer_view code.now)) }
{
    push_number(text, mark, code.made.seconds() as u32);
    push_number(text, b"-".as_slice(), code.adults);
    push_number(text, b"-".as_slice(), code.children);
    push_number(text, b"-".as_slice(), number_of(code.class));
    push_number(text, b"-".as_slice(), code.wanted);
    push_segments(text, code.segments.as_slice());
}

// The first segment stands after `-`, each later one after `_`.
fn push_segments(text: &mut ArrayVec<u8, 128>, segments: &[Segment])
    requires segments { list_all is_segment segments.now ≡ true }
    requires few { length segments.now ≤ 3 }
    requires room { array_vec_len text.old ≤ 80 }
    ensures spelling { text.new.items ≡ text.old.items ++ marked (segments_marks (codes "-") segments.now) }
{
    let mut joint = b"-".as_slice();
    for segment in segments {
        push_segment(text, joint, segment);
        joint = b"_".as_slice();
    }
}

fn push_segment(text: &mut ArrayVec<u8, 128>, mark: &[u8], segment: &Segment)
    requires range { is_segment segment.now ≡ true }
    requires short { length mark.now ≡ 1 }
    requires room { array_vec_len text.old ≤ 114 }
    ensures spelling { text.new.items ≡ text.old.items ++ marked (segment_marks mark.now segment.now) }
    ensures len { array_vec_len text.new ≤ array_vec_len text.old + 14 }
{
    push_number(text, mark, segment.run.0 as u16);
    push_number(text, b".".as_slice(), segment.span.from());
    push_number(text, b".".as_slice(), segment.span.to());
}

fn number_of(class: Class) -> u8
    ensures { result ≡ class_number class }
{
    match class {
        Class::First => 1,
        Class::Second => 2,
    }
}

/// The offer that has this id; `None` exactly where none has.
pub fn read_offer(text: &[u8]) -> Option<OfferCode>
    ensures some { IfSome result (λ c. IsSpelling is_offer offer_text text.now (offer_view c)) }
    ensures spelled { ReadsAny is_offer offer_text text.now (option_map offer_view result) }
{
    let numbers = numbers(text)?;
    let code = offer_of(numbers.as_slice())?;
    if write_offer(&code).as_slice() == text {
        Some(code)
    } else {
        None
    }
}

/// The offer of its numbers.
pub(crate) fn offer_of(numbers: &[u64]) -> Option<OfferCode>
    ensures value { option_map offer_view result ≡ offer_from numbers.now }
    ensures ranges { IfSome result (λ c. is_offer (offer_view c) ≡ true) }
{
    if numbers.len() < 5 || numbers.len() > 14 {
        return None;
    }
    let (adults, children, wanted) = (numbers[1], numbers[2], numbers[4]);
    let made = Moment::of(numbers[0])?;
    let class = class_of(numbers[3])?;
    let segments = segments_of(&numbers[5..])?;
    if is_party(adults, children) && wanted <= 31 && !segments.is_empty() {
        Some(OfferCode {
            made,
            adults: adults as u8,
            children: children as u8,
            class,
            wanted: wanted as u8,
            segments,
        })
    } else {
        None
    }
}

fn is_party(adults: u64, children: u64) -> bool
    requires { (adults < 2 ^ 64) × (children < 2 ^ 64) }
    ensures value { result ≡ is_party_of adults children }
    ensures small { IsTrue result → (adults ≤ most_passengers) × (children ≤ most_passengers) }
{
    let most = u64::from(MOST_PASSENGERS);
    adults <= most && children <= most && 1 <= adults + children && adults + children <= most
}

fn class_of(number: u64) -> Option<Class>
    ensures { result ≡ class_from number }
{
    match number {
        1 => Some(Class::First),
        2 => Some(Class::Second),
        _ => None,
    }
}

fn segments_of(numbers: &[u64]) -> Option<ArrayVec<Segment, 3>>
    requires { length numbers.now ≤ 9 }
    ensures value { option_map (λ v. v.items) result ≡ segments_from numbers.now }
    ensures few { IfSome result (λ v. length v.items ≤ 3) }
    ensures all { IfSome result (λ v. list_all is_segment v.items ≡ true) }
{
    let mut segments = ArrayVec::new();
    let mut rest = numbers;
    while let [run, from, to, more @ ..] = rest {
        segments.push(segment_of(*run, *from, *to)?);
        rest = more;
    }
    if rest.is_empty() {
        Some(segments)
    } else {
        None
    }
}

fn segment_of(run: u64, from: u64, to: u64) -> Option<Segment>
    ensures { result ≡ segment_value run from to }
{
    if run > 4095 || from >= to || to > u64::from(MOST_LEGS) {
        return None;
    }
    Some(Segment {
        run: RunNo(run as u32),
        span: Span::new(from as u8, to as u8)?,
    })
}
