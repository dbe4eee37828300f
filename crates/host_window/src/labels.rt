//! The labels of counts, and which of them an answer has.
ghost use Rattle.std.specs.Prelude.{◌≡◌};
ghost use Rattle.host_window.specs.Labels.{status_number};

/// Who ended a connection.
#[derive(Clone, Copy, PartialEq, Eq)]
pub(crate) enum Cause {
    /// The client: no byte is to come.
    Client,
    /// The host, after its last answer.
    Host,
    /// A read failed, or had waited for too long.
    Fault,
}

/// The labels of causes, in their order.
pub(crate) const CAUSES: [&[u8]; 3] = [
    b"{cause=\"client\"}",
    b"{cause=\"host\"}",
    b"{cause=\"fault\"}",
];

/// The labels of statuses, and last that of all others, of which there are none.
pub(crate) const STATUSES: [&[u8]; 16] = [
    b"{status=\"200\"}",
    b"{status=\"201\"}",
    b"{status=\"400\"}",
    b"{status=\"401\"}",
    b"{status=\"403\"}",
    b"{status=\"404\"}",
    b"{status=\"405\"}",
    b"{status=\"409\"}",
    b"{status=\"410\"}",
    b"{status=\"413\"}",
    b"{status=\"431\"}",
    b"{status=\"500\"}",
    b"{status=\"501\"}",
    b"{status=\"503\"}",
    b"{status=\"507\"}",
    b"{status=\"other\"}",
];

/// The number of the label of 201.
pub(crate) const CREATED: usize = 1;

/// From this label on an answer is a problem.
pub(crate) const FIRST_PROBLEM: usize = 2;

/// The labels of codes of problems, and last that of all others, of which there are none. They are looked through in
/// this order, so those come first that a right request may meet.
pub(crate) const CODES: [&[u8]; 24] = [
    b"{code=\"NoPlace\"}",
    b"{code=\"RowsFull\"}",
    b"{code=\"TooLate\"}",
    b"{code=\"UnknownBooking\"}",
    b"{code=\"UnknownOffer\"}",
    b"{code=\"OfferTooOld\"}",
    b"{code=\"QuoteWrong\"}",
    b"{code=\"WrongState\"}",
    b"{code=\"Contended\"}",
    b"{code=\"NoMemory\"}",
    b"{code=\"BadHead\"}",
    b"{code=\"HeadTooLarge\"}",
    b"{code=\"BodyTooLarge\"}",
    b"{code=\"Coding\"}",
    b"{code=\"BadLength\"}",
    b"{code=\"NotBuilt\"}",
    b"{code=\"NoRetailer\"}",
    b"{code=\"OtherRetailer\"}",
    b"{code=\"NoRoute\"}",
    b"{code=\"NoMethod\"}",
    b"{code=\"NotJson\"}",
    b"{code=\"BadField\"}",
    b"{code=\"UnknownStation\"}",
    b"{code=\"other\"}",
];

impl Cause {
    /// The number of its label.
    pub(crate) fn number(self) -> usize {
        match self {
            Cause::Client => 0,
            Cause::Host => 1,
            Cause::Fault => 2,
        }
    }
}

/// The number of a status's label.
#[inline(always)]
pub(crate) fn number_of_status(status: u16) -> usize
    ensures { result ≡ status_number status }
{
    match status {
        200 => 0,
        201 => 1,
        400 => 2,
        401 => 3,
        403 => 4,
        404 => 5,
        405 => 6,
        409 => 7,
        410 => 8,
        413 => 9,
        431 => 10,
        500 => 11,
        501 => 12,
        503 => 13,
        507 => 14,
        _ => 15,
    }
}

// The code of a problem's text.
fn code_in(body: &[u8]) -> Option<&[u8]> {
    let rest = body.strip_prefix(b"{\"code\":\"")?;
    let end = rest.iter().position(|byte| *byte == b'"')?;
    rest.get(..end)
}

// Whether this is the label of a code. Most differ in length already, so that this is looked at first.
fn is_label_of(label: &[u8], code: &[u8]) -> bool {
    if label.len() != code.len() + b"{code=\"\"}".len() {
        return false;
    }
    match label.get(b"{code=\"".len()..) {
        Some(rest) => rest.starts_with(code),
        None => false,
    }
}

/// The number of the label of a problem's code: that of all others, where the text says none of the codes.
pub(crate) fn number_of_code(body: &[u8]) -> usize {
    let Some(code) = code_in(body) else {
        return CODES.len() - 1;
    };
    let found = CODES.iter().position(|label| is_label_of(label, code));
    found.unwrap_or(CODES.len() - 1)
}
