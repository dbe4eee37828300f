// A request, and what stands in its place.

/// Bytes of the last request in the intake's memory: `len` bytes from `start` on.
#[derive(Clone, Copy, PartialEq, Eq)]
pub struct Piece {
    pub start: u32,
    pub len: u32,
}

/// A request, as pieces of the intake. They stand until the next request is asked for.
#[derive(Clone, Copy, PartialEq, Eq)]
pub struct Request {
    pub method: Piece,
    /// The target up to its first `?`, as it was sent.
    pub path: Piece,
    /// The value of the first `Retailer-Key` line.
    pub key: Option<Piece>,
    pub body: Piece,
    /// Whether it is the last request of its connection.
    pub last: bool,
}

/// Why what stands in a request's place is refused. They are tried in the order HeadTooLarge,
/// BadHead, Coding, BadLength, BodyTooLarge.
#[derive(Clone, Copy, PartialEq, Eq)]
pub enum WireFault {
    /// A head has ended and isn't one by `httparse` with its default settings.
    BadHead,
    /// The first 16,384 bytes hold no end of a head, or 65 lines that aren't empty stand after the
    /// request line before any end of the head.
    HeadTooLarge,
    /// The body's length is over 262,144.
    BodyTooLarge,
    /// A `Transfer-Encoding` line stands in the head.
    Coding,
    /// A `Content-Length` isn't 1 to 10 digits, or two are unlike as numbers.
    BadLength,
}

/// What comes next on a connection.
#[derive(Clone, Copy, PartialEq, Eq)]
pub enum Next {
    Request(Request),
    /// The source ended, and nothing or only empty lines of fewer than 16,384 bytes were left.
    End,
    /// The source ended inside a request.
    Cut,
    /// A read failed. What was read before is kept.
    ReadFault,
    Bad(WireFault),
}
