// Answers and their heads.
ghost use Rattle.std.specs.Prelude.{◌≡◌, ◌+◌, ◌<◌, ◌≤◌, ◌++◌, length, decimal, IsTrue};
ghost use Rattle.arrayvec.specs.ArrayVec.{array_vec_len};
ghost use Rattle.http_wire.specs.Answers.{is_status, reason_of, media_of, close_of, head_text};

use arrayvec::ArrayVec;

/// The body of an answer.
#[derive(Drop)]
pub enum Body {
    /// At most 256 bytes, which took no memory.
    Small(ArrayVec<u8, 256>),
    Large(Vec<u8>),
}

/// An answer, as its head and its body.
#[derive(Drop)]
pub struct Answer {
    pub head: ArrayVec<u8, 256>,
    pub body: Body,
    /// The number of the cut of the bookings after which it may leave; 0: at once.
    pub after: u64,
}

fn reason(status: u16) -> &'static [u8]
    ensures reason { result.now ≡ reason_of status }
    ensures short { length result.now ≤ 31 }
{
    match status {
        200 => b"OK",
        201 => b"Created",
        400 => b"Bad Request",
        401 => b"Unauthorized",
        403 => b"Forbidden",
        404 => b"Not Found",
        405 => b"Method Not Allowed",
        409 => b"Conflict",
        410 => b"Gone",
        413 => b"Content Too Large",
        431 => b"Request Header Fields Too Large",
        500 => b"Internal Server Error",
        501 => b"Not Implemented",
        503 => b"Service Unavailable",
        _ => b"Insufficient Storage",
    }
}

fn media(problem: bool) -> &'static [u8]
    ensures media { result.now ≡ media_of problem }
    ensures short { length result.now ≤ 24 }
{
    if problem {
        b"application/problem+json"
    } else {
        b"application/json"
    }
}

fn close(last: bool) -> &'static [u8]
    ensures close { result.now ≡ close_of last }
    ensures short { length result.now ≤ 19 }
{
    if last { b"\r\nConnection: close" } else { b"" }
}

/// Adds bytes for which there is room.
pub fn append(text: &mut ArrayVec<u8, 256>, bytes: &[u8])
    requires room { array_vec_len text.old + length bytes.now ≤ 256 }
    ensures items { text.new.items ≡ text.old.items ++ bytes.now }
    ensures len { array_vec_len text.new ≡ array_vec_len text.old + length bytes.now }
{
    text.try_extend_from_slice(bytes).unwrap();
}

/// Adds a number for which there is room.
pub fn append_number(text: &mut ArrayVec<u8, 256>, number: u32)
    requires room { array_vec_len text.old ≤ 246 }
    ensures items { text.new.items ≡ text.old.items ++ decimal number }
    ensures len { array_vec_len text.new ≤ array_vec_len text.old + 10 }
{
    append(text, itoa::Buffer::new().format(number).as_bytes());
}

/// The head of an answer with a body of `length` bytes, up to its empty line. `problem` gives the
/// media type of RFC 9457, and `last` the line `Connection: close`.
pub fn write_head(status: u16, problem: bool, length: u32, last: bool) -> ArrayVec<u8, 256>
    requires known { IsTrue (is_status status) }
    ensures head { result.items ≡ head_text status problem length last }
{
    let mut head = ArrayVec::new();
    append(&mut head, b"HTTP/1.1 ");
    append_number(&mut head, u32::from(status));
    append(&mut head, b" ");
    append(&mut head, reason(status));
    append(&mut head, b"\r\nContent-Type: ");
    append(&mut head, media(problem));
    append(&mut head, b"\r\nContent-Length: ");
    append_number(&mut head, length);
    append(&mut head, close(last));
    append(&mut head, b"\r\n\r\n");
    head
}
