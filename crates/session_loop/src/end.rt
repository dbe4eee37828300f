// How a connection ends.

use http_wire::WireFault;

/// How a connection ended.
#[derive(Clone, Copy, PartialEq, Eq)]
pub enum ConnEnd {
    /// The source ended after the last request, or the last request of the connection is answered.
    Done,
    /// The source ended inside a request.
    Cut,
    /// What stood in a request's place was refused, and that answer is written.
    Refused(WireFault),
    /// The source failed. The answers of all requests that are whole in the bytes taken are written.
    ReadFault,
    /// The sink failed. What was written is a beginning of the answers.
    WriteFault,
    /// There was no memory to begin with. A session never ends so, since it takes none.
    NoMemory,
}
