ghost use Rattle.std.specs.Prelude.{◌≡◌};
ghost use Rattle.osdm_json.specs.Faults.{problem_of};

use osdm_texts::{FieldName, Problem};

/// Why a request asks for nothing. The first fault in the order of the route's fields is the answer, and stations come
/// after all fields.
#[derive(Clone, Copy, PartialEq, Eq)]
pub enum BodyFault {
    /// The body is no JSON in UTF-8 (RFC 8259), or nests deeper than 127.
    NotJson,
    /// The field is missing, of another kind, out of its range or against its rule; `Body` where the body is no object.
    Field { name: FieldName },
    /// No station has the code that the field gives.
    UnknownStation { name: FieldName },
    /// Want of memory.
    NoMemory,
}

impl BodyFault {
    /// The problem that the fault is answered with.
    pub fn problem(self) -> Problem
        ensures { result ≡ problem_of self }
    {
        match self {
            BodyFault::NotJson => Problem::NotJson,
            BodyFault::Field { name } => Problem::BadField { name },
            BodyFault::UnknownStation { name } => Problem::UnknownStation { name },
            BodyFault::NoMemory => Problem::NoMemory,
        }
    }
}
