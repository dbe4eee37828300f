// The line that a drill prints.
ghost use Rattle.std.specs.Prelude.{◌≡◌};
ghost use Rattle.host_drill.specs.Totals.{totals_line};

use arrayvec::ArrayVec;
use http_wire::{append, append_number};

/// What is counted.
#[derive(Clone, Copy)]
pub struct Totals {
    pub requests: u32,
    pub sold: u32,
    pub refused: u32,
    pub busy: u32,
    pub double: u32,
}

/// The line of the totals.
pub fn line_of(totals: Totals) -> ArrayVec<u8, 256>
    ensures { result.items ≡ totals_line totals.requests totals.sold totals.refused totals.busy totals.double }
{
    let mut line = ArrayVec::new();
    append(&mut line, b"requests ");
    append_number(&mut line, totals.requests);
    append(&mut line, b" sold ");
    append_number(&mut line, totals.sold);
    append(&mut line, b" refused ");
    append_number(&mut line, totals.refused);
    append(&mut line, b" busy ");
    append_number(&mut line, totals.busy);
    append(&mut line, b" double ");
    append_number(&mut line, totals.double);
    append(&mut line, b"\n");
    line
}
