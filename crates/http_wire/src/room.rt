// Where the bytes held stand in the memory, and how more come after them.
ghost use Rattle.std.specs.Prelude.{◌≡◌, ◌≤◌, ◌<◌, ◌+◌, ◌-◌, ◌^◌, List, ℕ, length, slice_range};
ghost use Rattle.rail_io.specs.Faults.{Rose};
ghost use Rattle.rail_io.specs.declared.source.Pulled.TheVariants.{Failed};
ghost use Rattle.http_wire.specs.Next.{PullsBehind, Draws, Stays, EndsWithin, end_behind};

use rail_io::{Pulled, Source};

/// The most that one read asks for.
const READ_ROOM: usize = 16_384;

/// Where the bytes from `at` to `filled` are said to stand: where there are none, at the front.
pub fn next_start(at: usize, filled: usize) -> usize
    requires { at ≤ filled }
    ensures held { (memory : List ℕ)
        → slice_range memory result (result + (filled - at)) ≡ slice_range memory at filled }
    ensures not_later { result ≤ at }
{
    if at == filled { 0 } else { at }
}

/// Where the bytes from `start` to `filled` stand, so that there is room after them: where they stood, and only
/// where the memory is full after them, at the front.
fn make_room(memory: &mut [u8], start: usize, filled: usize) -> usize
    requires ordered { start ≤ filled }
    requires within { filled ≤ length memory.old }
    ensures held { slice_range memory.new result (result + (filled - start)) ≡ slice_range memory.old start filled }
    ensures not_later { result ≤ start }
    ensures room { filled - start < length memory.old → result + (filled - start) < length memory.old }
    ensures unmoved { filled < length memory.old → memory.new ≡ memory.old }
{
    if filled < memory.len() {
        return start;
    }
    memory.copy_within(start..filled, 0);
    0
}

/// Reads some bytes after those that are there.
fn pull<S: Source>(memory: &mut [u8], filled: usize, source: &mut S) -> Pulled
    requires { filled < length memory.old }
    ensures pulls { PullsBehind (S.told source.old) (S.told source.new) memory.old memory.new filled result }
    ensures never_falls { S.faults source.old ≤ S.faults source.new }
    ensures cause { result ≡ Failed → Rose (S.faults source.old) (S.faults source.new) }
    ensures steady { Stays result (S.faults source.old) (S.faults source.new) }
{
    let room = (memory.len() - filled).min(READ_ROOM);
    source.read(&mut memory[filled..filled + room])
}

/// Where the bytes held stand after a read, and what the read answered.
#[derive(Clone, Copy)]
pub struct Drawn {
    pub start: usize,
    pub filled: usize,
    pub answer: Pulled,
}

/// The same bytes, with those of an answered read after them.
fn with_read(start: usize, filled: usize, answer: Pulled) -> Drawn
    requires { EndsWithin filled answer (2 ^ 32) }
    ensures start { result.start ≡ start }
    ensures filled { result.filled ≡ end_behind filled answer }
    ensures answer { result.answer ≡ answer }
{
    let filled = match answer {
        Pulled::Got(count) => filled + count,
        Pulled::End | Pulled::Failed => filled,
    };
    Drawn {
        start,
        filled,
        answer,
    }
}

/// Reads some bytes after those from `start` to `filled`.
pub fn draw<S: Source>(memory: &mut [u8], start: usize, filled: usize, source: &mut S) -> Drawn
    requires ordered { start ≤ filled }
    requires within { filled ≤ length memory.old }
    requires room { filled - start < length memory.old }
    requires small { length memory.old < 2 ^ 32 }
    ensures draws { Draws (S.told source.old) (S.told source.new) (slice_range memory.old start filled)
        (slice_range memory.new result.start result.filled) result.answer }
    ensures ordered { result.start ≤ result.filled }
    ensures within { result.filled ≤ length memory.new }
    ensures never_falls { S.faults source.old ≤ S.faults source.new }
    ensures cause { result.answer ≡ Failed → Rose (S.faults source.old) (S.faults source.new) }
    ensures steady { Stays result.answer (S.faults source.old) (S.faults source.new) }
{
    let place = make_room(memory, start, filled);
    let end = place + (filled - start);
    let answer = pull(memory, end, source);
    with_read(place, end, answer)
}
