// Notes.
ghost use Rattle.std.specs.Prelude.{◌≡◌, ◌≤◌, ◌++◌, true, false, codes, decimal};
ghost use Rattle.rail_io.specs.Faults.{Rose};
ghost use Rattle.session_loop.specs.Writes.{Writes};
ghost use Rattle.host_catalogue.specs.Notes.{place_text};
ghost use Rattle.host_catalogue.specs.Noted.{IsNoted};

use crate::{NotePlace, NoteText};
use itoa::Buffer;
use rail_io::Sink;
use session_loop::write_all;

/// Writes all of both pieces, and answers true, or a front of them, where the sink fails, and answers false.
fn write_both<K: Sink>(sink: &mut K, first: &[u8], second: &[u8]) -> bool
    ensures writes { Writes (K.told sink.old) (K.told sink.new) (first.now ++ second.now) result }
    ensures never_falls { K.faults sink.old ≤ K.faults sink.new }
    ensures cause { result ≡ false → Rose (K.faults sink.old) (K.faults sink.new) }
    ensures steady { result ≡ true → K.faults sink.new ≡ K.faults sink.old }
{
    if !write_all(sink, first) {
        return false;
    }
    write_all(sink, second)
}

/// The same of the digits of a number.
fn write_number<K: Sink>(sink: &mut K, number: u64) -> bool
    ensures writes { Writes (K.told sink.old) (K.told sink.new) (decimal number) result }
    ensures never_falls { K.faults sink.old ≤ K.faults sink.new }
    ensures cause { result ≡ false → Rose (K.faults sink.old) (K.faults sink.new) }
    ensures steady { result ≡ true → K.faults sink.new ≡ K.faults sink.old }
{
    let mut buffer = Buffer::new();
    write_all(sink, buffer.format(number).as_bytes())
}

/// The same of a line and its cut.
fn write_line<K: Sink>(sink: &mut K, line: u64, cut: u64) -> bool
    ensures writes { Writes (K.told sink.old) (K.told sink.new)
        ((decimal line ++ codes " of cut ") ++ decimal cut) result }
    ensures never_falls { K.faults sink.old ≤ K.faults sink.new }
    ensures cause { result ≡ false → Rose (K.faults sink.old) (K.faults sink.new) }
    ensures steady { result ≡ true → K.faults sink.new ≡ K.faults sink.old }
{
    let mut buffer = Buffer::new();
    if !write_both(sink, buffer.format(line).as_bytes(), b" of cut ") {
        return false;
    }
    write_number(sink, cut)
}

/// The same of a note's place.
fn write_place<K: Sink>(sink: &mut K, place: NotePlace<'_>) -> bool
    ensures writes { Writes (K.told sink.old) (K.told sink.new) (place_text place.entry) result }
    ensures never_falls { K.faults sink.old ≤ K.faults sink.new }
    ensures cause { result ≡ false → Rose (K.faults sink.old) (K.faults sink.new) }
    ensures steady { result ≡ true → K.faults sink.new ≡ K.faults sink.old }
{
    match place {
        NotePlace::Path(path) => write_all(sink, path),
        NotePlace::Cut(cut) => write_number(sink, cut),
        NotePlace::Line { line, cut } => write_line(sink, line, cut),
    }
}

/// The same of a place and what follows it.
fn write_end<K: Sink>(sink: &mut K, place: NotePlace<'_>, end: &[u8]) -> bool
    ensures writes { Writes (K.told sink.old) (K.told sink.new) (place_text place.entry ++ end.now) result }
    ensures never_falls { K.faults sink.old ≤ K.faults sink.new }
    ensures cause { result ≡ false → Rose (K.faults sink.old) (K.faults sink.new) }
    ensures steady { result ≡ true → K.faults sink.new ≡ K.faults sink.old }
{
    if !write_place(sink, place) {
        return false;
    }
    write_all(sink, end)
}

/// Writes as much of a note in parts as the sink takes.
pub fn note_parts<E: Sink>(notes: &mut E, text: NoteText<'_>)
    ensures never_falls { E.faults notes.old ≤ E.faults notes.new }
    ensures noted { IsNoted (E.told notes.old) (E.told notes.new) (E.faults notes.old) (E.faults notes.new)
        (text.entry.front.now ++ (place_text text.entry.place ++ text.entry.end.now)) }
{
    if !write_all(notes, text.front) {
        return;
    }
    let _whole = write_end(notes, text.place, text.end);
}
