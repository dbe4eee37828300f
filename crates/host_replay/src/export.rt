// `export` over one connection.
ghost use Rattle.std.specs.Prelude.{◌≡◌, ◌++◌, ◌⊎◌, ℕ, List, Option, Some, IfErr, IfOk, true};
ghost use Rattle.rail_io.specs.Told.{with_front, WritesWhere};
ghost use Rattle.rail_io.specs.Faults.{Rose};
ghost use Rattle.session_loop.specs.declared.end.ConnEnd.TheVariants.{Done, NoMemory, ReadFault, WriteFault};
ghost use Rattle.claim_rule.specs.Openings.{KeptBooking};
ghost use Rattle.claim_rule.specs.Out.{IsTidy};
ghost use Rattle.claim_rule.specs.Rule.{state_seen};
ghost use Rattle.claim_rule.specs.Desks.{IsOf};
ghost use Rattle.lone_desk.specs.Lone.{IsAlone};
ghost use Rattle.booking_rows.specs.SealedRows.{FitWords};
ghost use Rattle.cold_store.specs.Tidy.{AreSucceeded};
ghost use Rattle.host_words.specs.Options.{words_texts};
ghost use Rattle.host_words.specs.Replay.{ReplayView};
ghost use Rattle.host_words.specs.Said.{view_of};
ghost use Rattle.host_words.specs.declared.command.CommandName.TheVariants.{Export};
ghost use Rattle.host_catalogue.specs.Opening.{HasNoBooks, IsOpened};
ghost use Rattle.host_catalogue.specs.Files.{OfCounts};
ghost use Rattle.host_catalogue.specs.Ends.{note_of};
ghost use Rattle.host_catalogue.specs.Noted.{TakesNote};
ghost use Rattle.host_catalogue.specs.declared.ending.CommandEnd.TheVariants.{WordsRefused};
ghost use Rattle.host_replay.specs.Input.{HasShelfCause, IsOfRefusedText, IsWithoutBooks, end_of_replay};
ghost use Rattle.host_replay.specs.Input.{status_of_replay, told_of};
ghost use Rattle.host_replay.specs.Export.{RanExport, EndsCut, Exports, ExportsAll, HasNoText, IsExport, IsExportOf};
ghost use Rattle.host_replay.specs.Export.{IsForExport, IsNoExport, StandsIn, export_with};
ghost use Rattle.host_replay.specs.declared.end.ReplayEnd.{ReplayEnd};
ghost use Rattle.host_replay.specs.declared.end.ReplayEnd.TheVariants.{Served};

use crate::end::{ReplayEnd, command_end};
use catalogue_contents::Catalogue;
use claim_rule::{Books, Desk};
use cold_store::export_tidy;
use host_catalogue::{CommandEnd, end_command, load_books};
use host_words::{ReplayWords, WordsFault, read_export};
use memchr::memmem;
use rail_io::{ScriptClock, Shelf, Sink, Source, VecSink};
use rail_service::serve_connection;
use session_loop::{ConnEnd, write_all};
use std::alloc::{AllocError, Global};

/// The line with which an answer begins that there is no memory.
const NO_MEMORY: &[u8] = b"HTTP/1.1 500 Internal Server Error\r\n";

/// Whether the line stands nowhere in the text.
fn lacks(text: &[u8], line: &[u8]) -> bool
    ensures { result ≡ true → StandsIn line.now text.now → ⊥ }
{
    match memmem::find(text, line) {
        Some(_) => false,
        None => true,
    }
}

/// The export of the books, whose first desk has parted no other and has nothing out.
fn text_of(alloc: Global, books: Books, desk: Desk) -> Result<Vec<u8>, AllocError>
    requires own { IsOf books desk }
    requires alone { IsAlone desk }
    requires tidy { IsTidy desk }
    requires fit { FitWords books.layout }
    requires opening { AreSucceeded books.layout.opening }
    ensures { IfOk result (λ text. text.items ≡ export_with books.layout (state_seen desk)) }
{
    // Tells contracts that there are no more rows than there may be.
    let _ = books.rows();
    match export_tidy(alloc, &books.finish(desk)) {
        Ok(text) => Ok(text),
        Err(_) => Err(AllocError),
    }
}

/// The export that one connection at the first desk of the books leaves, with the clock of the words; or how the
/// connection ended. Its answers are kept until its end, and where one of them is that there is no memory, or there is
/// no memory to keep them, the end is `NoMemory`.
fn export_input<S: Source>(
    alloc: Global,
    opened: (Catalogue, Books, Desk),
    said: &ReplayWords<'_>,
    input: &mut S,
) -> Result<Vec<u8>, ConnEnd>
    requires opened { (kept : List KeptBooking) × IsOpened opened.0 kept opened.1 opened.2 }
    ensures ok { IfOk result (λ text. (taken : List ℕ) × (S.told input.old ≡ with_front taken (S.told input.new))
        × IsExportOf opened.0 opened.2 (view_of said.now) taken (S.told input.new) text.items) }
    ensures err { IfErr result (λ e. (taken : List ℕ) × (S.told input.old ≡ with_front taken (S.told input.new))
        × HasNoText opened.0 opened.2 (view_of said.now) taken (S.told input.new) e) }
    ensures read_cause { IfErr result (λ e. e ≡ ReadFault → Rose (S.faults input.old) (S.faults input.new)) }
    ensures read_steady { IfErr result (λ e. (e ≡ ReadFault → ⊥) × (e ≡ NoMemory → ⊥))
        → S.faults input.new ≡ S.faults input.old }
{
    let (catalogue, books, mut desk) = opened;
    let mut clock = ScriptClock {
        next: said.start,
        tick: said.tick,
    };
    let mut answers = VecSink::new(alloc, Vec::new(alloc));
    let end = serve_connection(
        alloc,
        &catalogue,
        &books,
        &mut desk,
        input,
        &mut answers,
        &mut clock,
    );
    if !lacks(answers.taken(), NO_MEMORY) {
        return Err(ConnEnd::NoMemory);
    }
    match end {
        ConnEnd::Done => {}
        ConnEnd::WriteFault => return Err(ConnEnd::NoMemory),
        end => return Err(end),
    }
    match text_of(alloc, books, desk) {
        Ok(text) => Ok(text),
        Err(_) => Err(ConnEnd::NoMemory),
    }
}

/// What the words ask for: the export of what the catalogue of their file has sold, once the input was served.
fn export<F: Shelf, S: Source, K: Sink>(
    alloc: Global,
    said: &ReplayWords<'_>,
    shelf: &mut F,
    input: &mut S,
    output: &mut K,
) -> ReplayEnd
    ensures ends { RanExport (view_of said.now) (F.told shelf.old)
        (told_of (S.told input.old) (S.told input.new) (K.told output.old) (K.told output.new)) result }
    ensures nothing_written { (result ≡ Served Done → ⊥) → (result ≡ Served WriteFault → ⊥) → output.new ≡ output.old }
    ensures same { F.told shelf.new ≡ F.told shelf.old }
    ensures read_cause { result ≡ Served ReadFault → Rose (S.faults input.old) (S.faults input.new) }
    ensures write_cause { result ≡ Served WriteFault → Rose (K.faults output.old) (K.faults output.new) }
    ensures read_steady { (result ≡ Served ReadFault → ⊥) → (result ≡ Served NoMemory → ⊥)
        → S.faults input.new ≡ S.faults input.old }
    ensures write_steady { (result ≡ Served WriteFault → ⊥) → K.faults output.new ≡ K.faults output.old }
    ensures cause { OfCounts F.faults F.misses shelf.old shelf.new (HasShelfCause result) }
{
    let opened = match load_books(alloc, shelf, said.catalogue, said.from) {
        Ok(opened) => opened,
        Err(fault) => return ReplayEnd::NotLoaded(fault),
    };
    let text = match export_input(alloc, opened, said, input) {
        Ok(text) => text,
        Err(end) => return ReplayEnd::Served(end),
    };
    if write_all(output, text.as_slice()) {
        ReplayEnd::Served(ConnEnd::Done)
    } else {
        ReplayEnd::Served(ConnEnd::WriteFault)
    }
}

/// `export` by its words, of which the first is the command's name: it serves the input as `replay` does, and writes in
/// place of the answers the export of the bookings that there are then. Answers the status, and notes how it ended. It
/// writes nothing but a whole export, unless the output fails in it.
///
/// | status | where |
/// |---|---|
/// | 0 | all requests are answered, to the input's end or to the last of the connection, and the export is written |
/// | 1 | the catalogue is missing, larger than 33,554,432 bytes, or refused; or the export is, at 268,435,456 bytes |
/// | 2 | the words are refused; nothing is read, written or fetched |
/// | 3 | the input or the shelf failed in this call, and no answer was that there is no memory |
/// | 4 | the output failed in this call |
/// | 5 | there was no memory to begin with, for an answer, or for the export |
/// | 6 | the input ended inside a request, or was refused, and no answer was that there is no memory |
///
/// That there was no memory at status 5 no clause says. A device that has failed as often as is counted may have failed
/// before this call.
pub fn run_export<F: Shelf, S: Source, K: Sink, E: Sink>(
    alloc: Global,
    words: &[String],
    shelf: &mut F,
    input: &mut S,
    output: &mut K,
    notes: &mut E,
) -> u8
    requires command { IsForExport (words_texts words.now) }

    // Status 2 comes exactly where the words are refused, unless there was no memory to read them. Nothing is then
    // touched but the notes.
    ensures words { result ≡ 2 → IsNoExport (words_texts words.now) }
    ensures refused_words { IsNoExport (words_texts words.now) → (result ≡ 2) ⊎ (result ≡ 5) }
    ensures nothing_read { result ≡ 2 → input.new ≡ input.old }
    ensures nothing_fetched { result ≡ 2 → shelf.new ≡ shelf.old }
    ensures refused { result ≡ 2 → TakesNote E.told E.faults notes.old notes.new (note_of WordsRefused) }

    // Else it is that of the command's end.
    ensures run { (result ≡ 2) ⊎ ((end : ReplayEnd) × (result ≡ status_of_replay end)
        × Exports (words_texts words.now) (F.told shelf.old)
        (told_of (S.told input.old) (S.told input.new) (K.told output.old) (K.told output.new)) end
        × TakesNote E.told E.faults notes.old notes.new (note_of (end_of_replay end))
        × OfCounts F.faults F.misses shelf.old shelf.new (HasShelfCause end)) }

    // Where the input and the output tell their bytes, those written are the export that the requests to come leave:
    // all of it, or a beginning of it where the output failed. At every other status nothing is written.
    ensures exported { WritesWhere (result ≡ 0) (S.told input.old) (K.told output.old) (K.told output.new)
        (ExportsAll (words_texts words.now) (F.told shelf.old)) }
    ensures write_fault { (stream before : List ℕ) → S.told input.old ≡ Some stream → K.told output.old ≡ Some before
        → result ≡ 4 → (front back : List ℕ) × (K.told output.new ≡ Some (before ++ front))
        × ExportsAll (words_texts words.now) (F.told shelf.old) stream (front ++ back) }
    ensures cut { (stream : List ℕ) → S.told input.old ≡ Some stream → result ≡ 6
        → (answers : List ℕ) × EndsCut (words_texts words.now) (F.told shelf.old) stream answers }
    ensures nothing_written { (result ≡ 0 → ⊥) → (result ≡ 4 → ⊥) → output.new ≡ output.old }

    // A device's failure is answered where its count of faults rose in this call, or stands at its last value. At every
    // other status that count is as it was. But at status 5 the input may have failed after an answer that there is no
    // memory.
    ensures read_cause { result ≡ 3 → Rose (S.faults input.old) (S.faults input.new)
        ⊎ Rose (F.faults shelf.old) (F.faults shelf.new) }
    ensures write_cause { result ≡ 4 → Rose (K.faults output.old) (K.faults output.new) }
    ensures read_steady { (result ≡ 3 → ⊥) → (result ≡ 5 → ⊥) → S.faults input.new ≡ S.faults input.old }
    ensures write_steady { (result ≡ 4 → ⊥) → K.faults output.new ≡ K.faults output.old }
    ensures shelf_steady { (result ≡ 3 → ⊥) → F.faults shelf.new ≡ F.faults shelf.old }

    // Status 1 comes where the shelf has no books: of the catalogue's name or of the export's no file, one too large,
    // or a text that is refused. Where it has none, and tells so, no other status comes but for its failure and
    // where memory runs out.
    ensures without { result ≡ 1 → IsWithoutBooks Export (words_texts words.now) (F.told shelf.old) }
    ensures no_books { (files : List ℕ → Option (List ℕ)) → F.told shelf.old ≡ Some files → (said : ReplayView)
        → IsExport (words_texts words.now) said → HasNoBooks files said.catalogue said.from
        → (result ≡ 1) ⊎ (result ≡ 3) ⊎ (result ≡ 5) }
    ensures missed { result ≡ 1 → Rose (F.misses shelf.old) (F.misses shelf.new)
        ⊎ IsOfRefusedText Export (words_texts words.now) (F.told shelf.old) }
    ensures files { F.told shelf.new ≡ F.told shelf.old }
{
    match read_export(alloc, words) {
        Ok(said) => {
            let end = export(alloc, &said, shelf, input, output);
            end_command(notes, &command_end(end))
        }
        Err(WordsFault::NoMemory) => end_command(notes, &CommandEnd::NoMemory),
        Err(WordsFault::Refused) => end_command(notes, &CommandEnd::WordsRefused),
    }
}
