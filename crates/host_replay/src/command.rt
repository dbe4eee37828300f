// `replay` over one connection.
ghost use Rattle.std.specs.Prelude.{◌≡◌, ◌++◌, ◌⊎◌, ℕ, List, Option, Some};
ghost use Rattle.rail_io.specs.Told.{with_front, with_end, WritesWhere};
ghost use Rattle.rail_io.specs.Faults.{Rose};
ghost use Rattle.session_loop.specs.declared.end.ConnEnd.TheVariants.{ReadFault, WriteFault};
ghost use Rattle.claim_rule.specs.Openings.{KeptBooking};
ghost use Rattle.host_words.specs.Options.{words_texts};
ghost use Rattle.host_words.specs.Replay.{ReplayView};
ghost use Rattle.host_words.specs.Said.{view_of};
ghost use Rattle.host_words.specs.declared.command.CommandName.TheVariants.{Replay};
ghost use Rattle.host_catalogue.specs.Opening.{HasNoBooks, IsOpened};
ghost use Rattle.host_catalogue.specs.Files.{OfCounts};
ghost use Rattle.host_catalogue.specs.Ends.{note_of};
ghost use Rattle.host_catalogue.specs.Noted.{TakesNote};
ghost use Rattle.host_catalogue.specs.declared.ending.CommandEnd.TheVariants.{WordsRefused};
ghost use Rattle.host_replay.specs.Input.{HasShelfCause, IsInputEnd, IsOfRefusedText, IsUntouched, IsWithoutBooks};
ghost use Rattle.host_replay.specs.Input.{end_of_replay, opening, status_of_replay, told_of};
ghost use Rattle.host_replay.specs.Replay.{RanReplay, IsForReplay, IsNoReplay, IsReplay, RepliesAll, RepliesCut};
ghost use Rattle.host_replay.specs.Replay.{Replays, RepliesPart, RepliesTaken};
ghost use Rattle.host_replay.specs.declared.end.ReplayEnd.{ReplayEnd};
ghost use Rattle.host_replay.specs.declared.end.ReplayEnd.TheVariants.{Served};

use crate::end::{ReplayEnd, command_end};
use catalogue_contents::Catalogue;
use claim_rule::{Books, Desk};
use host_catalogue::{CommandEnd, end_command, load_books};
use host_words::{ReplayWords, WordsFault, read_replay};
use rail_io::{ScriptClock, Shelf, Sink, Source};
use rail_service::serve_connection;
use session_loop::ConnEnd;
use std::alloc::Global;

/// One connection at the first desk of the books, with the clock of the words.
fn serve<S: Source, K: Sink>(
    alloc: Global,
    opened: (Catalogue, Books, Desk),
    said: &ReplayWords<'_>,
    input: &mut S,
    output: &mut K,
) -> ConnEnd
    requires opened { (kept : List KeptBooking) × IsOpened opened.0 kept opened.1 opened.2 }
    ensures serves { (taken written : List ℕ)
        × (S.told input.old ≡ with_front taken (S.told input.new))
        × (K.told output.new ≡ with_end (K.told output.old) written)
        × IsInputEnd opened.0 (opening opened.2 (view_of said.now)) taken (S.told input.new) written result }
    ensures read_cause { result ≡ ReadFault → Rose (S.faults input.old) (S.faults input.new) }
    ensures write_cause { result ≡ WriteFault → Rose (K.faults output.old) (K.faults output.new) }
    ensures read_steady { (result ≡ ReadFault → ⊥) → S.faults input.new ≡ S.faults input.old }
    ensures write_steady { (result ≡ WriteFault → ⊥) → K.faults output.new ≡ K.faults output.old }
{
    let (catalogue, books, mut desk) = opened;
    let mut clock = ScriptClock {
        next: said.start,
        tick: said.tick,
    };
    serve_connection(
        alloc, &catalogue, &books, &mut desk, input, output, &mut clock,
    )
}

/// What the words ask for: the catalogue of their file, served to the input.
fn replay<F: Shelf, S: Source, K: Sink>(
    alloc: Global,
    said: &ReplayWords<'_>,
    shelf: &mut F,
    input: &mut S,
    output: &mut K,
) -> ReplayEnd
    ensures ends { RanReplay (view_of said.now) (F.told shelf.old)
        (told_of (S.told input.old) (S.told input.new) (K.told output.old) (K.told output.new)) result }
    ensures same { F.told shelf.new ≡ F.told shelf.old }
    ensures read_cause { result ≡ Served ReadFault → Rose (S.faults input.old) (S.faults input.new) }
    ensures write_cause { result ≡ Served WriteFault → Rose (K.faults output.old) (K.faults output.new) }
    ensures read_steady { (result ≡ Served ReadFault → ⊥) → S.faults input.new ≡ S.faults input.old }
    ensures write_steady { (result ≡ Served WriteFault → ⊥) → K.faults output.new ≡ K.faults output.old }
    ensures cause { OfCounts F.faults F.misses shelf.old shelf.new (HasShelfCause result) }
{
    let opened = match load_books(alloc, shelf, said.catalogue, said.from) {
        Ok(opened) => opened,
        Err(fault) => return ReplayEnd::NotLoaded(fault),
    };
    ReplayEnd::Served(serve(alloc, opened, said, input, output))
}

/// `replay` by its words, of which the first is the command's name: it serves the catalogue of the named file to the
/// input as one connection, with the words' clock. Its books open with the bookings of the export that the words name,
/// or with none. Answers the status, and notes how it ended.
///
/// | status | where |
/// |---|---|
/// | 0 | all requests of the input are answered, to its end or to the last of the connection |
/// | 1 | the catalogue is missing, larger than 33,554,432 bytes, or refused; or the export is, at 268,435,456 bytes |
/// | 2 | the words are refused; nothing is read, written or fetched |
/// | 3 | the input or the shelf failed in this call |
/// | 4 | the output failed in this call |
/// | 5 | there was no memory to begin with |
/// | 6 | the input ended inside a request, or was refused |
///
/// That there was no memory at status 5 no clause says. A device that has failed as often as is counted may have failed
/// before this call.
pub fn run_replay<F: Shelf, S: Source, K: Sink, E: Sink>(
    alloc: Global,
    words: &[String],
    shelf: &mut F,
    input: &mut S,
    output: &mut K,
    notes: &mut E,
) -> u8
    requires command { IsForReplay (words_texts words.now) }

    // Status 2 comes exactly where the words are refused, unless there was no memory to read them. Nothing is then
    // touched but the notes.
    ensures words { result ≡ 2 → IsNoReplay (words_texts words.now) }
    ensures refused_words { IsNoReplay (words_texts words.now) → (result ≡ 2) ⊎ (result ≡ 5) }
    ensures nothing_read { result ≡ 2 → input.new ≡ input.old }
    ensures nothing_written { result ≡ 2 → output.new ≡ output.old }
    ensures nothing_fetched { result ≡ 2 → shelf.new ≡ shelf.old }
    ensures refused { result ≡ 2 → TakesNote E.told E.faults notes.old notes.new (note_of WordsRefused) }

    // Else it is that of the command's end, and the bytes written are the answers of the bytes taken.
    ensures run { (result ≡ 2) ⊎ ((end : ReplayEnd) × (result ≡ status_of_replay end)
        × Replays (words_texts words.now) (F.told shelf.old)
        (told_of (S.told input.old) (S.told input.new) (K.told output.old) (K.told output.new)) end
        × TakesNote E.told E.faults notes.old notes.new (note_of (end_of_replay end))
        × OfCounts F.faults F.misses shelf.old shelf.new (HasShelfCause end)) }

    // Where the input and the output tell their bytes, those written are the defined answers of those to come.
    ensures served { WritesWhere (result ≡ 0) (S.told input.old) (K.told output.old) (K.told output.new)
        (RepliesAll (words_texts words.now) (F.told shelf.old)) }
    ensures cut { WritesWhere (result ≡ 6) (S.told input.old) (K.told output.old) (K.told output.new)
        (RepliesCut (words_texts words.now) (F.told shelf.old)) }
    ensures read_fault { (stream before : List ℕ) → S.told input.old ≡ Some stream → K.told output.old ≡ Some before
        → result ≡ 3
        → IsUntouched (told_of (S.told input.old) (S.told input.new) (K.told output.old) (K.told output.new))
        ⊎ ((written : List ℕ) × (K.told output.new ≡ Some (before ++ written))
        × RepliesTaken (words_texts words.now) (F.told shelf.old) stream (S.told input.new) written) }
    ensures write_fault { WritesWhere (result ≡ 4) (S.told input.old) (K.told output.old) (K.told output.new)
        (λ stream written. RepliesPart (words_texts words.now) (F.told shelf.old) stream (S.told input.new) written) }

    // A device's failure is answered where its count of faults rose in this call, or stands at its last value. At every
    // other status that count is as it was.
    ensures read_cause { result ≡ 3 → Rose (S.faults input.old) (S.faults input.new)
        ⊎ Rose (F.faults shelf.old) (F.faults shelf.new) }
    ensures write_cause { result ≡ 4 → Rose (K.faults output.old) (K.faults output.new) }
    ensures read_steady { (result ≡ 3 → ⊥) → S.faults input.new ≡ S.faults input.old }
    ensures write_steady { (result ≡ 4 → ⊥) → K.faults output.new ≡ K.faults output.old }
    ensures shelf_steady { (result ≡ 3 → ⊥) → F.faults shelf.new ≡ F.faults shelf.old }

    // Status 1 comes where the shelf has no books: of the catalogue's name or of the export's no file, one too large,
    // or a text that is refused. Where it has none, and tells so, no other status comes but for its failure and
    // where memory runs out.
    ensures without { result ≡ 1 → IsWithoutBooks Replay (words_texts words.now) (F.told shelf.old) }
    ensures no_books { (files : List ℕ → Option (List ℕ)) → F.told shelf.old ≡ Some files → (said : ReplayView)
        → IsReplay (words_texts words.now) said → HasNoBooks files said.catalogue said.from
        → (result ≡ 1) ⊎ (result ≡ 3) ⊎ (result ≡ 5) }
    ensures missed { result ≡ 1 → Rose (F.misses shelf.old) (F.misses shelf.new)
        ⊎ IsOfRefusedText Replay (words_texts words.now) (F.told shelf.old) }
    ensures files { F.told shelf.new ≡ F.told shelf.old }
{
    match read_replay(alloc, words) {
        Ok(said) => {
            let end = replay(alloc, &said, shelf, input, output);
            end_command(notes, &command_end(end))
        }
        Err(WordsFault::NoMemory) => end_command(notes, &CommandEnd::NoMemory),
        Err(WordsFault::Refused) => end_command(notes, &CommandEnd::WordsRefused),
    }
}
