// `recover` by its words.
ghost use Rattle.std.specs.Prelude.{◌≡◌, ◌≤◌, ◌++◌, ◌⊎◌, ℕ, List, Option, Some};
ghost use Rattle.rail_io.specs.Faults.{Rose};
ghost use Rattle.host_words.specs.Options.{words_texts};
ghost use Rattle.host_words.specs.Recover.{IsNoRecover, IsRecover};
ghost use Rattle.host_catalogue.specs.Files.{OfCounts};
ghost use Rattle.host_catalogue.specs.Journals.{HasNoRecovery};
ghost use Rattle.host_catalogue.specs.Ends.{note_of};
ghost use Rattle.host_catalogue.specs.Noted.{TakesNote};
ghost use Rattle.host_catalogue.specs.declared.ending.CommandEnd.TheVariants.{WordsRefused};
ghost use Rattle.host_replay.specs.Recover.{HasEndCause, HasNoneToRecover, IsExportFrom, IsOfRefusedSource, RanRecover};
ghost use Rattle.host_replay.specs.Recover.{Recovers, end_of_recover, status_of_recover};
ghost use Rattle.host_replay.specs.declared.recover_end.RecoverEnd.{RecoverEnd};
ghost use Rattle.host_replay.specs.declared.recover_end.RecoverEnd.TheVariants as end;

use crate::recover_end::{RecoverEnd, command_end};
use host_catalogue::{CommandEnd, end_command, recover_export};
use host_words::{RecoverWords, read_recover};
use rail_io::{Shelf, Sink};
use session_loop::write_all;
use std::alloc::Global;

/// What the words ask for: the export of the journal.
fn recover<F: Shelf, K: Sink>(
    alloc: Global,
    said: &RecoverWords<'_>,
    shelf: &mut F,
    output: &mut K,
) -> RecoverEnd
    ensures ends { RanRecover (F.told shelf.old) said.now.catalogue.now said.now.journal.now
        (K.told output.old) (K.told output.new) result }
    ensures nothing_written { (result ≡ end.Written → ⊥) → (result ≡ end.WriteFault → ⊥) → output.new ≡ output.old }
    ensures same { F.told shelf.new ≡ F.told shelf.old }
    ensures write_cause { result ≡ end.WriteFault → Rose (K.faults output.old) (K.faults output.new) }
    ensures write_steady { (result ≡ end.WriteFault → ⊥) → K.faults output.new ≡ K.faults output.old }
    ensures cause { OfCounts F.faults F.misses shelf.old shelf.new (HasEndCause result) }
{
    let text = match recover_export(alloc, shelf, said.catalogue, said.journal) {
        Ok(text) => text,
        Err(fault) => return RecoverEnd::NotRecovered(fault),
    };
    if write_all(output, text.as_slice()) {
        RecoverEnd::Written
    } else {
        RecoverEnd::WriteFault
    }
}

/// `recover` by its words: the export of the bookings that a journal has after its last whole cut, with which books of
/// the catalogue open. Answers the status, and notes how it ended. It writes nothing but a whole export, unless the
/// output fails in it. The journal is only read, also while a host keeps it.
///
/// | status | where |
/// |---|---|
/// | 0 | the export is written |
/// | 1 | the catalogue is missing, larger than 33,554,432 bytes or refused; or the journal, at 4,294,967,295 bytes |
/// | 2 | the words are refused; nothing is written or fetched |
/// | 3 | the shelf failed in this call |
/// | 4 | the output failed in this call |
/// | 5 | there was no memory for the texts, the fold or the books |
///
/// That there was no memory at status 5 no clause says. A device that has failed as often as is counted may have failed
/// before this call.
pub fn run_recover<F: Shelf, K: Sink, E: Sink>(
    alloc: Global,
    words: &[String],
    shelf: &mut F,
    output: &mut K,
    notes: &mut E,
) -> u8
    // Status 2 comes exactly where the words are refused. Nothing is then touched but the notes.
    ensures words { result ≡ 2 → IsNoRecover (words_texts words.now) }
    ensures refused_words { IsNoRecover (words_texts words.now) → result ≡ 2 }
    ensures nothing_fetched { result ≡ 2 → shelf.new ≡ shelf.old }
    ensures refused { result ≡ 2 → TakesNote E.told E.faults notes.old notes.new (note_of WordsRefused) }

    // Else it is that of the command's end.
    ensures run { (result ≡ 2) ⊎ ((end : RecoverEnd) × (result ≡ status_of_recover end)
        × Recovers (words_texts words.now) (F.told shelf.old) (K.told output.old) (K.told output.new) end
        × TakesNote E.told E.faults notes.old notes.new (note_of (end_of_recover end))
        × OfCounts F.faults F.misses shelf.old shelf.new (HasEndCause end)) }
    ensures few { result ≤ 5 }

    // Where the output tells its bytes, those written are the export of the journal that the shelf gave: all of it, or
    // a beginning of it where the output failed. At every other status nothing is written.
    ensures recovered { (before : List ℕ) → K.told output.old ≡ Some before → result ≡ 0
        → (text : List ℕ) × (K.told output.new ≡ Some (before ++ text))
        × IsExportFrom (words_texts words.now) (F.told shelf.old) text }
    ensures write_fault { (before : List ℕ) → K.told output.old ≡ Some before → result ≡ 4
        → (front back : List ℕ) × (K.told output.new ≡ Some (before ++ front))
        × IsExportFrom (words_texts words.now) (F.told shelf.old) (front ++ back) }
    ensures nothing_written { (result ≡ 0 → ⊥) → (result ≡ 4 → ⊥) → output.new ≡ output.old }

    // A device's failure is answered where its count of faults rose in this call, or stands at its last value. At every
    // other status that count is as it was.
    ensures read_cause { result ≡ 3 → Rose (F.faults shelf.old) (F.faults shelf.new) }
    ensures write_cause { result ≡ 4 → Rose (K.faults output.old) (K.faults output.new) }
    ensures write_steady { (result ≡ 4 → ⊥) → K.faults output.new ≡ K.faults output.old }
    ensures shelf_steady { (result ≡ 3 → ⊥) → F.faults shelf.new ≡ F.faults shelf.old }

    // Status 1 comes where the shelf has nothing to recover from: of the catalogue's name or of the journal's no file,
    // one too large, or a text that is refused. Where it has none, and tells so, no other status comes but for its
    // failure and where memory runs out.
    ensures without { result ≡ 1 → HasNoneToRecover (words_texts words.now) (F.told shelf.old) }
    ensures no_books { (files : List ℕ → Option (List ℕ)) → F.told shelf.old ≡ Some files
        → (catalogue journal : List ℕ) → IsRecover (words_texts words.now) catalogue journal
        → HasNoRecovery files catalogue journal → (result ≡ 1) ⊎ (result ≡ 3) ⊎ (result ≡ 5) }
    ensures missed { result ≡ 1 → Rose (F.misses shelf.old) (F.misses shelf.new)
        ⊎ IsOfRefusedSource (words_texts words.now) (F.told shelf.old) }
    ensures files { F.told shelf.new ≡ F.told shelf.old }
{
    let Some(said) = read_recover(words) else {
        return end_command(notes, &CommandEnd::WordsRefused);
    };
    let end = recover(alloc, &said, shelf, output);
    end_command(notes, &command_end(end))
}
