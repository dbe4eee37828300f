// `settle` by its words.
ghost use Rattle.std.specs.Prelude.{◌≡◌, ◌≤◌, ◌++◌, ◌⊎◌, ℕ, List, [], Option, Some, IfOk};
ghost use Rattle.rail_io.specs.Faults.{Rose};
ghost use Rattle.claim_rule.specs.Out.{IsTidy};
ghost use Rattle.claim_rule.specs.Desks.{IsNew, IsOf};
ghost use Rattle.host_words.specs.Options.{words_texts};
ghost use Rattle.host_words.specs.Settle.{IsNoSettle, IsSettle};
ghost use Rattle.host_catalogue.specs.Opening.{HasNoBooks};
ghost use Rattle.host_catalogue.specs.Files.{OfCounts};
ghost use Rattle.host_catalogue.specs.Ends.{note_of};
ghost use Rattle.host_catalogue.specs.Noted.{TakesNote};
ghost use Rattle.host_catalogue.specs.declared.ending.CommandEnd.TheVariants.{WordsRefused};
ghost use Rattle.host_replay.specs.Settle.{RanSettle, HasNoneToSettle, HasSettleCause, IsOfRefusedFile, IsTableFor};
ghost use Rattle.host_replay.specs.Settle.{IsTableOf, Settles};
ghost use Rattle.host_replay.specs.Settle.{end_of_settle, status_of_settle};
ghost use Rattle.host_replay.specs.declared.settle_end.SettleEnd.{SettleEnd};
ghost use Rattle.host_replay.specs.declared.settle_end.SettleEnd.TheVariants as end;

use crate::settle_end::{SettleEnd, command_end};
use claim_rule::{Books, Desk};
use host_catalogue::{CommandEnd, end_command, load_books};
use host_words::{SettleWords, read_settle};
use rail_io::{Shelf, Sink};
use session_loop::write_all;
use settle_report::settlement;
use std::alloc::{AllocError, Global};

/// The settlement table of books that their first desk finishes at once.
fn table_of(alloc: Global, books: Books, desk: Desk) -> Result<Vec<u8>, AllocError>
    requires own { IsOf books desk }
    requires new { IsNew desk 0 [] }
    requires tidy { IsTidy desk }
    ensures { IfOk result (λ text. IsTableOf books.layout text.items) }
{
    let _ = books.rows();
    settlement(alloc, &books.finish(desk))
}

/// What the words ask for: the settlement table of the books of both files.
fn settle<F: Shelf, K: Sink>(
    alloc: Global,
    said: &SettleWords<'_>,
    shelf: &mut F,
    output: &mut K,
) -> SettleEnd
    ensures ends { RanSettle (F.told shelf.old) said.now.catalogue.now said.now.export.now
        (K.told output.old) (K.told output.new) result }
    ensures nothing_written { (result ≡ end.Written → ⊥) → (result ≡ end.WriteFault → ⊥) → output.new ≡ output.old }
    ensures same { F.told shelf.new ≡ F.told shelf.old }
    ensures write_cause { result ≡ end.WriteFault → Rose (K.faults output.old) (K.faults output.new) }
    ensures write_steady { (result ≡ end.WriteFault → ⊥) → K.faults output.new ≡ K.faults output.old }
    ensures cause { OfCounts F.faults F.misses shelf.old shelf.new (HasSettleCause result) }
{
    let (_catalogue, books, desk) = match load_books(
        alloc,
        shelf,
        said.catalogue,
        Some(said.export),
    ) {
        Ok(opened) => opened,
        Err(fault) => return SettleEnd::NotLoaded(fault),
    };
    let Ok(table) = table_of(alloc, books, desk) else {
        return SettleEnd::NoMemory;
    };
    if write_all(output, table.as_slice()) {
        SettleEnd::Written
    } else {
        SettleEnd::WriteFault
    }
}

/// `settle` by its words: the settlement table of the books of a catalogue that open with the bookings of an export.
/// Answers the status, and notes how it ended. It writes nothing but a whole table, unless the output fails in it.
///
/// | status | where |
/// |---|---|
/// | 0 | the table is written |
/// | 1 | the catalogue is missing, larger than 33,554,432 bytes, or refused; or the export is, at 268,435,456 bytes |
/// | 2 | the words are refused; nothing is written or fetched |
/// | 3 | the shelf failed in this call |
/// | 4 | the output failed in this call |
/// | 5 | there was no memory for the books or for the table |
///
/// That there was no memory at status 5 no clause says. A device that has failed as often as is counted may have failed
/// before this call.
pub fn run_settle<F: Shelf, K: Sink, E: Sink>(
    alloc: Global,
    words: &[String],
    shelf: &mut F,
    output: &mut K,
    notes: &mut E,
) -> u8
    // Status 2 comes exactly where the words are refused. Nothing is then touched but the notes.
    ensures words { result ≡ 2 → IsNoSettle (words_texts words.now) }
    ensures refused_words { IsNoSettle (words_texts words.now) → result ≡ 2 }
    ensures nothing_fetched { result ≡ 2 → shelf.new ≡ shelf.old }
    ensures refused { result ≡ 2 → TakesNote E.told E.faults notes.old notes.new (note_of WordsRefused) }

    // Else it is that of the command's end.
    ensures run { (result ≡ 2) ⊎ ((end : SettleEnd) × (result ≡ status_of_settle end)
        × Settles (words_texts words.now) (F.told shelf.old) (K.told output.old) (K.told output.new) end
        × TakesNote E.told E.faults notes.old notes.new (note_of (end_of_settle end))
        × OfCounts F.faults F.misses shelf.old shelf.new (HasSettleCause end)) }
    ensures few { result ≤ 5 }

    // Where the output tells its bytes, those written are the settlement table for the texts that the shelf gave: all
    // of it, or a beginning of it where the output failed. At every other status nothing is written.
    ensures settled { (before : List ℕ) → K.told output.old ≡ Some before → result ≡ 0
        → (text : List ℕ) × (K.told output.new ≡ Some (before ++ text))
        × IsTableFor (words_texts words.now) (F.told shelf.old) text }
    ensures write_fault { (before : List ℕ) → K.told output.old ≡ Some before → result ≡ 4
        → (front back : List ℕ) × (K.told output.new ≡ Some (before ++ front))
        × IsTableFor (words_texts words.now) (F.told shelf.old) (front ++ back) }
    ensures nothing_written { (result ≡ 0 → ⊥) → (result ≡ 4 → ⊥) → output.new ≡ output.old }

    // A device's failure is answered where its count of faults rose in this call, or stands at its last value. At every
    // other status that count is as it was.
    ensures read_cause { result ≡ 3 → Rose (F.faults shelf.old) (F.faults shelf.new) }
    ensures write_cause { result ≡ 4 → Rose (K.faults output.old) (K.faults output.new) }
    ensures write_steady { (result ≡ 4 → ⊥) → K.faults output.new ≡ K.faults output.old }
    ensures shelf_steady { (result ≡ 3 → ⊥) → F.faults shelf.new ≡ F.faults shelf.old }

    // Status 1 comes where the shelf has no books: of the catalogue's name or of the export's no file, one too large,
    // or a text that is refused. Where it has none, and tells so, no other status comes but for its failure and
    // where memory runs out.
    ensures without { result ≡ 1 → HasNoneToSettle (words_texts words.now) (F.told shelf.old) }
    ensures no_books { (files : List ℕ → Option (List ℕ)) → F.told shelf.old ≡ Some files → (catalogue export : List ℕ)
        → IsSettle (words_texts words.now) catalogue export → HasNoBooks files catalogue (Some export)
        → (result ≡ 1) ⊎ (result ≡ 3) ⊎ (result ≡ 5) }
    ensures missed { result ≡ 1 → Rose (F.misses shelf.old) (F.misses shelf.new)
        ⊎ IsOfRefusedFile (words_texts words.now) (F.told shelf.old) }
    ensures files { F.told shelf.new ≡ F.told shelf.old }
{
    let Some(said) = read_settle(words) else {
        return end_command(notes, &CommandEnd::WordsRefused);
    };
    let end = settle(alloc, &said, shelf, output);
    end_command(notes, &command_end(end))
}
