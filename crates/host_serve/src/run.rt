// `serve` by its words.
ghost use Rattle.std.specs.Prelude.{◌≡◌, ◌⊎◌, ◌≤◌, ℕ, List, Option, Some, None, IfOk, IfErr, IsSomeAnd, length, map};
ghost use Rattle.std.specs.Prelude.{option_map};
ghost use Rattle.rail_io.specs.Faults.{Rose};
ghost use Rattle.rail_io.specs.Told.{with_end};
ghost use Rattle.claim_rule.specs.Openings.{KeptBooking, layout_with};
ghost use Rattle.cold_store.specs.Exports.{text_on};
ghost use Rattle.cold_store.specs.Tidy.{AreSucceeded};
ghost use Rattle.catalogue_contents.specs.Contents.{legs_in};
ghost use Rattle.host_words.specs.Limits.{clock_count};
ghost use Rattle.host_words.specs.Options.{words_texts};
ghost use Rattle.host_words.specs.Said.{said_in};
ghost use Rattle.host_words.specs.Serve.{IsInRange, ServeView};
ghost use Rattle.host_words.specs.declared.fault.WordsFault.TheVariants as words_fault;
ghost use Rattle.host_catalogue.specs.Files.{HasCause};
ghost use Rattle.host_catalogue.specs.Opening.{Fails, HasBooks, HasNoBooks};
ghost use Rattle.worker_pool.specs.Crews.{IsFirst};
ghost use Rattle.host_journal.specs.Ends.{status_of_serve};
ghost use Rattle.host_journal.specs.Causes.{HasShelfCause};
ghost use Rattle.host_serve.specs.Serve.{Ends, IsExporting, IsNoServe, IsOfRefusedText, IsOnlyLimited};
ghost use Rattle.host_serve.specs.Serve.{IsServe};
ghost use Rattle.host_serve.specs.Serve.{IsWithoutBooks, Runs, left_by};
ghost use Rattle.host_serve.specs.Telling.{IsBefore, IsTold, Tells};
ghost use Rattle.host_serve.specs.Turns.{Asks, HasCatalogue};
ghost use Rattle.host_journal.specs.declared.end.ServeOutcome.{ServeOutcome};
ghost use Rattle.host_journal.specs.declared.end.ServeOutcome.TheVariants as outcome;

use crate::devices::Devices;
use crate::kept::serve_kept;
use host_journal::{Keeping, ServeEnd};
use rail_io::{Clock, MemoryJournal, NoBell, Shelf, Sink, Ticker};
use rail_service::Listener;
use std::alloc::Global;
use std::sync::Wait;
use std::thread::Threads;

/// Serves a catalogue to connections. As many members as the words say take streams in turn from the listener behind a
/// lock, each at a desk and a clock of its own, and one further member sweeps at each tick but maybe the last. The
/// words are those after the program's name: `serve`, the name of the catalogue's file, `--port`, and with `--workers`,
/// `--connections` and `--sweep` how many members serve, how many connections are taken, and the seconds from one sweep
/// to the next. With `--from` the books open with the bookings of the export of this name. With `--export` the export
/// of the books is written to the notes at the end. After a failed accept it is to be too.
///
/// | status | where |
/// |---|---|
/// | 0 | as many connections as were asked for have ended, and the export is written, if it was asked for |
/// | 1 | the catalogue is missing, larger than 33,554,432 bytes, or refused; or the export is, at 268,435,456 bytes |
/// | 2 | the words are refused, before anything is read |
/// | 3 | the shelf failed in this call, or the listener did, and has handed out fewer connections than were asked for |
/// | 4 | all connections have ended, and the notes failed in the writing of the export |
/// | 5 | there was no memory to begin with, or, where all connections have ended, for the export |
///
/// That there was no memory at status 5 no clause says. Each has the note of its end, after the export. A device that
/// has failed as often as is counted may have failed before this call. After a failed accept the status is 3, whatever
/// becomes of the export. The notes take all of it, a front of it where they fail, or nothing of it, of which no clause
/// says a cause.
///
/// The end of one connection changes no status, and neither does a note that fails. It may wait, so all this is said
/// where it returns. Wherever a stream was handed out, the books are finished and handed back. In the wall's history
/// the first desk only met others, each serving member's entries are those of the connections that it served, and the
/// last member's those of its sweeps; no other desk has any. Each desk is between two calls of the service, so that the
/// wall has an export. All these desks are of one set of books, which the first finished: the wall is theirs, and so is
/// the export. The members served as many connections together as the listener has handed out streams: at status 0 as
/// many as the words say. Each of these came by a stream that this very listener has handed out, after some calls of
/// it. Which one, and how many of them had a request, is said by no clause. A connection for which there was no memory
/// has taken, written and done nothing: so that each stream was served is said by its type, which lets it be spent by
/// serving alone, and by no clause.
pub fn run_serve<
    R: Threads + Wait + Sync,
    F: Shelf,
    L: Listener + Drop + Send,
    T: Ticker + Drop + Send,
    C: Clock + Drop + Send,
    E: Sink,
>(
    rt: &R,
    alloc: Global,
    words: &[String],
    shelf: &mut F,
    listener: L,
    ticker: T,
    clocks: Vec<C>,
    notes: &mut E,
) -> ServeEnd<L>
where
    L::Input: Send,
    L::Output: Send,
    requires clocks { length clocks.items ≡ clock_count }
    requires fresh { (L.told listener).handed ≡ 0 }

    // Status 2 comes exactly where the words are refused, but where there is no memory to read them. Nothing is touched
    // then but the notes.
    ensures words { result.status ≡ 2 → IsNoServe (words_texts words.now) }
    ensures refused_words { IsNoServe (words_texts words.now) → (result.status ≡ 2) ⊎ (result.status ≡ 5) }
    ensures nothing_fetched { result.status ≡ 2 → shelf.new ≡ shelf.old }
    ensures nothing_heard { result.status ≡ 2 → result.listener ≡ listener }
    ensures refused_wall { result.status ≡ 2 → result.wall ≡ None }

    // The status is that of the end, and the command ran so. The notes took the export, if it was asked for and there
    // are books, and the note of the end.
    ensures run { (outcome : ServeOutcome) × (result.status ≡ status_of_serve outcome)
        × Runs (words_texts words.now) (F.told shelf.old)
        (left_by L.told L.faults L.becomes L.hands (map C.told clocks.items) (Asks T.ticked ticker)
        listener result.listener result.wall)
        outcome
        × IsTold (words_texts words.now) result.wall
        (record {
          before = E.told notes.old;
          failed = E.faults notes.old;
          after = E.told notes.new;
          fails = E.faults notes.new;
        })
        outcome
        × HasShelfCause outcome (F.faults shelf.old) (F.faults shelf.new) (F.misses shelf.old) (F.misses shelf.new) }

    // At status 0 the notes took just the export of the wall handed back, if it was asked for. At status 4 they failed
    // in it.
    ensures exported { result.status ≡ 0 → IsExporting (words_texts words.now)
        → IsSomeAnd result.wall (λ w. E.told notes.new ≡ with_end (E.told notes.old) (text_on w)) }
    ensures write_cause { result.status ≡ 4 → IsExporting (words_texts words.now)
        × Rose (E.faults notes.old) (E.faults notes.new) }

    // A wall is missing only at a status other than 0. At status 3 it is missing only where the shelf failed, or the
    // bind did, which leaves the listener as it was but for its limit: a failed accept hands the wall back.
    ensures wall { result.status ≡ 0 → result.wall ≡ None → ⊥ }
    ensures no_wall { result.status ≡ 3 → result.wall ≡ None → Rose (F.faults shelf.old) (F.faults shelf.new)
        ⊎ IsOnlyLimited (words_texts words.now) (L.told listener) (L.told result.listener) }

    // Status 1 comes where the shelf has no books: of the catalogue's name or of the export's no file, one too large,
    // or a text that is refused. Where it has none, and tells so, no other status comes, unless it fails or there is no
    // memory.
    ensures without { result.status ≡ 1 → IsWithoutBooks (words_texts words.now) (F.told shelf.old) }
    ensures no_books { (files : List ℕ → Option (List ℕ)) → F.told shelf.old ≡ Some files → (said : ServeView)
        → IsServe (words_texts words.now) said → HasNoBooks files said.catalogue said.from
        → (result.status ≡ 1)
        ⊎ ((result.status ≡ 3) × Rose (F.faults shelf.old) (F.faults shelf.new))
        ⊎ (result.status ≡ 5) }
    ensures missed { result.status ≡ 1 → Rose (F.misses shelf.old) (F.misses shelf.new)
        ⊎ IsOfRefusedText (words_texts words.now) (F.told shelf.old) }

    // A failure is answered where a count of faults rose in this call, or stands at its last value. Both counts are as
    // they were at every other status: after a failed accept none other comes. The listener's never falls.
    ensures read_cause { result.status ≡ 3 → Rose (L.faults listener) (L.faults result.listener)
        ⊎ Rose (F.faults shelf.old) (F.faults shelf.new) }
    ensures shelf_steady { (result.status ≡ 3 → ⊥) → F.faults shelf.new ≡ F.faults shelf.old }
    ensures never_falls { L.faults listener ≤ L.faults result.listener }
    ensures steady { (result.status ≡ 3 → ⊥) → L.faults result.listener ≡ L.faults listener }
    ensures files { F.told shelf.new ≡ F.told shelf.old }
{
    let devices = Devices {
        listener,
        ticker,
        clocks,
        findings: None,
    };
    let none: Option<Keeping<'_, MemoryJournal, NoBell>> = None;
    serve_kept(rt, alloc, words, shelf, devices, none, notes)
}
