// `serve` with a journal, or without one.
ghost use Rattle.std.specs.Prelude.{◌≡◌, ◌⊎◌, ◌≤◌, ℕ, List, Option, None, IfOk, IfErr, IfSome};
ghost use Rattle.std.specs.Prelude.{MatchOption, length, true};
ghost use Rattle.cold_store.specs.Exports.{IsClosed};
ghost use Rattle.cold_store.specs.Tidy.{IsTidyWall};
ghost use Rattle.host_words.specs.Limits.{clock_count};
ghost use Rattle.host_words.specs.Options.{words_texts};
ghost use Rattle.host_words.specs.Said.{said_in};
ghost use Rattle.host_words.specs.Serve.{IsInRange};
ghost use Rattle.host_words.specs.declared.fault.WordsFault.TheVariants as words_fault;
ghost use Rattle.host_catalogue.specs.Ends.{note_of};
ghost use Rattle.host_catalogue.specs.Noted.{IsNoted};
ghost use Rattle.host_journal.specs.Ends.{end_of_kept, end_of_serve, status_of_kept, status_of_serve};
ghost use Rattle.host_serve.specs.Kept.{EndsAlone, EndsKept, IsNotSaid, IsSaid, Scene, WritesKept};
ghost use Rattle.host_serve.specs.Serve.{IsNoServe, heard, left_of};
ghost use Rattle.host_journal.specs.declared.end.KeptOutcome.{KeptOutcome};

use crate::books::Run;
use crate::devices::Devices;
use crate::export::write_export;
use crate::given::Given;
use claim_rule::Wall;
use host_catalogue::end_command;
use host_journal::{Keeping, KeptOutcome, ServeEnd, ServeOutcome, command_end, kept_end};
use host_words::{CommandName, ServeWords, WordsFault, is_for, read_serve};
use rail_io::{Bell, Clock, Journal, Shelf, Sink, Ticker};
use rail_service::Listener;
use std::alloc::Global;
use std::sync::Wait;
use std::thread::Threads;

/// What the words of `serve` say.
fn said_of<'a>(alloc: Global, words: &'a [String]) -> Result<ServeWords<'a>, WordsFault>
    ensures ok { IfOk result (λ said. IsSaid (words_texts words.now) (said_in said)) }
    ensures ranges { IfOk result (λ said. IsInRange said.numbers) }
    ensures refused { IfErr result (λ e. e ≡ words_fault.Refused → IsNotSaid (words_texts words.now)) }
{
    if !is_for(words, CommandName::Serve) {
        return Err(WordsFault::Refused);
    }
    read_serve(alloc, words)
}

/// Writes the export of the wall, where there is one and it is asked for: how serving ends then, which had ended so. An
/// end that isn't one of serving alone stays, whatever becomes of the text. Where nothing of it is written at such an
/// end, no clause says a cause.
fn write_kept<E: Sink>(
    alloc: Global,
    wall: &Option<Wall>,
    export: &mut E,
    outcome: KeptOutcome,
) -> KeptOutcome
    requires closed { IfSome wall.now IsClosed }
    requires tidy { IfSome wall.now IsTidyWall }
    ensures { WritesKept true wall.now
        (record {
          before = E.told export.old;
          failed = E.faults export.old;
          after = E.told export.new;
          fails = E.faults export.new;
        })
        outcome result }
{
    match outcome {
        KeptOutcome::Plain(outcome) => KeptOutcome::Plain(write_export(
            alloc, wall, export, outcome,
        )),
        other => {
            let _same = write_export(alloc, wall, export, ServeOutcome::AcceptFailed);
            other
        }
    }
}

/// Writes the export of the wall, where it is asked for.
fn export_kept<E: Sink>(
    alloc: Global,
    wall: &Option<Wall>,
    exports: bool,
    notes: &mut E,
    outcome: KeptOutcome,
) -> KeptOutcome
    requires closed { IfSome wall.now IsClosed }
    requires tidy { IfSome wall.now IsTidyWall }
    ensures { WritesKept exports wall.now
        (record {
          before = E.told notes.old;
          failed = E.faults notes.old;
          after = E.told notes.new;
          fails = E.faults notes.new;
        })
        outcome result }
{
    if exports {
        write_kept(alloc, wall, notes, outcome)
    } else {
        outcome
    }
}

/// The status of the command after a run: writes the export of the wall, where it is asked for, and the note.
fn end_run<E: Sink>(
    alloc: Global,
    wall: &Option<Wall>,
    exports: bool,
    notes: &mut E,
    outcome: KeptOutcome,
) -> u8
    requires closed { IfSome wall.now IsClosed }
    requires tidy { IfSome wall.now IsTidyWall }
    ensures { (ended : KeptOutcome) × (between : Option (List ℕ)) × (count : ℕ)
        × WritesKept exports wall.now
        (record { before = E.told notes.old; failed = E.faults notes.old; after = between; fails = count })
        outcome ended
        × IsNoted between (E.told notes.new) count (E.faults notes.new) (note_of (end_of_kept ended))
        × (result ≡ status_of_kept ended) × (count ≤ E.faults notes.new) }
{
    let ended = export_kept(alloc, wall, exports, notes, outcome);
    end_command(notes, &kept_end(ended))
}

/// Ends the command where its words weren't read, or were refused.
fn end_unread<E: Sink, L>(outcome: ServeOutcome, listener: L, notes: &mut E) -> ServeEnd<L>
    ensures listener { result.listener ≡ listener }
    ensures wall { result.wall ≡ None }
    ensures status { result.status ≡ status_of_serve outcome }
    ensures noted { IsNoted (E.told notes.old) (E.told notes.new) (E.faults notes.old) (E.faults notes.new)
        (note_of (end_of_serve outcome)) }
    ensures later { E.faults notes.old ≤ E.faults notes.new }
{
    ServeEnd {
        status: end_command(notes, &command_end(outcome)),
        listener,
        wall: None,
    }
}

/// Serves a catalogue to connections as `run_serve` does, with a journal where the words name one by `--journal`. Then
/// the books begin with the bookings that the journal leaves, and one further member has what it looked at kept there.
/// Where there is no such journal they begin with those of the export that `--from` names, or with none.
///
/// | status | where |
/// |---|---|
/// | 1 | another host has the journal; it is there, and `--from` is given; it is too large; or its text is refused |
/// | 3 | the journal couldn't be read, or not be written anew, and nothing was served |
/// | 4 | the journal failed while its bookings were served, and all connections have ended |
///
/// Where it is called too large, it has 4,294,967,296 bytes or more; that each such one is, no clause says. All else is
/// as without a journal. Where the devices have somebody who asks what is in the books, one member more looks. In the
/// wall's history the desks of these further members, which are the last, only look. Words that name a journal are
/// refused where none is given.
///
/// No clause says that what that member saw is kept, nor that the journal has the causes above for another host, for
/// what couldn't be read or written, and for what failed. Nor that it is there, where it and `--from` are refused
/// together. That is read and tested.
pub fn serve_kept<
    'g,
    R: Threads + Wait + Sync,
    F: Shelf,
    L: Listener + Drop + Send,
    T: Ticker + Drop + Send,
    C: Clock + Drop + Send,
    J: Journal + Drop + Send,
    B: Bell + Drop + Send,
    E: Sink,
>(
    rt: &'g R,
    alloc: Global,
    words: &[String],
    shelf: &mut F,
    devices: Devices<'g, L, T, C>,
    keeping: Option<Keeping<'g, J, B>>,
    notes: &mut E,
) -> ServeEnd<L>
where
    L::Input: Send,
    L::Output: Send,
    requires clocks { length devices.clocks.items ≡ clock_count }
    requires fresh { (L.told devices.listener).handed ≡ 0 }

    // Without a journal it ended as a run alone; with one, as the words ask.
    ensures ended { (let scene : Scene = record {
      words = words_texts words.now;
      files = F.told shelf.old;
      failed = F.faults shelf.old;
      fails = F.faults shelf.new;
      missed = F.misses shelf.old;
      misses = F.misses shelf.new;
      left = left_of (heard L.told L.faults L.becomes L.hands) C.told T.ticked devices.entry result.listener
          result.wall;
      notes = record {
        before = E.told notes.old;
        failed = E.faults notes.old;
        after = E.told notes.new;
        fails = E.faults notes.new;
      };
    } in MatchOption keeping.entry (EndsAlone scene result.status)
        (λ k. EndsAlone scene result.status ⊎ EndsKept scene (J.told k.journal) result.status)) }
    // Status 2 comes only where the words are refused. Those that name a journal are, where there is none to have.
    ensures words { result.status ≡ 2 → MatchOption keeping.entry (IsNoServe (words_texts words.now))
        (λ _. IsNotSaid (words_texts words.now)) }
    ensures refused_wall { result.status ≡ 2 → result.wall ≡ None }
    ensures nothing_fetched { result.status ≡ 2 → shelf.new ≡ shelf.old }
    ensures nothing_heard { result.status ≡ 2 → result.listener ≡ devices.entry.listener }
    ensures never_falls { L.faults devices.entry.listener ≤ L.faults result.listener }
    ensures files { F.told shelf.new ≡ F.told shelf.old }
{
    let said = match said_of(alloc, words) {
        Ok(said) => said,
        Err(WordsFault::NoMemory) => {
            return end_unread(ServeOutcome::NoMemory, devices.listener, notes);
        }
        Err(WordsFault::Refused) => {
            return end_unread(ServeOutcome::Refused, devices.listener, notes);
        }
    };
    let given = Given {
        rt,
        alloc,
        said: &said,
        devices,
    };
    let Run {
        outcome,
        listener,
        wall,
    } = given.serve(shelf, keeping);
    let status = end_run(alloc, &wall, said.export, notes, outcome);
    ServeEnd {
        status,
        listener,
        wall,
    }
}
