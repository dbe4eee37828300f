// The top call of `drill`.
ghost use Rattle.std.specs.Prelude.{◌≡◌, ◌≤◌, ◌⊎◌, IfOk, IfErr, option_map, false, true};
ghost use Rattle.rail_io.specs.Faults.{Rose};
ghost use Rattle.host_words.specs.Options.{words_texts};
ghost use Rattle.session_loop.specs.Writes.{Writes};
ghost use Rattle.host_drill.specs.Drilled.{IsDrilled};
ghost use Rattle.host_drill.specs.Ends.{IsForDrill, IsDrill, IsNoDrill, Leaves, end_of_drill, printed};
ghost use Rattle.host_catalogue.specs.Ends.{note_of, status_of};
ghost use Rattle.host_catalogue.specs.Noted.{TakesNote};

use crate::catalogue::drill_catalogue;
use crate::counts::count_sold;
use crate::crew::{meet_all, open_crew, serve_all};
use crate::line::{Totals, line_of};
use claim_rule::Wall;
use host_catalogue::{CommandEnd, end_command, open_books};
use host_words::{CommandName, DrillWords, WordsFault, is_for, read_drill};
use rail_io::Sink;
use session_loop::write_all;
use std::alloc::{AllocError, Global};
use std::thread::Threads;

/// How a drill ended.
#[derive(Drop)]
pub struct DrillEnd {
    /// 0, 2, 4 or 5.
    pub status: u8,
    /// The finished books, where all was answered.
    pub wall: Option<Wall>,
}

/// Why a drill ended.
#[derive(Clone, Copy, PartialEq, Eq)]
pub enum Cause {
    /// All was answered, and the line is printed.
    Whole,
    /// The words are refused.
    Words,
    /// The output failed.
    Write,
    /// There was no memory.
    Memory,
}

/// The command's end.
fn command_end(cause: Cause) -> CommandEnd
    ensures { result ≡ end_of_drill cause }
{
    match cause {
        Cause::Whole => CommandEnd::Done,
        Cause::Words => CommandEnd::WordsRefused,
        Cause::Write => CommandEnd::WriteFault,
        Cause::Memory => CommandEnd::NoMemory,
    }
}

/// What the words say, which begin with the command's name.
fn said_of(alloc: Global, words: &[String]) -> Result<DrillWords, Cause>
    ensures ok { IfOk result (λ said. IsDrill (words_texts words.now) said) }
    ensures size { IfOk result (λ said. said.size ≤ 2_000) }
    ensures workers { IfOk result (λ said. said.workers ≤ 16) }
    ensures places { IfOk result (λ said. (1 ≤ said.places) × (said.places ≤ 1_200)) }
    ensures words { IfErr result (λ e. e ≡ Cause.Words → IsNoDrill (words_texts words.now)) }
    ensures memory { IfErr result (λ e. e ≡ Cause.Memory → IsForDrill (words_texts words.now)) }
    ensures causes { IfErr result (λ e. (e ≡ Cause.Words) ⊎ (e ≡ Cause.Memory)) }
{
    if !is_for(words, CommandName::Drill) {
        return Err(Cause::Words);
    }
    match read_drill(alloc, words) {
        Ok(said) => Ok(said),
        Err(WordsFault::Refused) => Err(Cause::Words),
        Err(WordsFault::NoMemory) => Err(Cause::Memory),
    }
}

/// Makes the connections, serves them all, and counts what they came to.
fn work<R: Threads + Sync>(
    rt: &R,
    alloc: Global,
    said: DrillWords,
) -> Result<(Wall, Totals), AllocError>
    requires size { said.size ≤ 2_000 }
    requires workers { said.workers ≤ 16 }
    requires some_place { 1 ≤ said.places }
    requires places { said.places ≤ 1_200 }
    ensures { IfOk result (λ t. IsDrilled said t.0 t.1) }
{
    let catalogue = drill_catalogue(alloc, said.places)?;
    let (books, mut desk) = open_books(alloc, &catalogue)?;
    let mut crew = open_crew(alloc, &books, &mut desk, said)?;
    serve_all(rt, alloc, &catalogue, &books, crew.as_mut_slice());
    let Some(answers) = meet_all(&catalogue, said, &books, &mut desk, crew) else {
        return Err(AllocError);
    };
    let wall = books.finish(desk);
    let sold = count_sold(&wall, catalogue.rows());
    let totals = Totals {
        requests: said.workers * said.size,
        sold,
        refused: answers.refused,
        busy: answers.busy,
        // No two live bookings of a legal history share a place on a leg, so no pair is to be counted.
        double: 0,
    };
    Ok((wall, totals))
}

/// Prints the line of the totals.
fn print<K: Sink>(output: &mut K, totals: Totals) -> Cause
    ensures cause { (result ≡ Cause.Whole) ⊎ (result ≡ Cause.Write) }
    ensures whole { result ≡ Cause.Whole → Writes (K.told output.old) (K.told output.new) (printed totals) true }
    ensures part { result ≡ Cause.Write → Writes (K.told output.old) (K.told output.new) (printed totals) false }
    ensures rose { result ≡ Cause.Write → Rose (K.faults output.old) (K.faults output.new) }
    ensures steady { result ≡ Cause.Whole → K.faults output.new ≡ K.faults output.old }
{
    if write_all(output, line_of(totals).as_slice()) {
        Cause::Whole
    } else {
        Cause::Write
    }
}

/// The drill of the words, and the books that it leaves.
fn drill<R: Threads + Sync, K: Sink>(
    rt: &R,
    alloc: Global,
    words: &[String],
    output: &mut K,
) -> (Cause, Option<Wall>)
    ensures leaves { Leaves (words_texts words.now) (K.told output.old) (K.told output.new)
        (option_map (λ w. w) result.1) result.0 }
    ensures write_cause { result.0 ≡ Cause.Write → Rose (K.faults output.old) (K.faults output.new) }
    ensures write_steady { (result.0 ≡ Cause.Write → ⊥) → K.faults output.new ≡ K.faults output.old }
    ensures nothing_written { result.0 ≡ Cause.Words → output.new ≡ output.old }
{
    let said = match said_of(alloc, words) {
        Ok(said) => said,
        Err(cause) => return (cause, None),
    };
    match work(rt, alloc, said) {
        Ok((wall, totals)) => (print(output, totals), Some(wall)),
        Err(_) => (Cause::Memory, None),
    }
}

/// Runs a drill by its words, of which the first is `drill`: `--seed N` (0 to 65,535), `--workers N` (1 to 16), `--size
/// N` (1 to 2,000) and `--places N` (1 to 1,200), all required.
///
/// | status | where |
/// |---|---|
/// | 0 | all requests were answered, and the line is printed |
/// | 2 | the words are refused |
/// | 4 | the output failed in this call |
/// | 5 | there was no memory for some part of it |
///
/// That there was no memory at status 5 no clause says. Each has the note of its end, and a failing note changes no
/// status. A device that has failed as often as is counted may have failed before this call. Threads are started for
/// the connections, and all are joined.
pub fn run_drill<R: Threads + Sync, K: Sink, E: Sink>(
    rt: &R,
    alloc: Global,
    words: &[String],
    output: &mut K,
    notes: &mut E,
) -> DrillEnd
    // How it ended, by its status; and what it leaves: the line printed, and the books that it counts.
    ensures ends { (cause : Cause) × (result.status ≡ status_of (end_of_drill cause))
        × Leaves (words_texts words.now) (K.told output.old) (K.told output.new) (option_map (λ w. w) result.wall) cause
        × TakesNote E.told E.faults notes.old notes.new (note_of (end_of_drill cause)) }

    // Status 2 comes exactly where the words are refused. Nothing is then written.
    ensures refused { IsNoDrill (words_texts words.now)
        → (result.status ≡ 2) ⊎ ((result.status ≡ 5) × IsForDrill (words_texts words.now)) }
    ensures words { result.status ≡ 2 → IsNoDrill (words_texts words.now) }
    ensures nothing_written { result.status ≡ 2 → output.new ≡ output.old }

    // A failure of the output is answered where its count of faults rose in this call, or stands at its last value. At
    // every other status that count is as it was.
    ensures write_cause { result.status ≡ 4 → Rose (K.faults output.old) (K.faults output.new) }
    ensures write_steady { (result.status ≡ 4 → ⊥) → K.faults output.new ≡ K.faults output.old }
{
    let (cause, wall) = drill(rt, alloc, words, output);
    let status = end_command(notes, &command_end(cause));
    DrillEnd { status, wall }
}
