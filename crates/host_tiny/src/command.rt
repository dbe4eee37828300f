// `tiny` over one connection.
ghost use Rattle.std.specs.Prelude.{◌≡◌, ◌≤◌, ◌<◌, ◌⊎◌, ℕ, List, Some};
ghost use Rattle.rail_io.specs.Told.{with_front, with_end, WritesWhere};
ghost use Rattle.rail_io.specs.Faults.{Rose};
ghost use Rattle.claim_rule.specs.Rule.{most_place_legs};
ghost use Rattle.session_loop.specs.declared.end.ConnEnd.{ConnEnd};
ghost use Rattle.session_loop.specs.declared.end.ConnEnd.TheVariants.{ReadFault, WriteFault};
ghost use Rattle.host_words.specs.Options.{words_texts};
ghost use Rattle.host_words.specs.Tiny.{IsNoTiny};
ghost use Rattle.host_catalogue.specs.Ends.{end_of, note_of, status_of};
ghost use Rattle.host_catalogue.specs.Noted.{TakesNote};
ghost use Rattle.host_catalogue.specs.declared.ending.CommandEnd.TheVariants.{WordsRefused};
ghost use Rattle.host_tiny.specs.Host.{IsTinyRun, IsHostEnd, ServesAll, IsCutOrRefused, IsReadFault, IsWriteFault};

use crate::responder::Tiny;
use host_catalogue::{CommandEnd, end_command};
use host_words::{TinyWords, read_tiny};
use http_wire::Intake;
use rail_io::{Sink, Source};
use session_loop::{ConnEnd, run_session};
use std::alloc::Global;

/// One connection of a run with nothing reserved.
fn serve<S: Source, K: Sink>(
    alloc: Global,
    said: TinyWords,
    input: &mut S,
    output: &mut K,
) -> ConnEnd
    requires some { 0 < said.legs }
    requires few { said.legs ≤ most_place_legs }
    requires places { 0 < said.places }
    requires most { said.places ≤ 1200 }
    ensures serves { (taken written : List ℕ)
        × (S.told input.old ≡ with_front taken (S.told input.new))
        × (K.told output.new ≡ with_end (K.told output.old) written)
        × IsHostEnd said.legs said.places taken (S.told input.new) written result }
    ensures read_cause { result ≡ ReadFault → Rose (S.faults input.old) (S.faults input.new) }
    ensures write_cause { result ≡ WriteFault → Rose (K.faults output.old) (K.faults output.new) }
    ensures read_steady { (result ≡ ReadFault → ⊥) → S.faults input.new ≡ S.faults input.old }
    ensures write_steady { (result ≡ WriteFault → ⊥) → K.faults output.new ≡ K.faults output.old }
{
    let Ok(mut intake) = Intake::start(alloc) else {
        return ConnEnd::NoMemory;
    };
    let Ok(mut tiny) = Tiny::start(alloc, said.legs, said.places) else {
        return ConnEnd::NoMemory;
    };
    run_session(&mut intake, input, output, &mut tiny)
}

/// `tiny` by its words, of which the first is the command's name: it serves the input as one connection of one run with
/// the words' legs and places, of which none is reserved. Answers the status, and notes how it ended.
///
/// | status | where |
/// |---|---|
/// | 0 | all requests of the input are answered, to its end or to the last of the connection |
/// | 2 | the words are refused; nothing is read or written |
/// | 3 | the input failed in this call |
/// | 4 | the output failed in this call |
/// | 5 | there was no memory to begin with |
/// | 6 | the input ended inside a request, or was refused |
///
/// That there was no memory at status 5 no clause says. A device that has failed as often as is counted may have failed
/// before this call.
pub fn run_tiny<S: Source, K: Sink, E: Sink>(
    alloc: Global,
    words: &[String],
    input: &mut S,
    output: &mut K,
    notes: &mut E,
) -> u8
    // Status 2 comes exactly where the words are refused. Nothing is then touched but the notes.
    ensures words { result ≡ 2 → IsNoTiny (words_texts words.now) }
    ensures refused_words { IsNoTiny (words_texts words.now) → result ≡ 2 }
    ensures nothing_read { result ≡ 2 → input.new ≡ input.old }
    ensures nothing_written { result ≡ 2 → output.new ≡ output.old }
    ensures refused { result ≡ 2 → TakesNote E.told E.faults notes.old notes.new (note_of WordsRefused) }

    // Else it is that of the connection's end, and the bytes written are the answers of the bytes taken.
    ensures run { IsNoTiny (words_texts words.now) ⊎ ((end : ConnEnd) × (result ≡ status_of (end_of end))
        × IsTinyRun (words_texts words.now) (S.told input.old) (S.told input.new)
        (K.told output.old) (K.told output.new) end
        × TakesNote E.told E.faults notes.old notes.new (note_of (end_of end))) }

    // Where the input and the output tell their bytes, those written are the host's answers of those to come.
    ensures served { WritesWhere (result ≡ 0) (S.told input.old) (K.told output.old) (K.told output.new)
        (ServesAll (words_texts words.now)) }
    ensures cut { WritesWhere (result ≡ 6) (S.told input.old) (K.told output.old) (K.told output.new)
        (IsCutOrRefused (words_texts words.now)) }
    ensures read_fault { WritesWhere (result ≡ 3) (S.told input.old) (K.told output.old) (K.told output.new)
        (λ stream written. IsReadFault (words_texts words.now) stream (S.told input.new) written) }
    ensures write_fault { WritesWhere (result ≡ 4) (S.told input.old) (K.told output.old) (K.told output.new)
        (λ stream written. IsWriteFault (words_texts words.now) stream (S.told input.new) written) }

    // A device's failure is answered where its count of faults rose in this call, or stands at its last value. At every
    // other status that count is as it was.
    ensures read_cause { result ≡ 3 → Rose (S.faults input.old) (S.faults input.new) }
    ensures write_cause { result ≡ 4 → Rose (K.faults output.old) (K.faults output.new) }
    ensures read_steady { (result ≡ 3 → ⊥) → S.faults input.new ≡ S.faults input.old }
    ensures write_steady { (result ≡ 4 → ⊥) → K.faults output.new ≡ K.faults output.old }
    ensures never_missing { result ≡ 1 → ⊥ }
{
    let Some(said) = read_tiny(words) else {
        return end_command(notes, &CommandEnd::WordsRefused);
    };
    let end = serve(alloc, said, input, output);
    end_command(notes, &CommandEnd::of(end))
}
