//! Whoever looks through the window, one after the other.
ghost use Rattle.std.specs.Prelude.{◌≡◌, IfNone, IfSome, true};
ghost use Rattle.rail_io.specs.Faults.{Rose};
ghost use Rattle.session_loop.specs.declared.end.ConnEnd.TheVariants.{ReadFault, WriteFault};
ghost use Rattle.host_window.specs.Callers.{ServesAll, calls, counter};
ghost use Rattle.host_window.specs.Showing.{IsShown};

use crate::pages::Pages;
use http_wire::Intake;
use rail_io::{Sink, Source};
use session_loop::{ConnEnd, run_session};
use std::sync::Wait;

/// Hands out the streams of those who look.
pub trait Callers {
    /// What comes of a stream.
    type Input: Source + Drop;

    /// What goes into it.
    type Output: Sink + Drop;

    /// That one call handed out this caller: the callers before, what comes of the stream and what goes into it, and
    /// the callers after. Whoever knows nothing of them but this trait can show that only by such a call.
    ghost hands: { Self → Self.Input → Self.Output → Self → Type 0 };

    /// That one call handed out none: the callers before and after it. That too can be shown only by such a call.
    ghost ends: { Self → Self → Type 0 };

    /// The next stream, for which it may wait. None: there will be none any more.
    fn next_caller(&mut self) -> Option<(Self::Input, Self::Output)>
        ensures hands { IfSome result (λ caller. hands self.old caller.0 caller.1 self.new) }
        ensures ends { IfNone result (ends self.old self.new) };
}

/// Serves those who look.
pub trait Server<S, K> {
    /// That one call served this caller: the server before, what came of the stream and what went into it, and the
    /// server after. Whoever knows nothing of a server but this trait can show that only by such a call.
    ghost serves: { Self → S → K → Self → Type 0 };

    /// That one call found it over. That too can be shown only by such a call.
    ghost over: { Self → Type 0 };

    /// Whether nobody is to be served any more.
    fn is_over(&self) -> bool
        ensures over { result ≡ true → over self.now };

    /// Serves one caller up to the end of the stream.
    fn serve(&mut self, input: S, output: K)
        ensures serves { serves self.old input output self.new };
}

/// Each request that is taken is answered once, in order, up to a write fault, by its method and path: with how some
/// host does, with some numbers, or with 404, 405 or 500. Or there is no memory, and nothing is taken or written: of
/// that no clause says a cause. Where the source and the sink don't tell their bytes, as those of a socket don't,
/// `shown` names none that came or went, and says nothing of answers.
pub fn show_pages<R: Wait, S: Source, K: Sink>(
    source: &mut S,
    sink: &mut K,
    pages: &mut Pages<'_, R>,
) -> ConnEnd
    ensures shown { IsShown pages.old pages.new
        (record {
          came = S.told source.old;
          left = S.told source.new;
          before = K.told sink.old;
          after = K.told sink.new;
        })
        result }
    ensures read_cause { result ≡ ReadFault → Rose (S.faults source.old) (S.faults source.new) }
    ensures write_cause { result ≡ WriteFault → Rose (K.faults sink.old) (K.faults sink.new) }
{
    let Ok(mut intake) = Intake::start(pages.alloc) else {
        return ConnEnd::NoMemory;
    };
    run_session(&mut intake, source, sink, pages)
}

impl<R: Wait, S: Source + Drop, K: Sink + Drop> Server<S, K> for Pages<'_, R> {
    ghost use Rattle.std.specs.Prelude.{⊤};
    ghost use Rattle.host_window.specs.Showing.{IsShownTo};

    ghost serves = { λ before input output after. IsShownTo S.told K.told before input output after };

    ghost over = { λ _. ⊤ };

    fn is_over(&self) -> bool {
        self.counters.is_over()
    }

    fn serve(&mut self, input: S, output: K) {
        let mut input = input;
        let mut output = output;
        let _end = show_pages(&mut input, &mut output, self);
    }
}

/// Serves all who come, one after the other, until there will be none any more, the server is over, or 2^64 - 1 were
/// served.
pub fn show_all<W: Callers, V: Server<W::Input, W::Output>>(callers: &mut W, server: &mut V)
    ensures all { ServesAll (calls W.hands W.ends V.serves V.over)
        (counter callers.old server.old) (counter callers.new server.new) }
{
    for _ in 0..u64::MAX {
        let Some((input, output)) = callers.next_caller() else {
            return;
        };
        if server.is_over() {
            return;
        }
        server.serve(input, output);
    }
}
