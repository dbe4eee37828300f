//! A stream that was handed out, served whole.
ghost use Rattle.std.specs.Prelude.{◌≡◌};
ghost use Rattle.rail_io.specs.Faults.{Rose};
ghost use Rattle.session_loop.specs.declared.end.ConnEnd.TheVariants.{ReadFault, WriteFault};
ghost use Rattle.catalogue_contents.specs.Contents.{legs_in};
ghost use Rattle.claim_rule.specs.Desks.{IsOf};
ghost use Rattle.claim_rule.specs.Out.{IsIdle, IsTidy};
ghost use Rattle.lone_desk.specs.Lone.{IsAlone};
ghost use Rattle.rail_service.specs.Connections.{ServesWhole, connection_at};
ghost use Rattle.session_loop.specs.Writes.{showing};
ghost use Rattle.rail_service.specs.Moments.{CutGiven, HandsReplies, PermitsReplies, service_at};
ghost use Rattle.rail_service.specs.OneThread.{ServesAlone};

use crate::connection::serve_permitted;
use catalogue_contents::Catalogue;
use claim_rule::{Books, Desk};
use rail_io::{Clock, Sink, Source};
use session_loop::{ConnEnd, Outlet};
use std::alloc::Global;

/// A stream that a listener handed out and that isn't served yet. It can't be dropped: whoever has it has to spend it,
/// which only `serve_waiting` and `spend_permitted` can; without memory they do nothing with it. Contracts see its
/// source and its sink.
pub struct Waiting<I, O> {
    input: I,
    output: O,
}

impl<I, O> Waiting<I, O> {
    /// A stream of this source and this sink. For listeners.
    pub fn of(input: I, output: O) -> Waiting<I, O>
        ensures input { result.input ≡ input }
        ensures output { result.output ≡ output }
    {
        Waiting { input, output }
    }

    /// Takes the stream apart, and so spends it.
    pub(crate) fn into_streams(self) -> (I, O)
        ensures input { result.0 ≡ self.input }
        ensures output { result.1 ≡ self.output }
    {
        let Waiting { input, output } = self;
        (input, output)
    }
}

/// A stream whose connection has ended.
#[derive(Drop)]
pub struct Finished<I, O> {
    /// How it ended.
    pub end: ConnEnd,
    /// Its source, after what was taken of it.
    pub input: I,
    /// Its sink, with what was written.
    pub output: O,
}

/// Serves a stream that was handed out, as `serve_waiting` does, into an outlet of which it is known that it permits
/// the next bytes of the defined replies, by entries that the desk may have. Where it permits no others, no others are
/// handed to it at any moment, whether or not the connection ever ends.
pub fn spend_permitted<I: Source, O: Outlet, C: Clock>(
    alloc: Global,
    cat: &Catalogue,
    books: &Books,
    desk: &mut Desk,
    waiting: Waiting<I, O>,
    clock: &mut C,
) -> Finished<I, O>
    requires own { IsOf books.now desk.old }
    requires legs { books.now.layout.legs ≡ legs_in cat.now }
    requires rows { books.now.layout.rows ≡ cat.now.rows }
    requires idle { IsIdle desk.old }
    requires permits { PermitsReplies O.permits cat.now (CutGiven C.told C.begun C.ends)
        (showing O.told O.takes O.held) (service_at desk.old (C.told clock.old))
        (I.told waiting.input) waiting.output }
    ensures own { IsOf books.now desk.new }
    ensures idle { IsIdle desk.new }
    ensures tidy { IsTidy desk.old → IsTidy desk.new }

    // The bytes written are the defined replies to the requests of the bytes taken, whatever other desks do.
    ensures served { ServesWhole cat.now
        (connection_at desk.old (C.told clock.old) (I.told waiting.input) (O.told waiting.output))
        (connection_at desk.new (C.told clock.new) (I.told result.input) (O.told result.output)) result.end }

    // Calls of the sink's own have handed it just these, also where it tells no bytes, but shows its calls (`takes`).
    ensures handed { HandsReplies cat.now (showing O.told O.takes O.held)
        (connection_at desk.old (C.told clock.old) (I.told waiting.input) (O.told waiting.output))
        (connection_at desk.new (C.told clock.new) (I.told result.input) (O.told result.output))
        waiting.output result.output result.end }

    // At a desk that is alone, whatever it has done, they are those of a host of one thread, which begins with the
    // desk's bookings.
    ensures one_thread { IsAlone desk.old → ServesAlone cat.now
        (connection_at desk.old (C.told clock.old) (I.told waiting.input) (O.told waiting.output))
        (connection_at desk.new (C.told clock.new) (I.told result.input) (O.told result.output)) result.end }

    // A device's failure is the end where its count of faults rose in this call, or stands at its last value. At every
    // other end that count is as it was.
    ensures read_cause { result.end ≡ ReadFault → Rose (I.faults waiting.input) (I.faults result.input) }
    ensures write_cause { result.end ≡ WriteFault → Rose (O.faults waiting.output) (O.faults result.output) }
    ensures read_steady { (result.end ≡ ReadFault → ⊥) → I.faults result.input ≡ I.faults waiting.input }
    ensures write_steady { (result.end ≡ WriteFault → ⊥) → O.faults result.output ≡ O.faults waiting.output }
{
    let (mut input, mut output) = waiting.into_streams();
    let end = serve_permitted(alloc, cat, books, desk, &mut input, &mut output, clock);
    Finished { end, input, output }
}

/// Serves the connection of a stream that was handed out, at a desk of the books, as `serve_connection` does over the
/// stream's source and sink, and hands both back with the connection's end.
pub fn serve_waiting<I: Source, O: Sink, C: Clock>(
    alloc: Global,
    cat: &Catalogue,
    books: &Books,
    desk: &mut Desk,
    waiting: Waiting<I, O>,
    clock: &mut C,
) -> Finished<I, O>
    requires own { IsOf books.now desk.old }
    requires legs { books.now.layout.legs ≡ legs_in cat.now }
    requires rows { books.now.layout.rows ≡ cat.now.rows }
    requires idle { IsIdle desk.old }
    ensures own { IsOf books.now desk.new }
    ensures idle { IsIdle desk.new }
    ensures tidy { IsTidy desk.old → IsTidy desk.new }

    // The bytes written are the defined replies to the requests of the bytes taken, whatever other desks do.
    ensures served { ServesWhole cat.now
        (connection_at desk.old (C.told clock.old) (I.told waiting.input) (O.told waiting.output))
        (connection_at desk.new (C.told clock.new) (I.told result.input) (O.told result.output)) result.end }

    // Calls of the sink's own have handed it just these, also where it tells no bytes, but shows its calls (`takes`).
    ensures handed { HandsReplies cat.now (showing O.told O.takes O.held)
        (connection_at desk.old (C.told clock.old) (I.told waiting.input) (O.told waiting.output))
        (connection_at desk.new (C.told clock.new) (I.told result.input) (O.told result.output))
        waiting.output result.output result.end }

    // At a desk that is alone, whatever it has done, they are those of a host of one thread, which begins with the
    // desk's bookings.
    ensures one_thread { IsAlone desk.old → ServesAlone cat.now
        (connection_at desk.old (C.told clock.old) (I.told waiting.input) (O.told waiting.output))
        (connection_at desk.new (C.told clock.new) (I.told result.input) (O.told result.output)) result.end }

    // A device's failure is the end where its count of faults rose in this call, or stands at its last value. At every
    // other end that count is as it was.
    ensures read_cause { result.end ≡ ReadFault → Rose (I.faults waiting.input) (I.faults result.input) }
    ensures write_cause { result.end ≡ WriteFault → Rose (O.faults waiting.output) (O.faults result.output) }
    ensures read_steady { (result.end ≡ ReadFault → ⊥) → I.faults result.input ≡ I.faults waiting.input }
    ensures write_steady { (result.end ≡ WriteFault → ⊥) → O.faults result.output ≡ O.faults waiting.output }
{
    spend_permitted(alloc, cat, books, desk, waiting, clock)
}
