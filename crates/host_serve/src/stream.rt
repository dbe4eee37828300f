// One stream, served.
ghost use Rattle.std.specs.Prelude.{◌≡◌};
ghost use Rattle.rail_io.specs.Faults.{Rose};
ghost use Rattle.session_loop.specs.declared.end.ConnEnd.TheVariants.{ReadFault, WriteFault};
ghost use Rattle.claim_rule.specs.Desks.{IsOf};
ghost use Rattle.claim_rule.specs.Out.{IsTidy};
ghost use Rattle.rail_service.specs.Connections.{ServesWhole, connection_at};
ghost use Rattle.session_loop.specs.Writes.{showing};
ghost use Rattle.rail_service.specs.Moments.{CutGiven, HandsReplies, PermitsReplies, service_at};
ghost use Rattle.worker_pool.specs.Turns.{KeepsDesk};
ghost use Rattle.host_serve.specs.Turns.{HasCatalogue};

use crate::member::Common;
use claim_rule::{Books, Desk};
use rail_io::{Clock, Source};
use rail_service::{Finished, Waiting, spend_permitted};
use session_loop::Outlet;

/// Serves a stream that was handed out to its connection's end, and hands it back as it is then: what is served is that
/// stream, from the bytes that its source told to those that its outlet took.
///
/// An outlet that permits nothing but the next bytes of defined replies, by entries that the desk may have, is at no
/// moment handed others. That it is so of other outlets too follows from the body's being generic, and is no clause.
pub fn serve_stream<I: Source, O: Outlet, C: Clock>(
    common: Common<'_>,
    books: &Books,
    desk: &mut Desk,
    waiting: Waiting<I, O>,
    clock: &mut C,
) -> Finished<I, O>
    requires has { HasCatalogue books.now common.cat.now }
    requires own { IsOf books.now desk.old }
    requires tidy { IsTidy desk.old }
    requires permits { PermitsReplies O.permits common.cat.now (CutGiven C.told C.begun C.ends)
        (showing O.told O.takes O.held) (service_at desk.old (C.told clock.old))
        (I.told waiting.input) waiting.output }
    ensures own { IsOf books.now desk.new }
    ensures tidy { IsTidy desk.new }
    ensures keeps { KeepsDesk desk.old desk.new }

    // The bytes written are the defined replies to the requests of the bytes taken, whatever other desks do, and the
    // outlet has got no others.
    ensures served { ServesWhole common.entry.cat.now
        (connection_at desk.old (C.told clock.old) (I.told waiting.input) (O.told waiting.output))
        (connection_at desk.new (C.told clock.new) (I.told result.input) (O.told result.output)) result.end }

    // Calls of the outlet's own have handed it just these, also where it tells no bytes, but shows its calls (`takes`).
    ensures handed { HandsReplies common.entry.cat.now (showing O.told O.takes O.held)
        (connection_at desk.old (C.told clock.old) (I.told waiting.input) (O.told waiting.output))
        (connection_at desk.new (C.told clock.new) (I.told result.input) (O.told result.output))
        waiting.output result.output result.end }

    // A device's failure is the end where its count of faults rose in this call, or stands at its last value. At every
    // other end that count is as it was.
    ensures read_cause { result.end ≡ ReadFault → Rose (I.faults waiting.input) (I.faults result.input) }
    ensures write_cause { result.end ≡ WriteFault → Rose (O.faults waiting.output) (O.faults result.output) }
    ensures read_steady { (result.end ≡ ReadFault → ⊥) → I.faults result.input ≡ I.faults waiting.input }
    ensures write_steady { (result.end ≡ WriteFault → ⊥) → O.faults result.output ≡ O.faults waiting.output }
{
    spend_permitted(common.alloc, common.cat, books, desk, waiting, clock)
}
