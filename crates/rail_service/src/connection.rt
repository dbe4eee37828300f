//! One connection, from its first byte to its end.
ghost use Rattle.std.specs.Prelude.{◌≡◌, ℕ, List, []};
ghost use Rattle.rail_io.specs.Faults.{Rose};
ghost use Rattle.rail_io.specs.Told.{with_front};
ghost use Rattle.session_loop.specs.declared.end.ConnEnd.TheVariants.{ReadFault, WriteFault};
ghost use Rattle.catalogue_contents.specs.Contents.{legs_in};
ghost use Rattle.claim_rule.specs.Desks.{IsOf};
ghost use Rattle.claim_rule.specs.Out.{IsIdle, IsTidy};
ghost use Rattle.lone_desk.specs.Lone.{IsAlone};
ghost use Rattle.rail_service.specs.Connections.{IsServed, ServesWhole, connection_at};
ghost use Rattle.session_loop.specs.Writes.{Handed, showing};
ghost use Rattle.rail_service.specs.Moments.{CutGiven, HandsReplies, PermitsReplies, service_at};
ghost use Rattle.rail_service.specs.OneThread.{ServesAlone};
ghost use Rattle.rail_service.specs.Readiness.{IsReady};
ghost use Rattle.rail_service.specs.Responding.{view_of};

use crate::resource::start_router;
use crate::service::Service;
use catalogue_contents::Catalogue;
use claim_rule::{Books, Desk};
use http_wire::Intake;
use osdm_json::BodyRoom;
use rail_io::{Clock, Sink, Source};
use session_loop::{ConnEnd, Outlet, run_permitted};
use std::alloc::Global;

/// Serves until an end. The intake is as its start gave it.
fn serve<S: Source, K: Outlet, C: Clock>(
    intake: &mut Intake,
    source: &mut S,
    sink: &mut K,
    service: &mut Service<'_, '_, '_, C>,
) -> ConnEnd
    requires fresh { intake.old.given ≡ 0 }
    requires empty { intake.old.unread ≡ [] }
    requires ready { IsReady service.old.cat.now service.old.books.now service.old.router.now service.old.desk.now }
    requires permits { PermitsReplies K.permits service.old.cat.now (CutGiven C.told C.begun C.ends)
        (showing K.told K.takes K.held) (view_of C.told service.old) (S.told source.old) sink.old }
    ensures own { IsOf service.old.books.now service.new.desk.now }
    ensures tidy { IsTidy service.old.desk.now → IsTidy service.new.desk.now }
    ensures served { (taken written : List ℕ)
        × (S.told source.old ≡ with_front taken (S.told source.new))
        × Handed (showing K.told K.takes K.held) sink.old written sink.new
        × IsServed service.old.cat.now (view_of C.told service.old) (view_of C.told service.new)
        taken (S.told source.new) written result }
    ensures read_cause { result ≡ ReadFault → Rose (S.faults source.old) (S.faults source.new) }
    ensures write_cause { result ≡ WriteFault → Rose (K.faults sink.old) (K.faults sink.new) }
    ensures read_steady { (result ≡ ReadFault → ⊥) → S.faults source.new ≡ S.faults source.old }
    ensures write_steady { (result ≡ WriteFault → ⊥) → K.faults sink.new ≡ K.faults sink.old }
    ensures same_desk { service.new.desk.ghost_name ≡ service.old.desk.ghost_name }
    ensures same_clock { service.new.clock.ghost_name ≡ service.old.clock.ghost_name }
{
    run_permitted(intake, source, sink, service)
}

/// Serves one connection, as `serve_connection` does, into an outlet of which it is known that it permits the next
/// bytes of the defined replies, by entries that the desk may have. Where it permits no others, no others are handed to
/// it at any moment, whether or not the connection ever ends.
pub fn serve_permitted<S: Source, K: Outlet, C: Clock>(
    alloc: Global,
    cat: &Catalogue,
    books: &Books,
    desk: &mut Desk,
    source: &mut S,
    sink: &mut K,
    clock: &mut C,
) -> ConnEnd
    requires own { IsOf books.now desk.old }
    requires legs { books.now.layout.legs ≡ legs_in cat.now }
    requires rows { books.now.layout.rows ≡ cat.now.rows }
    requires idle { IsIdle desk.old }
    requires permits { PermitsReplies K.permits cat.now (CutGiven C.told C.begun C.ends)
        (showing K.told K.takes K.held) (service_at desk.old (C.told clock.old)) (S.told source.old) sink.old }
    ensures own { IsOf books.now desk.new }
    ensures idle { IsIdle desk.new }
    ensures tidy { IsTidy desk.old → IsTidy desk.new }

    // The bytes written are the defined replies to the requests of the bytes taken, whatever other desks do.
    ensures served { ServesWhole cat.now
        (connection_at desk.old (C.told clock.old) (S.told source.old) (K.told sink.old))
        (connection_at desk.new (C.told clock.new) (S.told source.new) (K.told sink.new)) result }

    // Calls of the sink's own have handed it just these, also where it tells no bytes, but shows its calls (`takes`).
    ensures handed { HandsReplies cat.now (showing K.told K.takes K.held)
        (connection_at desk.old (C.told clock.old) (S.told source.old) (K.told sink.old))
        (connection_at desk.new (C.told clock.new) (S.told source.new) (K.told sink.new)) sink.old sink.new result }

    // At a desk that is alone, whatever it has done, they are those of a host of one thread, which begins with the
    // desk's bookings.
    ensures one_thread { IsAlone desk.old → ServesAlone cat.now
        (connection_at desk.old (C.told clock.old) (S.told source.old) (K.told sink.old))
        (connection_at desk.new (C.told clock.new) (S.told source.new) (K.told sink.new)) result }

    // A device's failure is the end where its count of faults rose in this call, or stands at its last value. At every
    // other end that count is as it was.
    ensures read_cause { result ≡ ReadFault → Rose (S.faults source.old) (S.faults source.new) }
    ensures write_cause { result ≡ WriteFault → Rose (K.faults sink.old) (K.faults sink.new) }
    ensures read_steady { (result ≡ ReadFault → ⊥) → S.faults source.new ≡ S.faults source.old }
    ensures write_steady { (result ≡ WriteFault → ⊥) → K.faults sink.new ≡ K.faults sink.old }
{
    // Tells contracts that each item of these books has a word.
    let _ = books.places();
    let Ok(mut intake) = Intake::start(alloc) else {
        return ConnEnd::NoMemory;
    };
    let Ok(router) = start_router(alloc) else {
        return ConnEnd::NoMemory;
    };
    let mut room = BodyRoom::new(alloc);
    let mut service = Service {
        alloc,
        cat,
        books,
        router: &router,
        desk,
        clock,
        room: &mut room,
        first: None,
    };
    serve(&mut intake, source, sink, &mut service)
}

/// Serves one connection at a desk of the books: its requests are read from the source, each is answered at the clock's
/// next reading, and the answers are written to the sink, until an end.
///
/// Where there is no memory to begin with, the end is `NoMemory`, and nothing is read, written or done. A later lack of
/// memory is answered 500, and changes no booking's fate.
///
/// Where source and sink don't tell their bytes, as those of a socket don't, `served` names none that came or went.
/// What is left of it there is safety: the desk's entries are those of some requests, answered in order, and no place
/// is sold twice. The cause of each end by a fault holds there too.
pub fn serve_connection<S: Source, K: Sink, C: Clock>(
    alloc: Global,
    cat: &Catalogue,
    books: &Books,
    desk: &mut Desk,
    source: &mut S,
    sink: &mut K,
    clock: &mut C,
) -> ConnEnd
    requires own { IsOf books.now desk.old }
    requires legs { books.now.layout.legs ≡ legs_in cat.now }
    requires rows { books.now.layout.rows ≡ cat.now.rows }
    requires idle { IsIdle desk.old }
    ensures own { IsOf books.now desk.new }
    ensures idle { IsIdle desk.new }
    ensures tidy { IsTidy desk.old → IsTidy desk.new }

    // The bytes written are the defined replies to the requests of the bytes taken, whatever other desks do.
    ensures served { ServesWhole cat.now
        (connection_at desk.old (C.told clock.old) (S.told source.old) (K.told sink.old))
        (connection_at desk.new (C.told clock.new) (S.told source.new) (K.told sink.new)) result }

    // Calls of the sink's own have handed it just these, also where it tells no bytes, but shows its calls (`takes`).
    ensures handed { HandsReplies cat.now (showing K.told K.takes K.held)
        (connection_at desk.old (C.told clock.old) (S.told source.old) (K.told sink.old))
        (connection_at desk.new (C.told clock.new) (S.told source.new) (K.told sink.new)) sink.old sink.new result }

    // At a desk that is alone, whatever it has done, they are those of a host of one thread, which begins with the
    // desk's bookings.
    ensures one_thread { IsAlone desk.old → ServesAlone cat.now
        (connection_at desk.old (C.told clock.old) (S.told source.old) (K.told sink.old))
        (connection_at desk.new (C.told clock.new) (S.told source.new) (K.told sink.new)) result }

    // A device's failure is the end where its count of faults rose in this call, or stands at its last value. At every
    // other end that count is as it was.
    ensures read_cause { result ≡ ReadFault → Rose (S.faults source.old) (S.faults source.new) }
    ensures write_cause { result ≡ WriteFault → Rose (K.faults sink.old) (K.faults sink.new) }
    ensures read_steady { (result ≡ ReadFault → ⊥) → S.faults source.new ≡ S.faults source.old }
    ensures write_steady { (result ≡ WriteFault → ⊥) → K.faults sink.new ≡ K.faults sink.old }
{
    serve_permitted(alloc, cat, books, desk, source, sink, clock)
}
