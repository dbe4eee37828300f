// A listener's streams, served by one.
ghost use Rattle.std.specs.Prelude.{◌≡◌, ◌≤◌, ◌<◌, ◌+◌, ℕ, true, false};
ghost use Rattle.rail_io.specs.Faults.{Rose};
ghost use Rattle.rail_service.specs.Listeners.{GivesOnly, IsGiven};
ghost use Rattle.claim_rule.specs.Desks.{IsOf};
ghost use Rattle.claim_rule.specs.Out.{IsTidy};
ghost use Rattle.worker_pool.specs.Turns.{KeepsDesk};
ghost use Rattle.host_serve.specs.Turns.{HasCatalogue, Chain, ConnectionBy, HandedAndClosed};

use crate::letting::Closing;
use crate::member::Common;
use crate::shared_listener::Named;
use crate::stream::serve_stream;
use claim_rule::{Books, Desk};
use rail_io::Clock;
use rail_service::{Accepted, Listener};

/// Serves a listener's streams one after the other, and lets each go as it is when its connection has ended, until as
/// many as its limit were handed out, and answers true, or until an accept failed, and answers false.
pub fn drain_listener<N: Named, L: Listener + Drop, C: Clock, D: Closing<L::Input, L::Output>>(
    common: Common<'_>,
    books: &Books,
    desk: &mut Desk,
    listener: &mut L,
    limit: u32,
    clock: &mut C,
) -> bool
    requires has { HasCatalogue books.now common.cat.now }
    requires own { IsOf books.now desk.old }
    requires tidy { IsTidy desk.old }
    requires limit { (L.told listener.old).limit ≡ limit }
    requires within { (L.told listener.old).handed ≤ limit }
    requires gives { GivesOnly L.becomes L.hands listener.old N.gives }
    ensures own { IsOf books.now desk.new }
    ensures tidy { IsTidy desk.new }
    ensures keeps { KeepsDesk desk.old desk.new }
    ensures turns { (n : ℕ) × ((L.told listener.new).handed ≡ (L.told listener.old).handed + n)
        × Chain (ConnectionBy (HandedAndClosed (IsGiven N.gives) D.closes) common.entry.cat.now) n
        (record { desk = desk.old; clock = C.told clock.old })
        (record { desk = desk.new; clock = C.told clock.new }) }
    ensures port { (L.told listener.new).port ≡ (L.told listener.old).port }
    ensures limit { (L.told listener.new).limit ≡ limit }
    ensures within { (L.told listener.new).handed ≤ limit }
    ensures never_falls { L.faults listener.old ≤ L.faults listener.new }
    ensures steady { result ≡ true → L.faults listener.new ≡ L.faults listener.old }
    ensures closed { result ≡ true → limit ≤ (L.told listener.new).handed }
    ensures failed { result ≡ false → Rose (L.faults listener.old) (L.faults listener.new)
        × ((L.told listener.new).handed < limit) }
{
    for _served in 0..limit {
        match listener.accept() {
            Accepted::Stream(waiting) => {
                D::close(serve_stream(common, books, desk, waiting, clock));
            }
            Accepted::Failed => return false,
            Accepted::Closed => return true,
        }
    }
    true
}
