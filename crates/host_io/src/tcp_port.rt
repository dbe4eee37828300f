// A port of this machine as a listener. Its streams tell no content.
ghost use Rattle.std.specs.Prelude.{◌≡◌, ◌≤◌, [], is_some, IfSome, IfOk, IfErr, OnOk, None};
ghost use Rattle.rail_io.specs.Faults.{Rose};
ghost use Rattle.rail_service.specs.Listeners.{Accepts, Binds, HasFailed, OfStream};
ghost use Rattle.rail_service.specs.declared.listener.Bound.TheVariants.{Ready, Failed};
ghost use Rattle.host_io.specs.Tcp.{tcp_view, tcp_faults, IsLaterOf, HandsUntold, IsLocal};
ghost use Rattle.host_io.specs.Doors.{AsksAgain, AsksAs, AsksFor, AsksLast, Refuses, with_call, Gave, Listened};
ghost use Rattle.host_io.specs.Paces.{first_pace};

use crate::address::local_address;
use crate::door::Door;
use crate::kept_line::KeptLine;
use crate::line::Line;
use crate::noting::{note_door, take_counts};
use crate::outbox::Outbox;
use crate::refusals::{AfterRefusal, after_refusal, code_of};
use crate::shared::{Halves, PortReader, PortSink, halves_of};
use crate::system_watch::SystemWatch;
use crate::talk::Talk;
use crate::tcp_door::TcpDoor;
use crate::watch::Watch;
use crate::wire::Wire;
use host_window::{Counters, CountingSink, CountingSource, Health};
use rail_io::{Keeper, ReaderSource};
use rail_service::{Accepted, Bound, Listener, Waiting};
use std::alloc::Global;
use std::net::{IpAddr, Net, TcpListener, TcpStream};
use std::{io, time};

/// How long accepting pauses where handles or memory are wanting.
const PAUSE_MILLISECONDS: u64 = 100;

/// A connection of this stream, of which nothing has come and to which nothing went out.
fn talk_of<W: Wire + Drop, K: Keeper + Drop>(
    alloc: Global,
    keeper: K,
    wire: W,
) -> io::Result<Talk<W, K>>
    ensures wire { IfOk result (λ talk. talk.sink.line.wire ≡ wire) }
    ensures held { IfOk result (λ talk. talk.outbox.held ≡ []) }
    ensures free { IfOk result (λ talk. talk.sink.cut ≡ 0) }
    ensures keeper { IfOk result (λ talk. talk.sink.keeper ≡ keeper) }
    ensures pace { IfOk result (λ talk. talk.pace ≡ first_pace) }
{
    let outbox = Outbox::new(alloc)?;
    Ok(Talk::new(KeptLine::of(Line::of(wire), keeper), outbox))
}

/// Listens at 127.0.0.1, or at another address that it is given.
///
/// Its streams are to send without delay. A write is to fail that waits for more than 30 seconds. So is a read that
/// waits for more than 5 seconds between two requests, or for more than 30 inside one, or until 60 have gone by since
/// its first byte.
///
/// That its streams send without delay, which limits their writes and first reads have, and that an accept fails where
/// the journal is lost, no clause says. Of a later read see `Talk`. That the system keeps these limits is trusted.
///
/// No answer is to leave before the cut is kept that it is held for. What it hands out is to be counted, where there
/// are counters.
#[derive(Drop)]
pub struct Port<'c, D: Door + Drop, T: Watch + Copy + Drop, K: Keeper + Copy + Drop> {
    door: D,
    watch: T,
    alloc: Global,
    keeper: K,
    counters: Option<&'c Counters>,
    address: IpAddr,
    /// Whether it was bound.
    listens: bool,
    port: u16,
    limit: u32,
    handed: u32,
    faults: u64,
}

/// A port of this machine.
pub type TcpPort<'c, N, K> = Port<'c, TcpDoor<N>, SystemWatch<N>, K>;

impl<
    'c,
    N: Net<Listener = TcpListener, Stream = TcpStream> + time::Clock + Copy + Drop,
    K: Keeper + Copy + Drop,
> Port<'c, TcpDoor<N>, SystemWatch<N>, K> {
    /// A listener at port 0 of 127.0.0.1 with limit 0 that has handed out nothing and hasn't failed.
    pub fn new(net: N, alloc: Global, keeper: K, counters: Option<&'c Counters>) -> Self
        ensures view { tcp_view result ≡ record { port = 0; limit = 0; handed = 0 } }
        ensures faults { tcp_faults result ≡ 0 }
        ensures address { IsLocal result.address }
    {
        Port {
            door: TcpDoor {
                net,
                listener: None,
            },
            watch: SystemWatch { clock: net },
            alloc,
            keeper,
            counters,
            address: local_address(),
            listens: false,
            port: 0,
            limit: 0,
            handed: 0,
            faults: 0,
        }
    }
}

impl<'c, D: Door + Drop, T: Watch + Copy + Drop, K: Keeper + Copy + Drop> Port<'c, D, T, K> {
    /// The same listener, which listens at the address where it is bound from now on.
    pub fn at(self, address: IpAddr) -> Self
        ensures same { result ≡ record self.entry { address = address } }
    {
        Port { address, ..self }
    }

    // A call that fails changes the count alone.
    fn fail(&mut self)
        ensures view { tcp_view self.new ≡ tcp_view self.old }
        ensures never_falls { tcp_faults self.old ≤ tcp_faults self.new }
        ensures rose { Rose (tcp_faults self.old) (tcp_faults self.new) }
        ensures door { self.new.door ≡ self.old.door }
    {
        self.faults = self.faults.saturating_add(1);
    }

    // Asks the door once. None where it gave a connection that is dropped: it is to be so only where the journal is
    // lost. An error says what to do where there is none, also where there is no memory for it.
    fn accept_one(&mut self) -> Result<Option<Halves<D::Wire, K, T>>, AfterRefusal>
        ensures gave { OnOk result (D.calls self.new.door ≡ with_call (D.calls self.old.door) Gave) }
        ensures refused { IfErr result (Refuses (D.calls self.old.door) (D.calls self.new.door)) }
        ensures same { self.new ≡ record self.old { door = self.new.door } }
    {
        let wire = match self.door.accept() {
            Ok(wire) => wire,
            Err(error) => return Err(after_refusal(code_of(error))),
        };
        if self.keeper.is_lost() {
            return Ok(None);
        }
        let Ok(talk) = talk_of(self.alloc, self.keeper, wire) else {
            return Err(AfterRefusal::Pause);
        };
        match halves_of(self.alloc, talk, self.watch) {
            Ok(halves) => Ok(Some(halves)),
            Err(_) => Err(AfterRefusal::Pause),
        }
    }

    // Asks at most once, and waits where something is wanting that comes back: None where it is to be asked again, else
    // what comes of it.
    fn ask(&mut self) -> Option<Option<Halves<D::Wire, K, T>>>
        ensures last { IfSome result (λ halves.
            AsksLast (D.calls self.old.door) (D.calls self.new.door) (is_some halves)) }
        ensures again { result ≡ None → AsksAgain (D.calls self.old.door) (D.calls self.new.door) }
        ensures same { self.new ≡ record self.old { door = self.new.door } }
    {
        if self.keeper.is_lost() {
            return Some(None);
        }
        match self.accept_one() {
            Ok(halves) => Some(halves),
            Err(AfterRefusal::Fail) => Some(None),
            Err(AfterRefusal::Again) => None,
            Err(AfterRefusal::Pause) => {
                self.door.pause(PAUSE_MILLISECONDS);
                None
            }
        }
    }

    /// The next connection, for which it may wait, also until handles and memory are there again. None only where the
    /// door wasn't asked the last time, gave a stream that is dropped, or gave an error that ends it.
    ///
    /// That it goes on asking no clause says. Whether its keeper has lost is asked before each wait and after it, since
    /// a bell may end one: that is read.
    pub(crate) fn next_stream(&mut self) -> Option<Halves<D::Wire, K, T>>
        ensures asks { AsksFor (D.calls self.old.door) (D.calls self.new.door) (is_some result) }
        ensures same { self.new ≡ record self.old { door = self.new.door } }
    {
        if !self.listens {
            return None;
        }
        for _ in 0..u64::MAX {
            match self.ask() {
                Some(halves) => return halves,
                None => {}
            }
        }
        None
    }
}

impl<'c, D: Door + Drop, T: Watch + Copy + Drop, K: Keeper + Copy + Drop> Listener
    for Port<'c, D, T, K> {
    type Input = CountingSource<'c, ReaderSource<PortReader<D::Wire, K, T>>>;

    type Output = CountingSink<'c, PortSink<D::Wire, K>>;

    ghost told = { tcp_view };

    ghost faults = { tcp_faults };

    ghost becomes = { IsLaterOf };

    ghost hands = { HandsUntold };

    fn bind(&mut self, port: u16) -> Bound
        ensures binds { Binds (tcp_view self.old) port (tcp_view self.new) result }
        ensures becomes { IsLaterOf self.old self.new }
        ensures never_falls { tcp_faults self.old ≤ tcp_faults self.new }
        ensures cause { result ≡ Failed → Rose (tcp_faults self.old) (tcp_faults self.new) }
        ensures steady { (result ≡ Failed → ⊥) → tcp_faults self.new ≡ tcp_faults self.old }
        ensures listens { result ≡ Ready
            → D.calls self.new.door ≡ with_call (D.calls self.old.door) (Listened self.old.address port) }
    {
        match self.door.listen(self.address, port) {
            Ok(()) => {
                self.listens = true;
                self.port = port;
                note_door(self.counters, &self.keeper, Health::Well);
                Bound::Ready
            }
            Err(_) => {
                self.fail();
                Bound::Failed
            }
        }
    }

    fn accept(&mut self) -> Accepted<Self::Input, Self::Output>
        ensures accepts { Accepts (tcp_view self.old) (tcp_view self.new) result }
        ensures becomes { IsLaterOf self.old self.new }
        ensures gives { OfStream result (λ waiting. HandsUntold self.old None None self.new) }
        ensures never_falls { tcp_faults self.old ≤ tcp_faults self.new }
        ensures cause { HasFailed result → Rose (tcp_faults self.old) (tcp_faults self.new) }
        ensures steady { (HasFailed result → ⊥) → tcp_faults self.new ≡ tcp_faults self.old }
        ensures asks { AsksAs (D.calls self.old.door) (D.calls self.new.door) result }
    {
        if self.handed >= self.limit {
            note_door(self.counters, &self.keeper, Health::Draining);
            return Accepted::Closed;
        }
        match self.next_stream() {
            Some((input, output)) => {
                self.handed += 1;
                let counts = take_counts(self.counters);
                Accepted::Stream(Waiting::of(
                    CountingSource::of(ReaderSource::new(input), counts),
                    CountingSink::of(output, counts),
                ))
            }
            None => {
                note_door(self.counters, &self.keeper, Health::Deaf);
                self.fail();
                Accepted::Failed
            }
        }
    }

    fn set_limit(&mut self, connections: u32) {
        self.limit = connections;
    }
}
