// A listener over memory.
ghost use Rattle.std.specs.Prelude.{◌≡◌, ◌≤◌, map};

use crate::listener::{Accepted, Bound, Listener};
use crate::waiting::Waiting;
use rail_io::{BytesSource, VecSink};
use std::alloc::Global;
use std::collections::VecDeque;

/// Hands out listed byte streams, each with a sink of its own. `fails` lists the calls of bind and accept that are to
/// fail, counted together from 1. An accept below the limit fails as well where no stream is left.
#[derive(Drop)]
pub struct ListListener {
    alloc: Global,
    streams: VecDeque<Vec<u8>>,
    fails: Vec<u64>,
    calls: u64,
    faults: u64,
    port: u16,
    limit: u32,
    handed: u32,
}

impl ListListener {
    ghost use Rattle.rail_service.specs.Memory.{list_view, list_streams, list_faults, list_calls, list_fails};
    ghost use Rattle.rail_io.specs.Faults.{Rose};

    /// A listener at port 0 with limit 0 that has handed out nothing, and whose listed calls fail.
    pub fn new(alloc: Global, streams: Vec<Vec<u8>>, fails: Vec<u64>) -> Self
        ensures view { list_view result ≡ record { port = 0; limit = 0; handed = 0 } }
        ensures streams { list_streams result ≡ map (λ bytes. bytes.items) streams.items }
        ensures faults { list_faults result ≡ 0 }
        ensures calls { list_calls result ≡ 0 }
        ensures fails { list_fails result ≡ fails.items }
    {
        ListListener {
            alloc,
            streams: VecDeque::from(streams),
            fails,
            calls: 0,
            faults: 0,
            port: 0,
            limit: 0,
            handed: 0,
        }
    }

    // A call that fails changes the count alone.
    fn fail(&mut self)
        ensures view { list_view self.new ≡ list_view self.old }
        ensures streams { list_streams self.new ≡ list_streams self.old }
        ensures calls { list_calls self.new ≡ list_calls self.old }
        ensures fails { list_fails self.new ≡ list_fails self.old }
        ensures never_falls { list_faults self.old ≤ list_faults self.new }
        ensures rose { Rose (list_faults self.old) (list_faults self.new) }
    {
        self.faults = self.faults.saturating_add(1);
    }
}

impl Listener for ListListener {
    ghost use Rattle.std.specs.Prelude.{◌↔◌, ◌⊎◌, ◌<◌, [], Contains, Some};
    ghost use Rattle.rail_service.specs.declared.listener.Bound.TheVariants.{Failed};
    ghost use Rattle.rail_io.specs.Faults.{Rose};
    ghost use Rattle.rail_io.specs.Memory.{IsOneCallMore, source_left, sink_taken};
    ghost use Rattle.rail_service.specs.Listeners.{Binds, Accepts, HasFailed, OfStream};
    ghost use Rattle.rail_service.specs.Memory.{list_view, list_streams, list_faults, list_calls, list_fails, HandsOut, IsLaterOf, HandsListed};

    type Input = BytesSource;

    type Output = VecSink;

    ghost told = { list_view };

    ghost faults = { list_faults };

    ghost becomes = { IsLaterOf };

    ghost hands = { HandsListed };

    fn bind(&mut self, port: u16) -> Bound
        ensures binds { Binds (list_view self.old) port (list_view self.new) result }
        ensures never_falls { list_faults self.old ≤ list_faults self.new }
        ensures cause { result ≡ Failed → Rose (list_faults self.old) (list_faults self.new) }
        ensures steady { (result ≡ Failed → ⊥) → list_faults self.new ≡ list_faults self.old }
        ensures becomes { IsLaterOf self.old self.new }
        ensures calls { IsOneCallMore (list_calls self.old) (list_calls self.new) }
        ensures listed { (result ≡ Failed) ↔ Contains (list_fails self.old) (list_calls self.new) }
        ensures fails { list_fails self.new ≡ list_fails self.old }
        ensures streams { list_streams self.new ≡ list_streams self.old }
    {
        self.calls = self.calls.saturating_add(1);
        if self.fails.contains(&self.calls) {
            self.fail();
            return Bound::Failed;
        }
        self.port = port;
        Bound::Ready
    }

    fn accept(&mut self) -> Accepted<BytesSource, VecSink>
        ensures accepts { Accepts (list_view self.old) (list_view self.new) result }
        ensures never_falls { list_faults self.old ≤ list_faults self.new }
        ensures cause { HasFailed result → Rose (list_faults self.old) (list_faults self.new) }
        ensures steady { (HasFailed result → ⊥) → list_faults self.new ≡ list_faults self.old }
        ensures becomes { IsLaterOf self.old self.new }
        ensures calls { IsOneCallMore (list_calls self.old) (list_calls self.new) }
        ensures listed { (list_view self.old).handed < (list_view self.old).limit
            → (HasFailed result
            ↔ (Contains (list_fails self.old) (list_calls self.new) ⊎ (list_streams self.old ≡ []))) }
        ensures fails { list_fails self.new ≡ list_fails self.old }
        ensures hands { HandsOut (list_streams self.old) (list_streams self.new) result }
        ensures gives { OfStream result (λ waiting. HandsListed self.old (Some (source_left waiting.input))
            (Some (sink_taken waiting.output)) self.new) }
    {
        self.calls = self.calls.saturating_add(1);
        if self.handed >= self.limit {
            return Accepted::Closed;
        }
        if self.fails.contains(&self.calls) {
            self.fail();
            return Accepted::Failed;
        }
        match self.streams.pop_front() {
            Some(bytes) => {
                self.handed += 1;
                let input = BytesSource::new(bytes, Vec::new(self.alloc));
                let output = VecSink::new(self.alloc, Vec::new(self.alloc));
                Accepted::Stream(Waiting::of(input, output))
            }
            None => {
                self.fail();
                Accepted::Failed
            }
        }
    }

    fn set_limit(&mut self, connections: u32)
        ensures limit { list_view self.new ≡ record (list_view self.old) { limit = connections } }
        ensures faults { list_faults self.new ≡ list_faults self.old }
        ensures becomes { IsLaterOf self.old self.new }
        ensures calls { list_calls self.new ≡ list_calls self.old }
        ensures fails { list_fails self.new ≡ list_fails self.old }
        ensures streams { list_streams self.new ≡ list_streams self.old }
    {
        self.limit = connections;
    }
}
