// Where serving members take their streams.
ghost use Rattle.std.specs.Prelude.{◌≡◌, ◌+◌, ℕ, IfSome, IfNone, IsSomeAnd};
ghost use Rattle.rail_service.specs.Listeners.{HandingBy, IsGiven};
ghost use Rattle.rail_service.specs.Connections.{ServiceView};
ghost use Rattle.session_loop.specs.Writes.{showing};
ghost use Rattle.rail_service.specs.Moments.{AnyCut, PermitsReplies};
ghost use Rattle.catalogue_contents.specs.Contents.{CatalogueView};
ghost use Rattle.host_serve.specs.Turns.{LettingGo};

use crate::letting::drop_stream;
use crate::mark::{Mark, Over};
use crate::shared_listener::{Named, SharedListener};
use answer_gate::Gate;
use rail_io::Source;
use rail_service::{Finished, Listener, Waiting};
use session_loop::Outlet;
use std::sync::ledger::Share;
use std::sync::{Mutex, OnceLock, OnceToken, Wait};

/// Hands out streams one after the other, and none once it has ended; and takes each back whose connection has ended,
/// to let it go.
pub trait Streams {
    /// What comes of a stream.
    type Input: Source + Drop;

    /// What goes into it.
    type Output: Outlet + Drop;

    /// How many it has handed out.
    ghost handed: { Self → ℕ };

    /// That a call handed out a stream: these streams before it, what the stream's source and its sink told, and these
    /// streams after it. Whoever knows nothing of them but this trait can show that only by a call that gave such a
    /// stream.
    ghost hands: { HandingBy Self };

    /// That a call let go of a stream: these streams before it, what the stream's source and its sink told as it was
    /// let go, and these streams after it. Whoever knows nothing of them but this trait can show that only by a call
    /// with the stream as it then was.
    ghost lets_go: { LettingGo Self };

    /// That all may see that there will be no more streams.
    ghost tells: { Self → Type 0 };

    /// The next stream, for which it may wait, or none, where there will be no more, and all may see it. At each moment
    /// the stream's outlet permits the next bytes of the defined replies, whatever the catalogue and the desk, and
    /// whichever cut they wait for.
    fn next_stream(&mut self) -> Option<Waiting<Self::Input, Self::Output>>
        ensures some { IfSome result (λ _. handed self.new ≡ handed self.old + 1) }
        ensures hands { IfSome result (λ w.
            hands self.old (Self.Input.told w.input) (Self.Output.told w.output) self.new) }
        ensures permits { IfSome result (λ w. (cat : CatalogueView) (service : ServiceView)
            → PermitsReplies Self.Output.permits cat AnyCut
            (showing Self.Output.told Self.Output.takes Self.Output.held) service (Self.Input.told w.input) w.output) }
        ensures none { IfNone result (handed self.new ≡ handed self.old) }
        ensures tells { IfNone result (tells self.new) };

    /// Lets go of a stream whose connection has ended.
    fn let_go(&mut self, finished: Finished<Self::Input, Self::Output>)
        ensures lets_go { lets_go self.old
            (Self.Input.told finished.input) (Self.Output.told finished.output) self.new }
        ensures handed { handed self.new ≡ handed self.old };
}

/// Where members take their streams: a listener behind a lock, and the mark that it hands out no more.
#[derive(Drop)]
pub struct Door<L: Listener + Drop, N: Named> {
    pub shared: Mutex<SharedListener<L, N>>,
    pub mark: Mark<N>,
}

impl<L: Listener + Drop, N: Named> Door<L, N> {
    /// A door to a listener, whose mark isn't set.
    pub fn to(shared: SharedListener<L, N>) -> Self {
        Door {
            shared: Mutex::new(shared),
            mark: OnceLock::new(),
        }
    }
}

/// The streams of a listener behind a lock. Those that were taken here are counted in the share. Where there are no
/// more, the mark was seen set.
#[derive(Drop)]
pub struct LockedStreams<'s, R, L: Listener + Drop, N: Named> {
    pub rt: &'s R,
    pub door: &'s Door<L, N>,
    /// Is told once there are no more streams here, where there is one.
    pub gate: Option<&'s Gate>,
    pub marked: Option<OnceToken<'s, Over<N>>>,
    pub share: Share<N>,
    ghost one_part: { share.parts ≡ 1 },
}

impl<R: Wait, L: Listener + Drop, N: Named> Streams for LockedStreams<'_, R, L, N> {
    type Input = L::Input;

    type Output = L::Output;

    ghost handed = { λ s. s.share.amount };

    ghost hands = { λ _ stream sent _. IsGiven N.gives stream sent };

    ghost lets_go = { λ old _ _ new. new ≡ old };

    ghost tells = { λ s. IsSomeAnd s.marked (λ t. t.of ≡ s.door.now.mark.id) };

    fn next_stream(&mut self) -> Option<Waiting<L::Input, L::Output>> {
        let next = self.door.shared.lock(self.rt).next(&mut self.share);
        if next.is_none() {
            self.marked = Some(match self.door.mark.try_insert(self.rt, Over::new()) {
                Ok(token) | Err((token, _)) => token,
            });
            part(self.gate, self.rt);
        }
        next
    }

    fn let_go(&mut self, finished: Finished<L::Input, L::Output>)
        ensures lets_go { self.new ≡ self.old }
        ensures handed { self.new.share.amount ≡ self.old.share.amount }
    {
        drop_stream(finished);
    }
}

/// Tells the gate, where there is one, that no more commands come from here.
pub fn part<R: Wait>(gate: Option<&Gate>, rt: &R) {
    if let Some(gate) = gate {
        gate.part(rt);
    }
}
