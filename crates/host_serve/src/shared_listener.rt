// A listener that members take turns at.
ghost use Rattle.std.specs.Prelude.{◌≡◌, ◌≢◌, true, ◌<◌, ◌≤◌, ◌+◌, ℕ, IfSome, IfNone};
ghost use Rattle.rail_io.specs.Faults.{Rose};
ghost use Rattle.rail_service.specs.Listeners.{GivesOnly, Handing, IsGiven};
ghost use Rattle.host_serve.specs.Over.{EndsOver};
ghost use Rattle.host_serve.specs.Risen.{has_risen};
ghost use Rattle.host_serve.specs.declared.shared_listener.ListenerEnd.TheVariants.{Open, Closed, Failed};

use rail_service::{Accepted, Listener, Waiting};
use std::marker::Brand;
use std::sync::ledger::{Book, Ledger, Share};

/// What is named of a listener while it stands behind a lock: its count of faults when it was handed in, its port, its
/// limit, what its streams may tell, and what is shown once it hands out no more. Those who take its streams count them
/// in a ledger of this name.
pub trait Named: Ledger {
    ghost faults: { ℕ };

    ghost port: { ℕ };

    ghost limit: { ℕ };

    ghost gives: { Handing };

    ghost over: { Type 0 };
}

impl Named for Brand {
    ghost faults = { 0 };

    ghost port = { 0 };

    ghost limit = { 0 };

    ghost gives = { λ _ _. ⊥ };

    ghost over = { ⊥ };
}

/// How a shared listener ended.
#[derive(Clone, Copy, PartialEq, Eq)]
pub enum ListenerEnd {
    /// It hasn't ended.
    Open,
    /// As many streams as the limit says were handed out.
    Closed,
    /// An accept failed.
    Failed,
}

/// A listener that was shared, and how it ended.
#[derive(Drop)]
pub struct Ended<L> {
    pub listener: L,
    pub end: ListenerEnd,
}

/// A listener and how it ended, to stand in a lock. Whoever has the lock knows what is named of it, and why it ended.
/// The book's total is how many streams were handed out, and that many are counted in all shares together.
#[derive(Drop)]
pub struct SharedListener<L: Listener + Drop, N: Named> {
    listener: L,
    end: ListenerEnd,
    book: Book<N>,
    ghost counted: { book.total ≡ (L.told listener).handed },
    ghost port: { (L.told listener).port ≡ N.port },
    ghost limit: { (L.told listener).limit ≡ N.limit },
    ghost gives: { GivesOnly L.becomes L.hands listener N.gives },
    ghost over: { EndsOver L.told L.faults L.becomes N.limit N.faults N.over listener },
    ghost within: { (L.told listener).handed ≤ N.limit },
    ghost never_falls: { N.faults ≤ L.faults listener },
    ghost steady: { end ≢ Failed → L.faults listener ≡ N.faults },
    ghost rose: { end ≡ Failed → has_risen N.faults (L.faults listener) ≡ true },
    ghost failed: { end ≡ Failed → (L.told listener).handed < N.limit },
    ghost closed: { end ≡ Closed → N.limit ≤ (L.told listener).handed },
}

impl<L: Listener + Drop, N: Named> SharedListener<L, N> {
    /// A listener with what is named, which hasn't ended, and the ledger's book.
    pub fn new(listener: L, book: Book<N>) -> Self
        requires counted { book.total ≡ (L.told listener).handed }
        requires port { (L.told listener).port ≡ N.port }
        requires limit { (L.told listener).limit ≡ N.limit }
        requires gives { GivesOnly L.becomes L.hands listener N.gives }
        requires over { EndsOver L.told L.faults L.becomes N.limit N.faults N.over listener }
        requires within { (L.told listener).handed ≤ N.limit }
        requires faults { L.faults listener ≡ N.faults }
        ensures listener { result.listener ≡ listener }
        ensures open { result.end ≡ Open }
    {
        SharedListener {
            listener,
            end: ListenerEnd::Open,
            book,
        }
    }

    /// The next stream, which is counted in the share. None exactly where the listener has then ended, which is shown;
    /// one that has ended isn't asked again.
    pub fn next(&mut self, share: &mut Share<N>) -> Option<Waiting<L::Input, L::Output>>
        requires part { 0 < share.old.parts }
        ensures some { IfSome result (λ _. (self.new.end ≡ Open) × (share.new.amount ≡ share.old.amount + 1)
            × ((L.told self.new.listener).handed ≡ (L.told self.old.listener).handed + 1)) }
        ensures gives { IfSome result (λ w. IsGiven N.gives (L.Input.told w.input) (L.Output.told w.output)) }
        ensures none { IfNone result ((self.new.end ≢ Open) × (share.new.amount ≡ share.old.amount)) }
        ensures over { IfNone result ∥ N.over ∥₁ }
        ensures parts { share.new.parts ≡ share.old.parts }
        ensures ended { self.old.end ≢ Open → self.new ≡ self.old }
    {
        if self.end != ListenerEnd::Open {
            return None;
        }
        match self.listener.accept() {
            Accepted::Stream(waiting) => {
                self.book.add(share, 1);
                return Some(waiting);
            }
            Accepted::Failed => self.end = ListenerEnd::Failed,
            Accepted::Closed => self.end = ListenerEnd::Closed,
        }
        None
    }

    /// How it has ended so far.
    pub fn end(&self) -> ListenerEnd
        ensures { result ≡ self.now.end }
    {
        self.end
    }

    /// Takes the listener out, with what is known of it. The share with all parts of the ledger counts all streams that
    /// were handed out.
    pub fn into_listener(self, all: &mut Share<N>) -> Ended<L>
        requires whole { all.old.parts ≡ N.parts }
        ensures counted { (L.told result.listener).handed ≡ all.old.amount }
        ensures port { (L.told result.listener).port ≡ N.port }
        ensures limit { (L.told result.listener).limit ≡ N.limit }
        ensures gives { GivesOnly L.becomes L.hands result.listener N.gives }
        ensures within { (L.told result.listener).handed ≤ N.limit }
        ensures never_falls { N.faults ≤ L.faults result.listener }
        ensures steady { result.end ≢ Failed → L.faults result.listener ≡ N.faults }
        ensures rose { result.end ≡ Failed → Rose N.faults (L.faults result.listener) }
        ensures failed { result.end ≡ Failed → (L.told result.listener).handed < N.limit }
        ensures closed { result.end ≡ Closed → N.limit ≤ (L.told result.listener).handed }
    {
        let SharedListener {
            listener,
            end,
            mut book,
        } = self;
        book.audit(all);
        Ended { listener, end }
    }
}
