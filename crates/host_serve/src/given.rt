// What a run of `serve` is given, and how it serves.
ghost use Rattle.std.specs.Prelude.{◌≡◌, ◌≤◌, ◌+◌, ℕ, List, None, Some, IfErr, IfOk, IfSome, MatchOption, length};
ghost use Rattle.claim_rule.specs.Openings.{KeptBooking, layout_with};
ghost use Rattle.cold_store.specs.Exports.{IsClosed};
ghost use Rattle.cold_store.specs.Tidy.{AreSucceeded, IsTidyWall};
ghost use Rattle.catalogue_contents.specs.Contents.{legs_in};
ghost use Rattle.host_words.specs.Limits.{clock_count};
ghost use Rattle.host_words.specs.Said.{said_in};
ghost use Rattle.host_words.specs.Serve.{IsInRange};
ghost use Rattle.host_catalogue.specs.Files.{HasCause, OfCounts};
ghost use Rattle.host_catalogue.specs.Opening.{Fails, HasBooks};
ghost use Rattle.worker_pool.specs.Crews.{IsFirst};
ghost use Rattle.host_journal.specs.Causes.{HasKeptCause, HasShelfCause};
ghost use Rattle.host_serve.specs.Kept.{ListensTo, ServesBooks, ServesKept, sources_of};
ghost use Rattle.host_serve.specs.Serve.{Ends, heard, left_of, some_count};
ghost use Rattle.host_serve.specs.Telling.{IsBefore};
ghost use Rattle.host_serve.specs.Turns.{HasCatalogue};
ghost use Rattle.host_journal.specs.declared.end.ServeOutcome.{ServeOutcome};
ghost use Rattle.host_journal.specs.declared.end.ServeOutcome.TheVariants as outcome;
ghost use Rattle.host_journal.specs.declared.end.KeptOutcome.TheVariants as kept;

use crate::books::Run;
use crate::devices::Devices;
use crate::listening::listen_and_serve;
use crate::looker::Looker;
use crate::member::Common;
use catalogue_contents::Catalogue;
use claim_rule::{Books, Desk};
use host_catalogue::{LoadFault, load_books, load_catalogue};
use host_journal::{Committer, Either, Keeping, KeptOutcome, Opened, ServeOutcome, open_journal};
use host_words::ServeWords;
use rail_io::{Bell, Clock, Journal, Shelf, Ticker};
use rail_service::Listener;
use std::alloc::{AllocError, Global};
use std::sync::Wait;
use std::thread::Threads;

/// What a run of `serve` is given besides its files and its journal: what its words say, and devices of which nothing
/// was heard yet.
#[derive(Drop)]
pub struct Given<'g, 's, R, L: Listener, T, C> {
    pub rt: &'g R,
    pub alloc: Global,
    pub said: &'s ServeWords<'s>,
    pub devices: Devices<'g, L, T, C>,
    ghost clocks: { length devices.clocks.items ≡ clock_count },
    ghost fresh: { (L.told devices.listener).handed ≡ 0 },
    ghost ranges: { IsInRange said.now.numbers },
}

/// The catalogue of the words, and its books with their first desk.
fn open<F: Shelf>(
    alloc: Global,
    shelf: &mut F,
    said: &ServeWords<'_>,
) -> Result<(Catalogue, Books, Desk), LoadFault>
    ensures books { IfOk result (λ t. (kept : List KeptBooking)
        × HasBooks (F.told shelf.old) (said_in said.now).catalogue (said_in said.now).from t.0 kept
        × (t.1.layout ≡ layout_with (legs_in t.0) t.0.rows kept)) }
    ensures fault { IfErr result (Fails (F.told shelf.old) (said_in said.now).catalogue (said_in said.now).from) }
    ensures has { IfOk result (λ t. HasCatalogue t.1 t.0) }
    ensures opening { IfOk result (λ t. AreSucceeded t.1.layout.opening) }
    ensures first { IfOk result (λ t. IsFirst t.1 0 t.2) }
    ensures same { F.told shelf.new ≡ F.told shelf.old }
    ensures cause { IfErr result (λ e. HasCause e (F.faults shelf.old) (F.faults shelf.new)
        (F.misses shelf.old) (F.misses shelf.new)) }
    ensures steady { IfOk result (λ _. F.faults shelf.new ≡ F.faults shelf.old) }
{
    load_books(alloc, shelf, said.catalogue, said.from)
}

/// A list of those that there are.
fn list_of<W: Drop>(
    alloc: Global,
    first: Option<W>,
    second: Option<W>,
) -> Result<Vec<W>, AllocError>
    ensures { IfOk result (λ list. length list.items ≡ some_count first + some_count second) }
{
    let mut list = Vec::new(alloc);
    if let Some(item) = first {
        list.push(item)?;
    }
    if let Some(item) = second {
        list.push(item)?;
    }
    Ok(list)
}

/// Another kind of watcher, where there is one.
fn other<A, B>(watcher: Option<B>) -> Option<Either<A, B>>
    ensures { some_count result ≡ some_count watcher }
{
    let watcher = watcher?;
    Some(Either::Other(watcher))
}

/// Serves opened books of the catalogue to the connections that come, without a journal.
fn listen_alone<
    'x,
    R: Threads + Wait + Sync,
    L: Listener + Drop + Send,
    T: Ticker + Drop + Send,
    C: Clock + Drop + Send,
>(
    rt: &'x R,
    alloc: Global,
    said: &ServeWords<'_>,
    cat: &'x Catalogue,
    opened: Opened,
    devices: Devices<'x, L, T, C>,
) -> Run<ServeOutcome, L>
where
    L::Input: Send,
    L::Output: Send,
    requires has { HasCatalogue opened.books cat.now }
    requires opening { AreSucceeded opened.books.layout.opening }
    requires first { IsFirst opened.books 0 opened.first }
    requires clocks { length devices.clocks.items ≡ clock_count }
    requires fresh { (L.told devices.listener).handed ≡ 0 }
    requires ranges { IsInRange said.now.numbers }
    ensures never_falls { L.faults devices.entry.listener ≤ L.faults result.listener }
    ensures ends { ListensTo cat.now opened.books.layout said.now.numbers
        (left_of (heard L.told L.faults L.becomes L.hands) C.told T.ticked devices.entry result.listener result.wall)
        result.outcome }
{
    let common = Common {
        alloc,
        cat,
        said: said.numbers,
        gate: None,
        findings: devices.findings,
    };
    let looker = Looker::of(rt, cat, devices.findings);
    let Ok(watchers) = list_of(alloc, looker, None) else {
        return Run::without_wall(ServeOutcome::NoMemory, devices.listener);
    };
    listen_and_serve(rt, common, opened, devices, watchers)
}

impl<
    'g,
    R: Threads + Wait + Sync,
    L: Listener + Drop + Send,
    T: Ticker + Drop + Send,
    C: Clock + Drop + Send,
> Given<'g, '_, R, L, T, C>
where
    L::Input: Send,
    L::Output: Send,
{
    /// Serves what the words say, without a journal.
    fn serve_alone<F: Shelf>(self, shelf: &mut F) -> Run<ServeOutcome, L>
        ensures never_falls { L.faults self.entry.devices.listener ≤ L.faults result.listener }
        ensures ends { Ends (F.told shelf.old) (said_in self.entry.said.now)
            (left_of (heard L.told L.faults L.becomes L.hands) C.told T.ticked self.entry.devices result.listener
            result.wall)
            result.outcome }
        ensures before { IsBefore result.outcome }
        ensures same { F.told shelf.new ≡ F.told shelf.old }
        ensures cause { OfCounts F.faults F.misses shelf.old shelf.new (HasShelfCause result.outcome) }
    {
        let Given {
            rt,
            alloc,
            said,
            devices,
        } = self;
        let (cat, books, first) = match open(alloc, shelf, said) {
            Ok(opened) => opened,
            Err(fault) => {
                return Run::without_wall(ServeOutcome::NotLoaded(fault), devices.listener);
            }
        };
        listen_alone(rt, alloc, said, &cat, Opened { books, first }, devices)
    }

    /// Serves the catalogue's books with the bookings that the journal of the words leaves, or that their export begins
    /// with. It is to have them kept there.
    fn serve_left<F: Shelf, J: Journal + Drop + Send, B: Bell + Drop + Send>(
        self,
        cat: &Catalogue,
        shelf: &mut F,
        keeping: Keeping<'g, J, B>,
    ) -> Run<KeptOutcome, L>
        ensures never_falls { L.faults self.entry.devices.listener ≤ L.faults result.listener }
        ensures serves { ServesBooks cat.now self.entry.said.now.numbers
            (sources_of (F.told shelf.old) (said_in self.entry.said.now) (J.told keeping.entry.journal))
            (record
            (left_of (heard L.told L.faults L.becomes L.hands) C.told T.ticked self.entry.devices result.listener
            result.wall) { watchers = 1 + some_count self.entry.devices.findings })
            result.outcome }
        ensures same { F.told shelf.new ≡ F.told shelf.old }
        ensures cause { OfCounts F.faults F.misses shelf.old shelf.new (HasKeptCause result.outcome) }
    {
        let Given {
            rt,
            alloc,
            said,
            devices,
        } = self;
        let Keeping {
            cuts,
            journal,
            bell,
        } = keeping;
        let (opened, log) = match open_journal(alloc, shelf, cat, said, journal) {
            Ok(opened) => opened,
            Err(fault) => return Run::without_wall(fault.outcome(), devices.listener),
        };
        let common = Common {
            alloc,
            cat,
            said: said.numbers,
            gate: Some(cuts.gate()),
            findings: devices.findings,
        };
        let committer = Committer {
            rt,
            cuts,
            alloc,
            log,
            bell,
            port: said.numbers.port,
        };
        let looker = other(Looker::of(rt, cat, devices.findings));
        let Ok(watchers) = list_of(alloc, Some(Either::One(committer)), looker) else {
            let outcome = KeptOutcome::Plain(ServeOutcome::NoMemory);
            return Run::without_wall(outcome, devices.listener);
        };
        cuts.gate().expect(rt, said.numbers.workers + 1);
        let Run {
            outcome,
            listener,
            wall,
        } = listen_and_serve(rt, common, opened, devices, watchers);
        Run {
            outcome: outcome.kept(cuts.is_lost()),
            listener,
            wall,
        }
    }

    /// Serves the catalogue of the words with the journal that they name.
    fn serve_journal<F: Shelf, J: Journal + Drop + Send, B: Bell + Drop + Send>(
        self,
        shelf: &mut F,
        keeping: Keeping<'g, J, B>,
    ) -> Run<KeptOutcome, L>
        ensures never_falls { L.faults self.entry.devices.listener ≤ L.faults result.listener }
        ensures serves { ServesKept (F.told shelf.old) (said_in self.entry.said.now) (J.told keeping.entry.journal)
            (record
            (left_of (heard L.told L.faults L.becomes L.hands) C.told T.ticked self.entry.devices result.listener
            result.wall) { watchers = 1 + some_count self.entry.devices.findings })
            result.outcome }
        ensures same { F.told shelf.new ≡ F.told shelf.old }
        ensures cause { OfCounts F.faults F.misses shelf.old shelf.new (HasKeptCause result.outcome) }
    {
        match load_catalogue(self.alloc, shelf, self.said.catalogue) {
            Ok(cat) => self.serve_left(&cat, shelf, keeping),
            Err(fault) => {
                let outcome = KeptOutcome::Plain(ServeOutcome::NotLoaded(fault));
                Run::without_wall(outcome, self.devices.listener)
            }
        }
    }

    /// Serves what the words say, with the journal that they name, if they do. Where there is none to have, words that
    /// name one are refused.
    pub fn serve<F: Shelf, J: Journal + Drop + Send, B: Bell + Drop + Send>(
        self,
        shelf: &mut F,
        keeping: Option<Keeping<'g, J, B>>,
    ) -> Run<KeptOutcome, L>
        ensures alone { (said_in self.entry.said.now).journal ≡ None
            → (outcome : ServeOutcome) × (result.outcome ≡ kept.Plain outcome)
            × Ends (F.told shelf.old) (said_in self.entry.said.now)
            (left_of (heard L.told L.faults L.becomes L.hands) C.told T.ticked self.entry.devices result.listener
            result.wall)
            outcome
            × IsBefore outcome
            × OfCounts F.faults F.misses shelf.old shelf.new (HasShelfCause outcome) }
        ensures kept { (name : List ℕ) → (said_in self.entry.said.now).journal ≡ Some name → MatchOption keeping.entry
            ((result.outcome ≡ kept.Plain outcome.Refused) × (result.listener ≡ self.entry.devices.listener)
            × (result.wall ≡ None) × (shelf.new ≡ shelf.old))
            (λ k. ServesKept (F.told shelf.old) (said_in self.entry.said.now) (J.told k.journal)
            (record
            (left_of (heard L.told L.faults L.becomes L.hands) C.told T.ticked self.entry.devices result.listener
            result.wall) { watchers = 1 + some_count self.entry.devices.findings })
            result.outcome
            × OfCounts F.faults F.misses shelf.old shelf.new (HasKeptCause result.outcome)) }
        ensures closed { IfSome result.wall IsClosed }
        ensures tidy { IfSome result.wall IsTidyWall }
        ensures never_falls { L.faults self.entry.devices.listener ≤ L.faults result.listener }
        ensures same { F.told shelf.new ≡ F.told shelf.old }
    {
        if self.said.journal.is_none() {
            let Run {
                outcome,
                listener,
                wall,
            } = self.serve_alone(shelf);
            return Run {
                outcome: KeptOutcome::Plain(outcome),
                listener,
                wall,
            };
        }
        match keeping {
            Some(keeping) => self.serve_journal(shelf, keeping),
            None => Run::without_wall(
                KeptOutcome::Plain(ServeOutcome::Refused),
                self.devices.listener,
            ),
        }
    }
}
