// The connections of all workers.
ghost use Rattle.std.specs.Prelude.{◌≡◌, ◌≢◌, ◌≤◌, ◌<◌, ◌+◌, ◌∷◌, ◌++◌, [], All, IfOk, IfSome, length};
ghost use Rattle.rail_io.specs.Memory.{source_left, sink_taken};
ghost use Rattle.history_model.specs.declared.entry.Step.TheVariants.{Met};
ghost use Rattle.history_model.specs.History.{entry, own};
ghost use Rattle.catalogue_contents.specs.Contents.{legs_in};
ghost use Rattle.session_loop.specs.declared.end.ConnEnd.TheVariants.{Done};
ghost use Rattle.claim_rule.specs.Desks.{HasMet, IsNew, IsOf};
ghost use Rattle.claim_rule.specs.Out.{IsIdle};
ghost use Rattle.host_drill.specs.Totals.{busy_line, no_memory_line, refused_line};
ghost use Rattle.host_drill.specs.Meeting.{AreAnswered, EachAt, EachPair, IsFirst};
ghost use Rattle.host_drill.specs.Connections.{IsReady, Serves};
ghost use Rattle.host_drill.specs.Drilled.{IsDone, connection_of, answer_count};

use crate::connection::Connection;
use crate::counts::count_times;
use crate::generator::worker_requests;
use catalogue_contents::Catalogue;
use claim_rule::{Books, Desk};
use host_words::DrillWords;
use rail_io::{BytesSource, ScriptClock, VecSink};
use rail_time::Moment;
use session_loop::ConnEnd;
use std::alloc::{AllocError, Global};
use std::thread;
use std::thread::Threads;

/// The lines with which the answers 409, 500 and 503 begin.
const REFUSED: &[u8] = b"HTTP/1.1 409 Conflict\r\n";

const NO_MEMORY: &[u8] = b"HTTP/1.1 500 Internal Server Error\r\n";

const BUSY: &[u8] = b"HTTP/1.1 503 Service Unavailable\r\n";

/// The moment of all requests.
fn moment() -> Moment
    ensures { result ≡ 0 }
{
    match Moment::of(0) {
        Some(moment) => moment,
        None => unreachable!(),
    }
}

/// A connection with these requests, at a desk parted from the first.
fn open_connection(alloc: Global, books: &Books, desk: &mut Desk, requests: Vec<u8>) -> Connection
    requires own { IsOf books.now desk.old }
    requires first { desk.old.number ≡ 0 }
    ensures own { IsOf books.now desk.new × IsOf books.now result.desk }
    ensures idle { (IsIdle desk.old → IsIdle desk.new) × IsIdle result.desk }
    ensures same { (desk.new.number ≡ 0) × (desk.new.joined ≡ desk.old.joined)
        × (desk.new.parted ≡ desk.old.parted + 1) }
    ensures met { own desk.new.seen 0 ≡ own desk.old.seen 0 ++ entry 0 Met ∷ [] }
    ensures number { result.desk.number ≡ desk.new.parted }
    ensures none { own result.desk.seen desk.new.parted ≡ [] }
    ensures joined { result.desk.joined ≡ [] }
    ensures requests { source_left result.source ≡ requests.items }
    ensures fresh { sink_taken result.sink ≡ [] }
    ensures clock { (result.clock.next ≡ 0) × (result.clock.tick ≡ 0) }
{
    Connection {
        desk: books.part(desk),
        source: BytesSource::new(requests, Vec::new(alloc)),
        sink: VecSink::new(alloc, Vec::new(alloc)),
        clock: ScriptClock {
            next: moment(),
            tick: 0,
        },
        end: ConnEnd::NoMemory,
    }
}

/// A connection for each worker.
pub(crate) fn open_crew(
    alloc: Global,
    books: &Books,
    desk: &mut Desk,
    said: DrillWords,
) -> Result<Vec<Connection>, AllocError>
    requires own { IsOf books.now desk.old }
    requires idle { IsIdle desk.old }
    requires new { IsNew desk.old 0 [] }
    requires workers { said.workers ≤ 16 }
    requires size { said.size ≤ 2_000 }
    ensures own { IsOf books.now desk.new }
    ensures idle { IsIdle desk.new }
    ensures count { IfOk result (λ v. length v.items ≡ said.workers) }
    ensures first { IfOk result (λ _. IsFirst desk.new said.workers said.workers) }
    ensures ready { IfOk result (λ v. EachAt (IsReady books.now said.seed said.size) v.items) }
{
    let mut crew = Vec::new(alloc);
    for worker in 0..said.workers {
        let requests = worker_requests(alloc, said.seed, said.size, worker)?;
        crew.push(open_connection(alloc, books, desk, requests))?;
    }
    Ok(crew)
}

/// Serves all connections, each in a thread of its own as far as threads can be made.
pub(crate) fn serve_all<R: Threads + Sync>(
    rt: &R,
    alloc: Global,
    cat: &Catalogue,
    books: &Books,
    crew: &mut [Connection],
)
    requires own { All (λ c. IsOf books.now c.desk) crew.old }
    requires idle { All (λ c. IsIdle c.desk) crew.old }
    requires legs { books.now.layout.legs ≡ legs_in cat.now }
    requires rows { books.now.layout.rows ≡ cat.now.rows }
    ensures own { EachPair (λ _ c. IsOf books.now c.desk) crew.old crew.new }
    ensures idle { EachPair (λ _ c. IsIdle c.desk) crew.old crew.new }
    ensures served { EachPair (Serves cat.now) crew.old crew.new }
{
    if crew.is_empty() {
        return;
    }
    let threads = crew.len();
    thread::for_each_mut(
        rt,
        crew,
        threads,
        &|_: usize, connection: &mut Connection|
            requires own { IsOf books.now connection.old.desk }
            requires idle { IsIdle connection.old.desk }
            requires legs { books.now.layout.legs ≡ legs_in cat.now }
            requires rows { books.now.layout.rows ≡ cat.now.rows }
            ensures own { IsOf books.entry.now connection.new.desk }
            ensures idle { IsIdle connection.new.desk }
            ensures served { Serves cat.entry.now connection.old connection.new }
        {
            connection.serve(alloc, cat, books);
        },
    );
}

/// How many answers there are of two kinds.
#[derive(Clone, Copy)]
pub(crate) struct Answers {
    /// 409.
    pub(crate) refused: u32,
    /// 503.
    pub(crate) busy: u32,
}

/// The sum, where it has 32 bits.
fn add(sum: u32, more: usize) -> Option<u32>
    ensures { IfSome result (λ n. n ≡ sum + more) }
{
    sum.checked_add(u32::try_from(more).ok()?)
}

/// Takes in the connection's desk, and adds what it was answered.
fn meet_one(
    books: &Books,
    desk: &mut Desk,
    connection: Connection,
    answers: Answers,
) -> Option<Answers>
    requires own { IsOf books.now desk.old × IsOf books.now connection.desk }
    requires idle { IsIdle desk.old × IsIdle connection.desk }
    requires other { connection.desk.number ≢ 0 }
    ensures own { IsOf books.now desk.new }
    ensures idle { IsIdle desk.new }
    ensures met { HasMet desk.old connection.desk desk.new }
    ensures done { IfSome result (λ _. connection.end ≡ Done) }
    ensures refused { IfSome result (λ a. a.refused ≡ answers.refused + answer_count refused_line connection) }
    ensures busy { IfSome result (λ a. a.busy ≡ answers.busy + answer_count busy_line connection) }
    ensures no_memory { IfSome result (λ _. answer_count no_memory_line connection ≡ 0) }
{
    let Connection {
        desk: other,
        source: _,
        sink,
        clock: _,
        end,
    } = connection;
    books.meet(desk, other);
    let answered = sink.taken();
    if end != ConnEnd::Done || count_times(NO_MEMORY, answered) > 0 {
        return None;
    }
    Some(Answers {
        refused: add(answers.refused, count_times(REFUSED, answered))?,
        busy: add(answers.busy, count_times(BUSY, answered))?,
    })
}

/// Takes in all desks, and counts what their connections were answered: `None` where one of them didn't come to its
/// end, or was answered that there is no memory.
pub(crate) fn meet_all(
    cat: &Catalogue,
    said: DrillWords,
    books: &Books,
    desk: &mut Desk,
    crew: Vec<Connection>,
) -> Option<Answers>
    requires own { IsOf books.now desk.old }
    requires idle { IsIdle desk.old }
    requires first { IsFirst desk.old said.workers said.workers }
    requires count { length crew.items ≡ said.workers }
    requires done { EachAt (IsDone books.now cat.now said) crew.items }
    ensures own { IsOf books.now desk.new }
    ensures idle { IsIdle desk.new }
    ensures first { IfSome result (λ _. IsFirst desk.new said.workers 0) }
    ensures answered { IfSome result (λ a.
        AreAnswered (connection_of cat.now said) desk.new.seen said.workers 0 a.refused a.busy) }
{
    let _cat = cat;
    let _said = said;
    let mut left = crew;
    let mut answers = Answers {
        refused: 0,
        busy: 0,
    };
    while let Some(connection) = left.pop() {
        answers = meet_one(books, desk, connection, answers)?;
    }
    Some(answers)
}
