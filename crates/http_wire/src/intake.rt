// The wire's memory.
ghost use Rattle.std.specs.Prelude.{◌≡◌, ◌≤◌, ◌<◌, ◌+◌, ◌-◌, ◌^◌, ℕ, List, [], ◌++◌, length, take, drop, slice_range, min, option_map, IfSome, IfOk, None};
ghost use Rattle.httparse.specs.Spans.{IsWithin, span_bytes};
ghost use Rattle.rail_io.specs.Faults.{Rose};
ghost use Rattle.rail_io.specs.Told.{with_front};
ghost use Rattle.http_wire.specs.declared.request.Next.TheVariants.{ReadFault};
ghost use Rattle.http_wire.specs.Pieces.{piece_bytes, IsPieceWithin, IsFront};
ghost use Rattle.http_wire.specs.Next.{IsNext, ReadsAtNeed, looked_at};
ghost use Rattle.http_wire.specs.Requests.{HeadAt};
ghost use Rattle.http_wire.specs.Stages.{IsStage, IsSearchOver, searched, EndsAtRequest, KeepsHead};
ghost use Rattle.http_wire.specs.declared.intake.Stage.TheVariants.{Head, Body};

use crate::head::{HEAD_LINES, HEAD_ROOM, ServedHead};
use crate::request::{Next, Piece, Request, WireFault};
use crate::room::{draw, next_start};
use crate::scan::HeadScan;
use crate::served::served_head;
use httparse::spans::Span;
use rail_io::{Pulled, Source};
use std::alloc::{AllocError, Global};
use std::marker::{Brand, Model};
use std::sync::ledger::{Blank, Ledger};
use step_count::Steps;

/// A head and a body.
const ROOM: usize = 278_528;

/// The most requests of a connection.
const MOST: u32 = 65_536;

/// All the wire's memory: 278,528 bytes, room for the largest head and the largest body together.
/// Contracts see the bytes of the last request, the bytes held unread after it, and how many
/// requests were given.
#[derive(Drop)]
pub struct Intake {
    memory: Vec<u8>,
    filled: usize,
    /// Where the last request starts.
    start: usize,
    /// Where it ends, and the bytes held unread start.
    at: usize,
    given: u32,
    stage: Stage,
}

impl Model for Intake {
    ghost use Rattle.std.specs.Prelude.{slice_range};
    ghost use Rattle.http_wire.specs.Stages.{searched};
    ghost use Rattle.http_wire.specs.View.{IntakeView, IsIntake};

    ghost Value = { IntakeView };

    ghost view = { λ a. record {
      taken = slice_range a.memory.items a.start a.at;
      unread = slice_range a.memory.items a.at a.filled;
      looked = searched a.stage;
      given = a.given;
    } };

    ghost invariant = { λ a. IsIntake a.memory.items a.filled a.start a.at a.given a.stage };
}

/// What stands at the front of some bytes.
#[derive(Clone, Copy)]
pub enum Front {
    Whole(Request, usize),
    Fault(WireFault),
    Blank,
    Open,
}

fn piece(span: Span) -> Piece
    requires ordered { span.start ≤ span.end }
    requires small { span.end < 2 ^ 32 }
    ensures bytes { (text : List ℕ) → piece_bytes text result ≡ span_bytes text span }
    ensures end { result.start + result.len ≡ span.end }
{
    Piece {
        start: span.start as u32,
        len: (span.end - span.start) as u32,
    }
}

fn key_piece(key: Option<Span>) -> Option<Piece>
    requires { IfSome key (IsWithin (2 ^ 32 - 1)) }
    ensures bytes { (text : List ℕ) → option_map (piece_bytes text) result ≡ option_map (span_bytes text) key }
    ensures within { (n : ℕ) → IfSome key (IsWithin n) → IfSome result (IsPieceWithin n) }
{
    match key {
        Some(key) => Some(piece(key)),
        None => None,
    }
}

/// How far the reading of the next request has come.
#[derive(Clone, Copy)]
pub enum Stage {
    /// No end of its head was found.
    Head(HeadScan),
    /// Its head has that many bytes, and says this.
    Body(usize, ServedHead),
}

/// What stands at the front of the text, which isn't known to be all of the stream. A step is one byte looked at.
fn examine<L: Ledger>(text: &[u8], number: u32, stage: &mut Stage, steps: &mut Steps<L>) -> Front
    requires { IsStage number text.now stage.old }
    ensures front { IsFront number text.now result }
    ensures stage { IsStage number text.now stage.new }
    ensures ends { EndsAtRequest result stage.new }
    ensures kept { KeepsHead result stage.new }
    ensures steps { steps.new + searched stage.old ≤ steps.old + searched stage.new }
{
    match *stage {
        Stage::Head(before) => search_on(text, number, before, stage, steps),
        Stage::Body(end, head) => body_after(text, number, end, head),
    }
}

/// The same, where what the head says isn't known yet.
fn search_on<L: Ledger>(
    text: &[u8],
    number: u32,
    before: HeadScan,
    stage: &mut Stage,
    steps: &mut Steps<L>,
) -> Front
    requires { IsStage number text.now (Head before) }
    ensures front { IsFront number text.now result }
    ensures stage { IsStage number text.now stage.new }
    ensures ends { EndsAtRequest result stage.new }
    ensures kept { KeepsHead result stage.new }
    ensures steps { steps.new + before.at ≤ steps.old + searched stage.new }
{
    let room = text.len().min(HEAD_ROOM);
    let scan = before.feed(&text[before.at as usize..room], steps);
    *stage = Stage::Head(scan);
    after_search(text, number, scan, stage)
}

/// The same, where the search stands after all bytes that a head may have, or after the head's end.
fn after_search(text: &[u8], number: u32, scan: HeadScan, stage: &mut Stage) -> Front
    requires stage { IsStage number text.now (Head scan) }
    requires all { IsSearchOver text.now scan }
    requires kept { stage.old ≡ Head scan }
    ensures front { IsFront number text.now result }
    ensures stage { IsStage number text.now stage.new }
    ensures ends { EndsAtRequest result stage.new }
    ensures kept { KeepsHead result stage.new }
    ensures searched { searched stage.new ≡ scan.at }
{
    if scan.lines as usize > HEAD_LINES {
        return Front::Fault(WireFault::HeadTooLarge);
    }
    match scan.ended {
        Some(end) => after_head(text, number, end as usize, stage),
        None => without_head(text, number, scan),
    }
}

/// The same, where no head has ended in the bytes searched.
fn without_head(text: &[u8], number: u32, scan: HeadScan) -> Front
    requires stage { IsStage number text.now (Head scan) }
    requires open { scan.ended ≡ None }
    requires few { scan.lines ≤ 64 }
    requires all { scan.at ≡ min (length text.now) 16384 }
    ensures front { IsFront number text.now result }
    ensures ends { EndsAtRequest result (Head scan) }
{
    if text.len() >= HEAD_ROOM {
        return Front::Fault(WireFault::HeadTooLarge);
    }
    if scan.is_blank() {
        Front::Blank
    } else {
        Front::Open
    }
}

/// The same, where the head ends. What it says is kept only where the body isn't there yet.
fn after_head(text: &[u8], number: u32, end: usize, stage: &mut Stage) -> Front
    requires at { HeadAt text.now (take end text.now) (drop end text.now) }
    requires within { end ≤ length text.now }
    requires stage { IsStage number text.now stage.old }
    requires searched { searched stage.old ≡ end }
    ensures front { IsFront number text.now result }
    ensures stage { IsStage number text.now stage.new }
    ensures ends { EndsAtRequest result stage.new }
    ensures kept { KeepsHead result stage.new }
    ensures searched { searched stage.new ≡ end }
{
    match served_head(&text[..end], number) {
        Ok(head) => {
            let front = body_after(text, number, end, head);
            if let Front::Open = front {
                *stage = Stage::Body(end, head);
            }
            front
        }
        Err(fault) => Front::Fault(fault),
    }
}

/// What stands there, where the head is one of a request.
fn body_after(text: &[u8], number: u32, end: usize, head: ServedHead) -> Front
    requires { IsStage number text.now (Body end head) }
    ensures front { IsFront number text.now result }
    ensures ends { EndsAtRequest result (Body end head) }
{
    let length = head.length as usize;
    if text.len() - end < length {
        return Front::Open;
    }
    let request = Request {
        method: piece(head.method),
        path: piece(head.path),
        key: key_piece(head.key),
        body: Piece {
            start: end as u32,
            len: head.length,
        },
        last: head.last,
    };
    Front::Whole(request, end + length)
}

impl Intake {
    /// Takes all the wire's memory. Nothing is held, and no request was given.
    pub fn start(alloc: Global) -> Result<Intake, AllocError>
        ensures taken { IfOk result (λ intake. intake.taken ≡ []) }
        ensures unread { IfOk result (λ intake. intake.unread ≡ []) }
        ensures looked { IfOk result (λ intake. intake.looked ≡ 0) }
        ensures given { IfOk result (λ intake. intake.given ≡ 0) }
    {
        let mut memory = Vec::with_capacity(alloc, ROOM)?;
        memory.resize(ROOM, 0)?;
        Ok(Intake {
            memory,
            filled: 0,
            start: 0,
            at: 0,
            given: 0,
            stage: Stage::Head(HeadScan::start()),
        })
    }

    /// The next request of the bytes held unread and of those that the source has left. It reads
    /// nothing where the bytes held tell (`at_once`), and is to read no more than it needs. Once 65,536
    /// requests were given there is no next one: the last was that of its connection.
    pub fn next_request<S: Source>(&mut self, source: &mut S) -> Next
        requires few { self.old.given < 65536 }
        ensures next { (pulled : List ℕ)
            × (S.told source.old ≡ with_front pulled (S.told source.new))
            × IsNext (self.old.given + 1) (self.old.unread ++ pulled) self.new (S.told source.new) result }
        ensures never_falls { S.faults source.old ≤ S.faults source.new }
        ensures at_once { ReadsAtNeed self.old self.new }
        ensures cause { result ≡ ReadFault → Rose (S.faults source.old) (S.faults source.new) }
        ensures steady { (result ≡ ReadFault → ⊥) → S.faults source.new ≡ S.faults source.old }
    {
        self.next_of_ledger::<Brand, S>(source, Blank::new(1))
    }

    /// The same, with the ledger of steps that no one reads.
    fn next_of_ledger<L: Ledger, S: Source>(&mut self, source: &mut S, blank: Blank) -> Next
        requires few { self.old.given < 65536 }
        requires name { blank.name ≡ L.name }
        requires parts { blank.parts ≡ L.parts }
        requires some { 0 < blank.parts }
        ensures next { (pulled : List ℕ)
            × (S.told source.old ≡ with_front pulled (S.told source.new))
            × IsNext (self.old.given + 1) (self.old.unread ++ pulled) self.new (S.told source.new) result }
        ensures never_falls { S.faults source.old ≤ S.faults source.new }
        ensures at_once { ReadsAtNeed self.old self.new }
        ensures cause { result ≡ ReadFault → Rose (S.faults source.old) (S.faults source.new) }
        ensures steady { (result ≡ ReadFault → ⊥) → S.faults source.new ≡ S.faults source.old }
    {
        let mut steps = Steps::<L>::start(blank);
        self.next_request_counted(source, &mut steps)
    }

    /// `next_request`, whose steps are counted: a step is to be one byte looked at in the search for a head's end. All
    /// calls for one request together take at most one for each of its bytes, and none for bytes after it: so at most
    /// as many as bytes came. That each byte looked at is a step is read.
    pub fn next_request_counted<S: Source, L: Ledger>(
        &mut self,
        source: &mut S,
        steps: &mut Steps<L>,
    ) -> Next
        requires few { self.old.given < 65536 }
        ensures next { (pulled : List ℕ)
            × (S.told source.old ≡ with_front pulled (S.told source.new))
            × (steps.new ≤ steps.old + (length self.old.unread + length pulled))
            × IsNext (self.old.given + 1) (self.old.unread ++ pulled) self.new (S.told source.new) result }
        ensures each_once { steps.new + self.old.looked ≤ steps.old + looked_at self.new result }
        ensures looked { self.new.looked ≤ length self.new.unread }
        ensures never_falls { S.faults source.old ≤ S.faults source.new }
        ensures at_once { ReadsAtNeed self.old self.new }
        ensures cause { result ≡ ReadFault → Rose (S.faults source.old) (S.faults source.new) }
        ensures steady { (result ≡ ReadFault → ⊥) → S.faults source.new ≡ S.faults source.old }
    {
        let start = next_start(self.at, self.filled);
        self.filled = start + (self.filled - self.at);
        self.start = start;
        self.at = start;
        let number = self.given + 1;
        'reads: loop {
            let text = &self.memory[self.at..self.filled];
            let blank = match examine(text, number, &mut self.stage, steps) {
                Front::Whole(request, size) => {
                    self.at += size;
                    self.given = number;
                    self.stage = Stage::Head(HeadScan::start());
                    return Next::Request(request);
                }
                Front::Fault(fault) => return Next::Bad(fault),
                Front::Blank => true,
                Front::Open => false,
            };
            let drawn = draw(&mut self.memory, self.start, self.filled, source);
            self.start = drawn.start;
            self.at = drawn.start;
            self.filled = drawn.filled;
            match drawn.answer {
                Pulled::Got(_) => {}
                Pulled::End => return if blank { Next::End } else { Next::Cut },
                Pulled::Failed => return Next::ReadFault,
            }
        }
    }

    /// The bytes of a piece, which lies in the last request.
    pub fn part(&self, piece: Piece) -> &[u8]
        requires within { IsPieceWithin (length self.now.taken) piece }
        ensures bytes { result.now ≡ piece_bytes self.now.taken piece }
    {
        let start = self.start + piece.start as usize;
        &self.memory[start..start + piece.len as usize]
    }
}
