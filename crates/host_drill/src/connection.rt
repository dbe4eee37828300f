// One connection of a drill.
ghost use Rattle.std.specs.Prelude.{◌≡◌};
ghost use Rattle.catalogue_contents.specs.Contents.{legs_in};
ghost use Rattle.claim_rule.specs.Desks.{IsOf};
ghost use Rattle.claim_rule.specs.Out.{IsIdle};
ghost use Rattle.host_drill.specs.Connections.{Serves};

use catalogue_contents::Catalogue;
use claim_rule::{Books, Desk};
use rail_io::{BytesSource, ScriptClock, VecSink};
use rail_service::serve_connection;
use session_loop::ConnEnd;
use std::alloc::Global;

/// A worker's connection, from memory to memory.
#[derive(Drop)]
pub(crate) struct Connection {
    /// Whose entries its bookings are.
    pub(crate) desk: Desk,
    /// The requests.
    pub(crate) source: BytesSource,
    /// What they are answered.
    pub(crate) sink: VecSink,
    pub(crate) clock: ScriptClock,
    /// How it ended. Until it is served, that there was no memory for it.
    pub(crate) end: ConnEnd,
}

impl Connection {
    /// Serves its requests at its desk.
    pub(crate) fn serve(&mut self, alloc: Global, cat: &Catalogue, books: &Books)
        requires own { IsOf books.now self.old.desk }
        requires legs { books.now.layout.legs ≡ legs_in cat.now }
        requires rows { books.now.layout.rows ≡ cat.now.rows }
        requires idle { IsIdle self.old.desk }
        ensures own { IsOf books.now self.new.desk }
        ensures idle { IsIdle self.new.desk }
        ensures served { Serves cat.now self.old self.new }
    {
        self.end = serve_connection(
            alloc,
            cat,
            books,
            &mut self.desk,
            &mut self.source,
            &mut self.sink,
            &mut self.clock,
        );
    }
}
