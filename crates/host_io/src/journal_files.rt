// The calls of the system at the files of a journal.
ghost use Rattle.std.specs.Prelude.{◌≡◌, ◌⊎◌, ℕ, List, Option, IfSome, IfOk, OnOk, OnErr, true, false};
ghost use Rattle.rail_io.specs.Journals.{instead, Appends};
ghost use Rattle.host_io.specs.Opened.{ReadsText};

use std::alloc::Global;
use std::io;

/// The files of one journal: its text, what says that a process has it for itself alone, and a new text that is to take
/// the place of the old one.
pub trait JournalFiles {
    /// What the text has if the machine stops now, where the files tell it. A text that isn't there has nothing.
    ghost kept: { Self → Option (List ℕ) };

    /// What the new text has, where the files tell it.
    ghost fresh: { Self → Option (List ℕ) };

    /// Takes the files of this name for this process alone. False where another one has them.
    fn hold(&mut self, name: &str) -> io::Result<bool>
        ensures same { kept self.new ≡ kept self.old };

    /// Lets other processes have them.
    fn let_go(&mut self)
        ensures same { kept self.new ≡ kept self.old };

    /// The whole text, or its first bytes, one more than there is room for. None where there is no text.
    fn read(&mut self, alloc: Global, room: u32) -> io::Result<Option<Vec<u8>>>
        ensures reads { IfSome (kept self.old) (λ text. IfOk result (ReadsText text room)) }
        ensures same { kept self.new ≡ kept self.old };

    /// Writes a new text next to the old one, and keeps it there.
    fn write_new(&mut self, bytes: &[u8]) -> io::Result<()>
        ensures fresh { OnOk result (fresh self.new ≡ instead (kept self.old) bytes.now) }
        ensures same { kept self.new ≡ kept self.old };

    /// Puts the new text in the place of the old one, and keeps it there. Where that fails, the one or the other is
    /// there, and whole.
    fn put_new(&mut self) -> io::Result<()>
        ensures put { OnOk result (kept self.new ≡ fresh self.old) }
        ensures failed { OnErr result ((kept self.new ≡ kept self.old) ⊎ (kept self.new ≡ fresh self.old)) };

    /// Appends these bytes to the text, and keeps all of them. Where that fails, the first of them may be kept.
    fn append(&mut self, piece: &[u8]) -> io::Result<()>
        ensures appends { OnOk result (Appends (kept self.old) (kept self.new) piece.now true) }
        ensures failed { OnErr result (Appends (kept self.old) (kept self.new) piece.now false) };
}
