// A text that outlives the process.
ghost use Rattle.std.specs.Prelude.{◌≡◌, ◌≤◌, ◌<◌, ℕ, List, Option, IfSome, length, true, false};
ghost use Rattle.rail_io.specs.declared.journal.JournalOpened.TheVariants.{Failed};
ghost use Rattle.rail_io.specs.Faults.{Rose};
ghost use Rattle.rail_io.specs.Journals.{Opens, Replaces, Appends};

use std::alloc::Global;

/// What the opening of a journal answers.
#[derive(Drop)]
pub enum JournalOpened {
    /// The whole text of the journal.
    Text(Vec<u8>),
    /// There is no such journal.
    Missing,
    /// The journal has more bytes than there is room for.
    TooLarge,
    /// Another process has it open.
    Locked,
    /// The journal can't be opened or read.
    Failed,
    /// There was no memory for the text.
    NoMemory,
}

/// A text that outlives the process and the machine's sudden end.
///
/// A journal that has failed once keeps nothing more: after a write that failed nobody knows what the next one would
/// find.
pub trait Journal {
    /// The bytes that are kept, where the journal tells them. A journal that isn't there keeps none.
    ghost told: { Self → Option (List ℕ) };

    /// How often it has failed. The count stands still at the last value of 64 bits, and at every call that doesn't
    /// fail.
    ghost faults: { Self → ℕ };

    /// That a call put this text in the place of all that was kept: the journal before it, the text, and the journal
    /// after it. Whoever knows nothing of the journal but this trait can show that only by such a call.
    ghost puts: { Self → List ℕ → Self → Type 0 } = { λ _ _ _. Unit {0} };

    /// That a call appended these bytes, and all are kept: likewise.
    ghost adds: { Self → List ℕ → Self → Type 0 } = { λ _ _ _. Unit {0} };

    /// Opens the journal of this name, and reads it whole, at most `room` bytes. Nothing in it changes.
    fn open(&mut self, alloc: Global, name: &str, room: u32) -> JournalOpened
        ensures opens { IfSome (told self.old) (λ kept. Opens kept room result) }
        ensures same { told self.new ≡ told self.old }
        ensures never_falls { faults self.old ≤ faults self.new }
        ensures cause { result ≡ Failed → Rose (faults self.old) (faults self.new) }
        ensures steady { (result ≡ Failed → ⊥) → faults self.new ≡ faults self.old };

    /// Puts this text in the place of all that is kept, and answers whether it is kept now. Where it fails, what was
    /// kept before is kept, or this text, each whole. What is there while the call runs, no clause says.
    fn replace(&mut self, text: &[u8]) -> bool
        ensures replaces { Replaces (told self.old) (told self.new) text.now result }
        ensures puts { result ≡ true → puts self.old text.now self.new }
        ensures spent { 0 < faults self.old → (result ≡ false) × (told self.new ≡ told self.old) }
        ensures never_falls { faults self.old ≤ faults self.new }
        ensures cause { result ≡ false → Rose (faults self.old) (faults self.new) }
        ensures steady { result ≡ true → faults self.new ≡ faults self.old };

    /// Appends these bytes, and answers whether all are kept now. Where it fails, the first of them may be.
    fn append(&mut self, piece: &[u8]) -> bool
        ensures appends { Appends (told self.old) (told self.new) piece.now result }
        ensures adds { result ≡ true → adds self.old piece.now self.new }
        ensures spent { 0 < faults self.old → (result ≡ false) × (told self.new ≡ told self.old) }
        ensures never_falls { faults self.old ≤ faults self.new }
        ensures cause { result ≡ false → Rose (faults self.old) (faults self.new) }
        ensures steady { result ≡ true → faults self.new ≡ faults self.old };
}
