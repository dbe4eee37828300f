// Files by name.
ghost use Rattle.std.specs.Prelude.{◌≡◌, ◌≤◌, ℕ, List, Option, IfSome};
ghost use Rattle.rail_io.specs.declared.shelf.Fetched.TheVariants.{Failed, Missing, TooLarge};
ghost use Rattle.rail_io.specs.Faults.{Rose};
ghost use Rattle.rail_io.specs.Files.{Fetches};

use std::alloc::Global;

/// What a shelf answers for a name.
#[derive(Drop)]
pub enum Fetched {
    /// The content of the file.
    Got(Vec<u8>),
    /// There is no such file.
    Missing,
    /// The file has more bytes than there is room for.
    TooLarge,
    /// The shelf failed.
    Failed,
    /// There was no memory for the content.
    NoMemory,
}

/// Files by name.
pub trait Shelf {
    /// The content of the file of each name, where the shelf tells its files.
    ghost told: { Self → Option (List ℕ → Option (List ℕ)) };

    /// How often it has failed. The count stands still at the last value of 64 bits.
    ghost faults: { Self → ℕ };

    /// How often a file was missing or too large. The count stands still at the last value of 64 bits.
    ghost misses: { Self → ℕ };

    /// The content of the file with the name, of at most `room` bytes. A missing or too large file
    /// is a miss and no fault.
    fn fetch(&mut self, alloc: Global, name: &str, room: u32) -> Fetched
        ensures files { IfSome (told self.old) (λ files. Fetches files name.now room result) }
        ensures same { told self.new ≡ told self.old }

        ensures faults_never_fall { faults self.old ≤ faults self.new }
        ensures failed { result ≡ Failed → Rose (faults self.old) (faults self.new) }
        ensures steady { (result ≡ Failed → ⊥) → faults self.new ≡ faults self.old }

        ensures misses_never_fall { misses self.old ≤ misses self.new }
        ensures missing { result ≡ Missing → Rose (misses self.old) (misses self.new) }
        ensures too_large { result ≡ TooLarge → Rose (misses self.old) (misses self.new) };
}
