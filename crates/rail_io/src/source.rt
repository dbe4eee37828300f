// Where bytes come from.
ghost use Rattle.std.specs.Prelude.{◌≡◌, ◌≤◌, ◌<◌, ℕ, List, Option, length};
ghost use Rattle.rail_io.specs.declared.source.Pulled.TheVariants.{Failed};
ghost use Rattle.rail_io.specs.Faults.{Rose};
ghost use Rattle.rail_io.specs.Told.{Pulls};

/// What a read answers.
#[derive(Clone, Copy, PartialEq, Eq)]
pub enum Pulled {
    /// So many bytes stand at the front of the room, at least one.
    Got(usize),
    /// No byte is to come.
    End,
    /// The read failed, and no byte was taken.
    Failed,
}

/// Bytes that come one after another.
pub trait Source {
    /// The bytes still to come, where the source tells them.
    ghost told: { Self → Option (List ℕ) };

    /// How often it has failed. The count stands still at the last value of 64 bits, and at every
    /// call that doesn't fail.
    ghost faults: { Self → ℕ };

    /// Reads some of the bytes to the front of `room`, which isn't empty. `End` comes, of a source
    /// that tells its bytes, exactly where no byte is to come and the read doesn't fail.
    fn read(&mut self, room: &mut [u8]) -> Pulled
        requires { 0 < length room.old }
        ensures pulls { Pulls (told self.old) (told self.new) room.new result }
        ensures never_falls { faults self.old ≤ faults self.new }
        ensures cause { result ≡ Failed → Rose (faults self.old) (faults self.new) }
        ensures steady { (result ≡ Failed → ⊥) → faults self.new ≡ faults self.old };
}
