// Calls round each turn, for tests and for counts.

/// Is told of each turn. It can't refuse one.
pub trait Gate {
    /// The member of this place in the crew is about to take a turn.
    fn before(&self, member: u32);

    /// Its turn was answered.
    fn after(&self, member: u32);
}

/// Does nothing.
#[derive(Clone, Copy, Drop)]
pub struct Open;

impl Gate for Open {
    fn before(&self, _member: u32) {}

    fn after(&self, _member: u32) {}
}
