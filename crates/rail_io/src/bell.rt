// What wakes whoever waits for a connection.

/// Wakes whoever waits at a port of this machine.
pub trait Bell {
    /// Is to wake whoever waits now for a connection to the port. It may be that nobody does. No clause says that it
    /// does.
    fn ring(&mut self, port: u16);
}

/// A bell where nobody waits.
#[derive(Clone, Copy)]
pub struct NoBell;

impl Bell for NoBell {
    fn ring(&mut self, port: u16) {
        let _ = port;
    }
}
