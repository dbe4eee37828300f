// How long a connection waits for a request.
ghost use Rattle.std.specs.Prelude.{◌≡◌, None, Ok, IfOk, OnErr, true};
ghost use Rattle.host_io.specs.Tcp.{seconds_of, limit_of};
ghost use Rattle.host_io.specs.Paces.{first_pace, noted, IsSpent, IsLimited, IsAllowed};

use crate::watch::Watch;
use std::io;
use std::io::ErrorKind;

/// How many seconds a read waits where nothing has come since the last answer.
pub(crate) const IDLE_SECONDS: u64 = 5;

/// How many seconds a read waits inside a request, and a write.
pub(crate) const STALLED_SECONDS: u64 = 30;

/// How many seconds a request may take from the first byte that came since the last answer until it is whole.
const REQUEST_SECONDS: u64 = 60;

/// How many seconds a read may wait: fewer where nothing has come since the last answer, or at all, than inside a
/// request.
fn read_seconds(idle: bool) -> u64
    ensures { result ≡ seconds_of idle }
{
    if idle { IDLE_SECONDS } else { STALLED_SECONDS }
}

/// How many milliseconds a read may wait, with those that its request has taken: no longer than until the request has
/// taken 60 seconds. None where it has taken them.
fn read_limit(idle: bool, spent: u64) -> Option<u64>
    ensures { result ≡ limit_of idle spent }
{
    let most = 1_000 * REQUEST_SECONDS;
    if spent >= most {
        return None;
    }
    Some((1_000 * read_seconds(idle)).min(most - spent))
}

/// How a connection's requests come.
#[derive(Drop)]
pub(crate) struct Pace {
    /// Whether nothing has come since the last answer.
    idle: bool,
    /// When a request was first found not to be whole, in milliseconds, which is as soon as its first bytes have come.
    /// A request that comes whole by one read costs no look at the clock.
    begun: Option<u64>,
    /// The milliseconds that a read may wait now.
    limit: u64,
    /// Whether the other side may still send.
    sends: bool,
}

impl Pace {
    /// A connection of which nothing has come, and whose reads wait for 5 seconds.
    pub(crate) fn new() -> Pace
        ensures { result ≡ first_pace }
    {
        Pace {
            idle: true,
            begun: None,
            limit: 1_000 * IDLE_SECONDS,
            sends: true,
        }
    }

    /// Whether the other side may still send.
    pub(crate) fn is_open(&self) -> bool
        ensures { result ≡ self.now.sends }
    {
        self.sends
    }

    /// The last request is answered.
    pub(crate) fn rest(&mut self)
        ensures { self.new ≡ record self.old { idle = true } }
    {
        self.idle = true;
    }

    // The milliseconds since the request began that the next read is for: 0 where nothing of it has come.
    fn spent<T: Watch>(&mut self, watch: &mut T) -> io::Result<u64>
        ensures same { self.new ≡ record self.old { begun = self.new.begun } }
        ensures idle { self.old.idle ≡ true → (self.new.begun ≡ None) × (result ≡ Ok 0) }
        ensures spent { IfOk result (IsSpent self.old self.new (T.next watch.old)) }
    {
        if self.idle {
            self.begun = None;
            return Ok(0);
        }
        let Some(begun) = self.begun else {
            self.begun = Some(watch.look()?);
            return Ok(0);
        };
        Ok(watch.look()?.saturating_sub(begun))
    }

    // How many milliseconds the next read may wait whose request has taken these, where that has changed.
    fn allow(&mut self, spent: u64) -> io::Result<Option<u64>>
        ensures limit { IfOk result (IsLimited self.old self.new spent) }
        ensures none_left { OnErr result (limit_of self.old.idle spent ≡ None) }
    {
        let Some(limit) = read_limit(self.idle, spent) else {
            return Err(io::Error::from(ErrorKind::TimedOut));
        };
        if limit == self.limit {
            return Ok(None);
        }
        self.limit = limit;
        Ok(Some(limit))
    }

    /// How many milliseconds the next read may wait, where that has changed since the last one. An error where no time
    /// is left.
    pub(crate) fn next_limit<T: Watch>(&mut self, watch: &mut T) -> io::Result<Option<u64>>
        ensures limit { IfOk result (IsAllowed self.old self.new (T.next watch.old)) }
    {
        let spent = self.spent(watch)?;
        self.allow(spent)
    }

    /// What a read came to. One that a signal interrupted says nothing.
    pub(crate) fn note(&mut self, answer: &io::Result<usize>)
        ensures { self.new ≡ noted self.old answer.now }
    {
        match answer {
            Ok(0) => self.sends = false,
            Ok(_) => self.idle = false,
            Err(error) if error.kind() == ErrorKind::Interrupted => {}
            Err(_) => self.sends = false,
        }
    }
}
