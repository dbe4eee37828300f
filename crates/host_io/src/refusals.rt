// What an accept makes of the system's errors.
ghost use Rattle.std.specs.Prelude.{◌≡◌, if◌then◌else◌};
ghost use Rattle.std.specs.IoError.{raw_os_error};
ghost use Rattle.host_io.specs.Refusals.{after_refusal as after_of, code_by};
ghost use Rattle.host_window.specs.declared.counters.Health.TheVariants.{Lost};

use host_window::Health;
use std::io;

/// What an accept does that the system gave no stream.
#[derive(Clone, Copy, PartialEq, Eq)]
pub enum AfterRefusal {
    /// It fails: the listener is gone.
    Fail,
    /// It asks again: a connection was given up before it was accepted, or the call was interrupted.
    Again,
    /// It asks again after a pause: handles of files, memory or something else is wanting that comes back.
    Pause,
}

/// What an accept does after this error of Linux: EBADF, EINVAL, ENOTSOCK and EOPNOTSUPP say that the listener is gone;
/// EINTR, EPROTO and ECONNABORTED concern one connection alone.
pub fn after_refusal(code: u32) -> AfterRefusal
    ensures { result ≡ after_of code }
{
    match code {
        9 | 22 | 88 | 95 => AfterRefusal::Fail,
        4 | 71 | 103 => AfterRefusal::Again,
        _ => AfterRefusal::Pause,
    }
}

/// The number of the system's error, or 0 for one of our own.
pub(crate) fn code_of(error: io::Error) -> u32
    ensures { result ≡ code_by (raw_os_error error) }
{
    match error.raw_os_error() {
        Some(code) => u32::try_from(code).unwrap_or(0),
        None => 0,
    }
}

/// How a host does from now on, unless its journal is lost. That may be so though no write of it failed: where there
/// was no memory for a cut.
pub(crate) fn health_of(is_lost: bool, health: Health) -> Health
    ensures { result ≡ (if is_lost then Lost else health) }
{
    if is_lost { Health::Lost } else { health }
}
