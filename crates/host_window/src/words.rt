//! What the window says in few words.
ghost use Rattle.std.specs.Prelude.{◌≡◌, ◌≤◌, length};
ghost use Rattle.host_window.specs.Pages.{line_of, text_of, word_of};

use crate::counters::Health;

/// An answer in few words.
#[derive(Clone, Copy, PartialEq, Eq)]
pub(crate) enum Word {
    Well,
    Starting,
    Draining,
    Deaf,
    Lost,
    NotGet,
    Unknown,
    Refused,
    NoMemory,
}

impl Word {
    /// How a host does, in a word.
    pub(crate) fn of(health: Health) -> Word
        ensures { result ≡ word_of health }
    {
        match health {
            Health::Starting => Word::Starting,
            Health::Well => Word::Well,
            Health::Draining => Word::Draining,
            Health::Deaf => Word::Deaf,
            Health::Lost => Word::Lost,
        }
    }

    /// Its status with its reason, and the one further line that such an answer has.
    pub(crate) fn line(self) -> &'static [u8]
        ensures line { result.now ≡ line_of self }
        ensures short { length result.now ≤ 40 }
    {
        match self {
            Word::Well => b"200 OK",
            Word::Starting | Word::Draining | Word::Deaf | Word::Lost => b"503 Service Unavailable",
            Word::NotGet => b"405 Method Not Allowed\r\nAllow: GET",
            Word::Unknown => b"404 Not Found",
            Word::Refused => b"400 Bad Request",
            Word::NoMemory => b"500 Internal Server Error",
        }
    }

    /// Its text.
    pub(crate) fn text(self) -> &'static [u8]
        ensures text { result.now ≡ text_of self }
        ensures short { length result.now ≤ 40 }
    {
        match self {
            Word::Well => b"ok\n",
            Word::Starting => b"the host doesn't listen yet\n",
            Word::Draining => b"the last connection is taken\n",
            Word::Deaf => b"the listener is lost\n",
            Word::Lost => b"the journal is lost\n",
            Word::NotGet => b"GET alone is served\n",
            Word::Unknown => b"there is no such page\n",
            Word::Refused => b"this is no request\n",
            Word::NoMemory => b"there is no memory\n",
        }
    }
}
