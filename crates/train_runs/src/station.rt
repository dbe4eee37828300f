ghost use Rattle.std.specs.Prelude.{◌≡◌, ◌≤◌, true, length, string_bytes};
ghost use Rattle.std.specs.List.{list_all};
ghost use Rattle.train_runs.specs.Stations.{StationView, is_code as is_code_of, is_code_byte as is_code_byte_of, code_number as code_number_of, most_code_letters};

use std::marker::Model;

/// How many stations there may be.
pub const MOST_STATIONS: usize = 65_536;

/// How many letters a code has at most.
const MOST_CODE_LETTERS: usize = 8;

/// Why a station was refused.
#[derive(Clone, Copy, PartialEq, Eq)]
pub enum StationFault {
    /// The code isn't 1 to 8 of `A` to `Z` and `0` to `9`.
    BadCode,
    /// Another station has the code.
    DoubleCode,
    /// There are 65,536 stations.
    TooManyStations,
    /// Want of memory.
    NoMemory,
}

/// A station: its code, and how many seconds a change of trains takes there at least.
#[derive(Drop)]
pub(crate) struct Station {
    code: String,
    change: u32,
}

impl Model for Station {
    ghost use Rattle.std.specs.Prelude.{string_bytes};
    ghost use Rattle.train_runs.specs.Stations.{StationView};

    ghost Value = { StationView };

    ghost view = { λ s. record { code = string_bytes s.code; change = s.change } };
}

impl Station {
    pub(crate) fn new(code: String, change: u32) -> Self
        ensures { result ≡ record { code = string_bytes code; change = change } }
    {
        Station { code, change }
    }

    pub(crate) fn code(&self) -> &str
        ensures { result.now ≡ self.now.code }
    {
        self.code.as_str()
    }

    pub(crate) fn change(&self) -> u32
        ensures { result ≡ self.now.change }
    {
        self.change
    }
}

/// Whether the bytes are a station's code.
pub(crate) fn is_code(code: &[u8]) -> bool
    ensures { result ≡ is_code_of code.now }
{
    !code.is_empty() && code.len() <= MOST_CODE_LETTERS && are_code_bytes(code)
}

fn are_code_bytes(code: &[u8]) -> bool
    ensures { result ≡ list_all is_code_byte_of code.now }
{
    for b in code {
        if !is_code_byte(*b) {
            return false;
        }
    }
    true
}

/// The number of a code: no other code has it.
pub(crate) fn code_number(code: &[u8]) -> u64
    requires few { length code.now ≤ most_code_letters }
    requires letters { list_all is_code_byte_of code.now ≡ true }
    ensures { result ≡ code_number_of code.now }
{
    match code {
        [] => 0,
        [first, rest @ ..] => u64::from(*first) + 256 * code_number(rest),
    }
}

fn is_code_byte(b: u8) -> bool
    ensures { result ≡ is_code_byte_of b }
{
    b.is_ascii_uppercase() || b.is_ascii_digit()
}
