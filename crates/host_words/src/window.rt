// The operator's window, in the words of `serve`.
ghost use Rattle.std.specs.Prelude.{◌≡◌, IfOk};
ghost use Rattle.clap.specs.Words.{found_of, rows_of};
ghost use Rattle.host_words.specs.Options.{words_texts};
ghost use Rattle.host_words.specs.Window.{window_of, window_words};

use crate::fault::WordsFault;
use crate::options::{matches_of, number_of};
use crate::serve::serve_command;
use clap::ArgMatches;
use std::alloc::{AllocError, Global};

/// What the words of `serve` say of the operator's window.
#[derive(Clone, Copy, PartialEq, Eq)]
pub struct WindowWords {
    /// The port of the window, from 1 to 65,535.
    pub port: u16,
    /// How many members take connections, from 1 to 16.
    pub workers: u32,
}

fn window_in(matches: &ArgMatches<'_>) -> Option<WindowWords>
    ensures { result ≡ window_of (rows_of (found_of matches.now)) }
{
    let port = number_of(matches, "window", 1, 65_535)?;
    let workers = number_of(matches, "workers", 1, 16)?;
    Some(WindowWords {
        port: port as u16,
        workers,
    })
}

/// The window that words ask for, of which the first is `serve` itself. None where they ask for none, or are refused.
pub fn read_window(alloc: Global, words: &[String]) -> Result<Option<WindowWords>, AllocError>
    ensures { IfOk result (λ window. window ≡ window_words (words_texts words.now)) }
{
    match matches_of(serve_command(alloc)?, words) {
        Ok(matches) => Ok(window_in(&matches)),
        Err(WordsFault::NoMemory) => Err(AllocError),
        Err(WordsFault::Refused) => Ok(None),
    }
}
