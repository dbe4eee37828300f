// The operator's window, where the words ask for it.
ghost use Rattle.std.specs.Prelude.{IfOk};
ghost use Rattle.host_words.specs.Options.{words_texts};
ghost use Rattle.host_io.specs.Asked.{IsAskedWindow};

use crate::tcp_port::TcpPort;
use host_window::Counters;
use host_words::{CommandName, is_for, read_window};
use rail_io::Keeper;
use rail_service::{Bound, Listener};
use std::alloc::{AllocError, Global};
use std::net::{Net, TcpListener, TcpStream};
use std::time;

/// A window that words ask for: its port, and what it shows.
#[derive(Drop)]
pub struct Window {
    pub port: u16,
    pub counters: Counters,
}

/// The window that the words ask for. None where they ask for none, or are refused.
pub fn asked_window(alloc: Global, words: &[String]) -> Result<Option<Window>, AllocError>
    ensures window { IfOk result (IsAskedWindow (words_texts words.now)) }
{
    if !is_for(words, CommandName::Serve) {
        return Ok(None);
    }
    let Some(said) = read_window(alloc, words)? else {
        return Ok(None);
    };
    Ok(Some(Window {
        port: said.port,
        counters: Counters::new(alloc, said.workers)?,
    }))
}

/// What is counted, where there is a window.
pub fn counters_of(window: &Option<Window>) -> Option<&Counters> {
    match window {
        Some(window) => Some(&window.counters),
        None => None,
    }
}

/// Says once the host is over that nothing more may be taken on.
#[derive(Clone, Copy, Drop)]
pub struct UntilOver<'c> {
    counters: &'c Counters,
}

impl Keeper for UntilOver<'_> {
    fn wait_kept(&self, cut: u64) -> bool {
        let _ = cut;
        true
    }

    fn is_lost(&self) -> bool {
        self.counters.is_over()
    }
}

/// The port of those who look through the window. None where it can't be listened at.
pub fn window_port<
    'c,
    N: Net<Listener = TcpListener, Stream = TcpStream> + time::Clock + Copy + Drop,
>(net: N, alloc: Global, window: &'c Window) -> Option<TcpPort<'c, N, UntilOver<'c>>> {
    let keeper = UntilOver {
        counters: &window.counters,
    };
    let mut port = TcpPort::new(net, alloc, keeper, None);
    matches!(port.bind(window.port), Bound::Ready).then_some(port)
}
