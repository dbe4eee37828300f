// The words of `serve`.
ghost use Rattle.std.specs.Prelude.{◌≡◌, ◌≤◌, Some, None, IfOk, IfErr, IfSome, codes, false};
ghost use Rattle.clap.specs.Words.{app_of, found_of, first_of, new_rule, rows_of, rule_of};
ghost use Rattle.host_words.specs.Options.{flag_rule, is_set, numbered, option_rule, required, with_default};
ghost use Rattle.host_words.specs.Options.{words_texts};
ghost use Rattle.host_words.specs.Said.{said_in};
ghost use Rattle.host_words.specs.Serve.{IsInRange, serve_app, serve_words, numbers_of};

use crate::fault::WordsFault;
use crate::options::{from_option, matches_of, number_of};
use clap::{Arg, ArgAction, ArgMatches, Command};
use std::alloc::{AllocError, Global};

/// The numbers of the words of `serve`.
#[derive(Clone, Copy, PartialEq, Eq)]
pub struct Serving {
    /// The port to listen at, from 1 to 65,535.
    pub port: u16,
    /// How many members take connections, from 1 to 16.
    pub workers: u32,
    /// How many connections are taken, from 1 to 4,294,967,295.
    pub connections: u32,
    /// The seconds from one sweep to the next, from 1 to 86,400.
    pub sweep: u32,
}

/// What the words of `serve` say.
#[derive(Clone, Copy)]
pub struct ServeWords<'a> {
    /// The name of the catalogue's file.
    pub catalogue: &'a str,
    /// The name of the export that the books open with. None: they open with no booking, or with those of the journal.
    pub from: Option<&'a str>,
    /// The name of the journal that is kept. None: none is.
    pub journal: Option<&'a str>,
    pub numbers: Serving,
    /// Whether the export of the books is written at the end.
    pub export: bool,
}

fn catalogue_word<'a>(alloc: Global) -> Arg<'a>
    ensures rule { rule_of result ≡ required (new_rule (codes "catalogue")) }
    ensures local { result.global ≡ false }
{
    Arg::new(alloc, "catalogue").required(true)
}

fn port_option<'a>(alloc: Global) -> Arg<'a>
    ensures rule { rule_of result ≡ required (numbered 1 65535 (option_rule (codes "port"))) }
    ensures local { result.global ≡ false }
{
    Arg::new(alloc, "port")
        .long("port")
        .required(true)
        .value_parser(clap::value_parser!(u32).range(1..=65_535))
}

fn workers_option<'a>(alloc: Global) -> Arg<'a>
    ensures rule { rule_of result ≡ with_default (codes "4") (numbered 1 16 (option_rule (codes "workers"))) }
    ensures local { result.global ≡ false }
{
    Arg::new(alloc, "workers")
        .long("workers")
        .value_parser(clap::value_parser!(u32).range(1..=16))
        .default_value("4")
}

fn connections_option<'a>(alloc: Global) -> Arg<'a>
    ensures rule { rule_of result
        ≡ with_default (codes "4294967295") (numbered 1 4294967295 (option_rule (codes "connections"))) }
    ensures local { result.global ≡ false }
{
    Arg::new(alloc, "connections")
        .long("connections")
        .value_parser(clap::value_parser!(u32).range(1..=4_294_967_295))
        .default_value("4294967295")
}

fn sweep_option<'a>(alloc: Global) -> Arg<'a>
    ensures rule { rule_of result ≡ with_default (codes "30") (numbered 1 86400 (option_rule (codes "sweep"))) }
    ensures local { result.global ≡ false }
{
    Arg::new(alloc, "sweep")
        .long("sweep")
        .value_parser(clap::value_parser!(u32).range(1..=86_400))
        .default_value("30")
}

fn journal_option<'a>(alloc: Global) -> Arg<'a>
    ensures rule { rule_of result ≡ option_rule (codes "journal") }
    ensures local { result.global ≡ false }
{
    Arg::new(alloc, "journal").long("journal")
}

fn export_option<'a>(alloc: Global) -> Arg<'a>
    ensures rule { rule_of result ≡ flag_rule (codes "export") }
    ensures local { result.global ≡ false }
{
    Arg::new(alloc, "export")
        .long("export")
        .action(ArgAction::SetTrue)
}

fn window_option<'a>(alloc: Global) -> Arg<'a>
    ensures rule { rule_of result ≡ numbered 1 65535 (option_rule (codes "window")) }
    ensures local { result.global ≡ false }
{
    Arg::new(alloc, "window")
        .long("window")
        .value_parser(clap::value_parser!(u32).range(1..=65_535))
}

fn address_option<'a>(alloc: Global) -> Arg<'a>
    ensures rule { rule_of result ≡ option_rule (codes "address") }
    ensures local { result.global ≡ false }
{
    Arg::new(alloc, "address").long("address")
}

/// What `clap` takes as the words of `serve`.
pub(crate) fn serve_command<'a>(alloc: Global) -> Result<Command<'a>, AllocError>
    ensures { IfOk result (λ command. app_of command ≡ serve_app) }
{
    Command::new(alloc, "serve")
        .arg(catalogue_word(alloc))?
        .arg(port_option(alloc))?
        .arg(workers_option(alloc))?
        .arg(connections_option(alloc))?
        .arg(sweep_option(alloc))?
        .arg(from_option(alloc))?
        .arg(journal_option(alloc))?
        .arg(export_option(alloc))?
        .arg(window_option(alloc))?
        .arg(address_option(alloc))
}

fn numbers_in(matches: &ArgMatches<'_>) -> Option<Serving>
    ensures numbers { result ≡ numbers_of (rows_of (found_of matches.now)) }
    ensures ranges { IfSome result IsInRange }
{
    let port = number_of(matches, "port", 1, 65_535)?;
    let workers = number_of(matches, "workers", 1, 16)?;
    let connections = number_of(matches, "connections", 1, 4_294_967_295)?;
    let sweep = number_of(matches, "sweep", 1, 86_400)?;
    Some(Serving {
        port: port as u16,
        workers,
        connections,
        sweep,
    })
}

// Whether the words have the flag.
fn is_exporting(matches: &ArgMatches<'_>) -> bool
    ensures { result ≡ is_set (first_of (codes "export") (rows_of (found_of matches.now))) }
{
    match matches.get_str("export") {
        Some(text) => text == "true",
        None => false,
    }
}

/// What the words say, of which the first is `serve` itself.
pub fn read_serve<'a>(alloc: Global, words: &'a [String]) -> Result<ServeWords<'a>, WordsFault>
    ensures ok { IfOk result (λ said. serve_words (words_texts words.now) ≡ Some (said_in said)) }
    ensures ranges { IfOk result (λ said. IsInRange said.numbers) }
    ensures refused { IfErr result (λ e. e ≡ WordsFault.Refused → serve_words (words_texts words.now) ≡ None) }
{
    let matches = matches_of(serve_command(alloc)?, words)?;
    let Some(catalogue) = matches.get_str("catalogue") else {
        return Err(WordsFault::Refused);
    };
    let Some(numbers) = numbers_in(&matches) else {
        return Err(WordsFault::Refused);
    };
    Ok(ServeWords {
        catalogue,
        from: matches.get_str("from"),
        journal: matches.get_str("journal"),
        numbers,
        export: is_exporting(&matches),
    })
}
