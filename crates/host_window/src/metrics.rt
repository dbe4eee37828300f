// All that the window shows of a host.
ghost use Rattle.std.specs.Prelude.{◌≡◌, ◌++◌, IfOk, OnOk};
ghost use Rattle.host_window.specs.Metrics.{answers_text, health_text, keeping_text, metrics_text, streams_text};

use crate::counts::Counts;
use crate::family::{Head, Kind, push_one, push_table};
use crate::route_texts::push_routes;
use std::alloc::{AllocError, Global};

// What it shows of whether it takes connections, and of its workers.
fn push_health(text: &mut Vec<u8>, counts: &Counts) -> Result<(), AllocError>
    ensures { OnOk result (text.new.items ≡ text.old.items ++ health_text counts.now) }
{
    push_one(
        text,
        Head {
            name: b"sumacgate_healthy",
            help: b"Whether the host takes connections: 1 or 0.",
            kind: Kind::Gauge,
        },
        counts.healthy,
    )?;
    push_one(
        text,
        Head {
            name: b"sumacgate_workers",
            help: b"How many workers there are.",
            kind: Kind::Gauge,
        },
        counts.workers,
    )?;
    push_one(
        text,
        Head {
            name: b"sumacgate_workers_busy",
            help: b"How many workers have a connection now.",
            kind: Kind::Gauge,
        },
        counts.busy,
    )
}

// What it shows of its connections.
fn push_streams(text: &mut Vec<u8>, counts: &Counts) -> Result<(), AllocError>
    ensures { OnOk result (text.new.items ≡ text.old.items ++ streams_text counts.now) }
{
    push_one(
        text,
        Head {
            name: b"sumacgate_connections_total",
            help: b"Connections taken.",
            kind: Kind::Counter,
        },
        counts.taken,
    )?;
    push_table(
        text,
        Head {
            name: b"sumacgate_connections_ended_total",
            help: b"Connections ended: by the client, by the host, or by a read that failed or waited too long.",
            kind: Kind::Counter,
        },
        counts.ended.as_slice(),
    )?;
    push_one(
        text,
        Head {
            name: b"sumacgate_write_failures_total",
            help: b"Writes to a connection that failed.",
            kind: Kind::Counter,
        },
        counts.unwritten,
    )?;
    push_one(
        text,
        Head {
            name: b"sumacgate_received_bytes_total",
            help: b"Bytes received on connections.",
            kind: Kind::Counter,
        },
        counts.received,
    )?;
    push_one(
        text,
        Head {
            name: b"sumacgate_sent_bytes_total",
            help: b"Bytes of answers written to connections.",
            kind: Kind::Counter,
        },
        counts.sent,
    )
}

// What it shows of its answers.
fn push_answers(text: &mut Vec<u8>, counts: &Counts) -> Result<(), AllocError>
    ensures { OnOk result (text.new.items ≡ text.old.items ++ answers_text counts.now) }
{
    push_table(
        text,
        Head {
            name: b"sumacgate_answers_total",
            help: b"Answers written, by status.",
            kind: Kind::Counter,
        },
        counts.answers.as_slice(),
    )?;
    push_table(
        text,
        Head {
            name: b"sumacgate_problems_total",
            help: b"Problems answered, by code.",
            kind: Kind::Counter,
        },
        counts.problems.as_slice(),
    )
}

// What it shows of its sweeps and its journal.
fn push_keeping(text: &mut Vec<u8>, counts: &Counts) -> Result<(), AllocError>
    ensures { OnOk result (text.new.items ≡ text.old.items ++ keeping_text counts.now) }
{
    push_one(
        text,
        Head {
            name: b"sumacgate_sweeps_total",
            help: b"Sweeps that were due.",
            kind: Kind::Counter,
        },
        counts.sweeps,
    )?;
    push_one(
        text,
        Head {
            name: b"sumacgate_journal_cuts_total",
            help: b"Pieces of the journal that were appended and kept.",
            kind: Kind::Counter,
        },
        counts.cuts,
    )?;
    push_one(
        text,
        Head {
            name: b"sumacgate_journal_bytes_total",
            help: b"Bytes of the journal that were written and kept.",
            kind: Kind::Counter,
        },
        counts.kept,
    )?;
    push_one(
        text,
        Head {
            name: b"sumacgate_journal_rewrites_total",
            help: b"Times that the whole journal was written anew.",
            kind: Kind::Counter,
        },
        counts.rewrites,
    )?;
    push_one(
        text,
        Head {
            name: b"sumacgate_journal_write_start_seconds",
            help: b"When the write of the journal began that is under way, in seconds since 1970, or 0.",
            kind: Kind::Gauge,
        },
        counts.writing,
    )?;
    push_one(
        text,
        Head {
            name: b"sumacgate_journal_lost",
            help: b"Whether the journal is lost: 1 or 0.",
            kind: Kind::Gauge,
        },
        counts.lost,
    )
}

/// The page for Prometheus, in its text format of version 0.0.4.
#[tactic(auto, unfolding(crate::specs::Metrics::metrics_text))]
pub fn metrics_page(alloc: Global, counts: &Counts) -> Result<Vec<u8>, AllocError>
    ensures { IfOk result (λ text. text.items ≡ metrics_text counts.now) }
{
    let mut text = Vec::new(alloc);
    push_health(&mut text, counts)?;
    push_streams(&mut text, counts)?;
    push_answers(&mut text, counts)?;
    push_routes(&mut text, counts)?;
    push_keeping(&mut text, counts)?;
    Ok(text)
}
