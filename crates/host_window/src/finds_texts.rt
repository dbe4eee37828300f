//! What the window shows of a host's books.
ghost use Rattle.std.specs.Prelude.{◌≡◌, ◌++◌, IfOk, OnOk};
ghost use Rattle.host_window.specs.Texts.{one_text, said_head};
ghost use Rattle.host_window.specs.Finds.{begun_text, found_text, labelled_text, looked_text, places_text};
ghost use Rattle.host_window.specs.Finds.{rows_text, swept_text, window_text};

use crate::counts::Counts;
use crate::family::{Head, Kind, push_head, push_number, push_one};
use crate::found::{Finds, Found};
use crate::metrics::metrics_page;
use row_cuts::{RowCount, SoldCount};
use std::alloc::{AllocError, Global};

// Begins a family.
#[tactic(auto, unfolding(crate::specs::Finds::begun_text))]
fn push_begun(text: &mut Vec<u8>, head: Head) -> Result<(), AllocError>
    ensures { OnOk result (text.new.items ≡ text.old.items ++ begun_text (said_head head)) }
{
    push_head(text, head)
}

// A family of one number.
fn push_count(text: &mut Vec<u8>, head: Head, value: u32) -> Result<(), AllocError>
    ensures { OnOk result (text.new.items ≡ text.old.items ++ one_text (said_head head) value) }
{
    push_one(text, head, u64::from(value))
}

// A number of a family, with a label.
#[tactic(auto, unfolding(crate::specs::Finds::labelled_text))]
fn push_labelled(
    text: &mut Vec<u8>,
    name: &[u8],
    label: &[u8],
    value: u32,
) -> Result<(), AllocError>
    ensures { OnOk result (text.new.items ≡ text.old.items ++ labelled_text name.now label.now value) }
{
    push_number(text, name, label, u64::from(value))
}

// What it shows of sweeps.
fn push_swept(text: &mut Vec<u8>, finds: &Finds) -> Result<(), AllocError>
    ensures { OnOk result (text.new.items ≡ text.old.items ++ swept_text finds.now) }
{
    push_one(
        text,
        Head {
            name: b"sumacgate_sweeps_expired_total",
            help: b"Bookings that sweeps expired.",
            kind: Kind::Counter,
        },
        finds.expired,
    )?;
    push_one(
        text,
        Head {
            name: b"sumacgate_sweeps_lost_total",
            help: b"Late bookings that were decided before a sweep expired them.",
            kind: Kind::Counter,
        },
        finds.lost,
    )?;
    push_one(
        text,
        Head {
            name: b"sumacgate_sweep_waiting",
            help: b"Prebooked bookings that the last sweep left, since they were not late.",
            kind: Kind::Gauge,
        },
        finds.waiting,
    )
}

// What it shows of rows in use.
fn push_rows(text: &mut Vec<u8>, rows: &RowCount) -> Result<(), AllocError>
    ensures { OnOk result (text.new.items ≡ text.old.items ++ rows_text rows.now) }
{
    push_begun(
        text,
        Head {
            name: b"sumacgate_rows",
            help: b"Rows that have been used, by the phase of their last booking.",
            kind: Kind::Gauge,
        },
    )?;
    let name = b"sumacgate_rows";
    push_labelled(text, name, b"{phase=\"making\"}", rows.making)?;
    push_labelled(text, name, b"{phase=\"prebooked\"}", rows.prebooked)?;
    push_labelled(text, name, b"{phase=\"confirmed\"}", rows.confirmed)?;
    push_labelled(text, name, b"{phase=\"fulfilled\"}", rows.fulfilled)?;
    push_labelled(text, name, b"{phase=\"ending\"}", rows.ending)?;
    push_labelled(text, name, b"{phase=\"ended\"}", rows.ended)
}

// What it shows of places.
fn push_places(text: &mut Vec<u8>, sold: &SoldCount) -> Result<(), AllocError>
    ensures { OnOk result (text.new.items ≡ text.old.items ++ places_text sold.now) }
{
    push_begun(
        text,
        Head {
            name: b"sumacgate_places_sold",
            help: b"Places of which a leg is sold, by class.",
            kind: Kind::Gauge,
        },
    )?;
    let name = b"sumacgate_places_sold";
    push_labelled(text, name, b"{class=\"first\"}", sold.first)?;
    push_labelled(text, name, b"{class=\"second\"}", sold.second)
}

// What it shows of looks.
fn push_looked(text: &mut Vec<u8>, found: &Found) -> Result<(), AllocError>
    ensures { OnOk result (text.new.items ≡ text.old.items ++ looked_text found.now) }
{
    push_count(
        text,
        Head {
            name: b"sumacgate_rows_never_used",
            help: b"Rows that have never been used.",
            kind: Kind::Gauge,
        },
        found.rows.never_used,
    )?;
    push_rows(text, &found.rows)?;
    push_count(
        text,
        Head {
            name: b"sumacgate_greatest_generation",
            help: b"The greatest generation of a row: how often it was used again.",
            kind: Kind::Gauge,
        },
        found.rows.greatest_generation,
    )?;
    push_places(text, &found.sold)
}

// So where a member looks.
fn push_found(text: &mut Vec<u8>, found: &Option<Found>) -> Result<(), AllocError>
    ensures { OnOk result (text.new.items ≡ text.old.items ++ found_text found.now) }
{
    match found {
        Some(found) => push_looked(text, found),
        None => Ok(()),
    }
}

/// The page for Prometheus, in its text format of version 0.0.4.
#[tactic(auto, unfolding(crate::specs::Finds::window_text))]
pub fn window_page(alloc: Global, counts: &Counts, finds: &Finds) -> Result<Vec<u8>, AllocError>
    ensures { IfOk result (λ text. text.items ≡ window_text counts.now finds.now) }
{
    let mut text = metrics_page(alloc, counts)?;
    push_swept(&mut text, finds)?;
    push_found(&mut text, &finds.found)?;
    Ok(text)
}
