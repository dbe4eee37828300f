ghost use Rattle.std.specs.Prelude.{◌≡◌, [], Ok, IfOk, IfSome, IsUtf8, is_some, true};
ghost use Rattle.std.specs.List.{list_all};
ghost use Rattle.json_text.specs.View.{view};
ghost use Rattle.json_text.specs.Outlines.{member_at};
ghost use Rattle.rail_catalogue.specs.Faults.{Refuses};
ghost use Rattle.rail_catalogue.specs.Networks.{heading_view, IsWithin, front_view, front_in, with_runs, runs_at};
ghost use Rattle.rail_catalogue.specs.Format.{catalogue_of, heading_of, is_currency as is_currency_of, is_capital};

use crate::fault::{CatalogueFault, field_fault};
use crate::json::{outline_of, whole_or};
use crate::retailers::read_retailers;
use crate::runs::read_network;
use crate::stations::read_stations;
use crate::steps::read_terms;
use catalogue_contents::{Catalogue, Retailers};
use json_text::{Scratch, Value};
use std::alloc::Global;
use tariff::Terms;
use train_runs::Runs;

/// The catalogue of a text, or its first fault in the order of the format.
pub fn read_catalogue(alloc: Global, text: &[u8]) -> Result<Catalogue, CatalogueFault>
    ensures ok { IfOk result (λ c. catalogue_of text.now ≡ Ok c) }
    ensures err { Refuses (catalogue_of text.now) result }
{
    let mut scratch = Scratch::new(alloc);
    let front = read_front(alloc, text, &mut scratch)?;
    let Front {
        heading,
        retailers,
        stations,
        terms,
        place,
    } = front;
    let network = read_network(alloc, text, &mut scratch, place, stations)?;
    Ok(Catalogue::new(heading.currency, heading.rows, retailers, terms, network))
}

// What is read before the runs, and where these stand among the members of the whole.
#[derive(Drop)]
struct Front {
    heading: Heading,
    retailers: Retailers,
    stations: Runs,
    terms: Terms,
    place: Option<usize>,
}

// Reads all but the runs.
fn read_front(alloc: Global, text: &[u8], scratch: &mut Scratch) -> Result<Front, CatalogueFault>
    ensures utf8 { IfOk result (λ _. IsUtf8 text.now) }
    ensures ok { IfOk result (λ f. catalogue_of text.now ≡ with_runs (front_view f) (runs_at f.place text.now)) }
    ensures there { IfOk result (λ f. IfSome f.place (λ i. is_some (member_at i text.now) ≡ true)) }
    ensures no_run { IfOk result (λ f. f.stations.runs ≡ []) }
    ensures heading { IfOk result (λ f. IsWithin f.heading) }
    ensures err { Refuses (catalogue_of text.now) result }
{
    let outline = outline_of(alloc, text, scratch, "runs")?;
    front_of(alloc, &outline.kept, outline.place)
}

// Reads all but the runs, where the member of these has been left out.
fn front_of(alloc: Global, whole: &Value<'_>, place: Option<usize>) -> Result<Front, CatalogueFault>
    ensures ok { IfOk result (λ f. front_in (view whole.now) ≡ Ok (front_view f)) }
    ensures place { IfOk result (λ f. f.place ≡ place) }
    ensures no_run { IfOk result (λ f. f.stations.runs ≡ []) }
    ensures heading { IfOk result (λ f. IsWithin f.heading) }
    ensures err { Refuses (front_in (view whole.now)) result }
{
    let heading = read_heading(alloc, whole)?;
    let retailers = read_retailers(alloc, whole.get("retailers"))?;
    let stations = read_stations(alloc, whole.get("stations"))?;
    let terms = read_terms(alloc, whole, heading.confirm_seconds)?;
    Ok(Front {
        heading,
        retailers,
        stations,
        terms,
        place,
    })
}

// What stands before the lists.
#[derive(Drop)]
struct Heading {
    currency: String,
    rows: u32,
    confirm_seconds: u32,
}

fn read_heading(alloc: Global, whole: &Value<'_>) -> Result<Heading, CatalogueFault>
    ensures ok { IfOk result (λ h. heading_of (view whole.now) ≡ Ok (heading_view h)) }
    ensures within { IfOk result IsWithin }
    ensures err { Refuses (heading_of (view whole.now)) result }
{
    if !whole.is_object() {
        return Err(field_fault(alloc, ""));
    }
    let currency = match whole.get("currency").and_then(Value::as_str) {
        Some(text) if is_currency(text.as_bytes()) => text,
        _ => return Err(field_fault(alloc, "currency")),
    };
    let Some(rows) = whole_or(whole.get("rows"), 65_536, 1, 262_144) else {
        return Err(field_fault(alloc, "rows"));
    };
    let Some(confirm_seconds) = whole_or(whole.get("confirmSeconds"), 900, 1, 86_400) else {
        return Err(field_fault(alloc, "confirmSeconds"));
    };
    Ok(Heading {
        currency: String::from_str(alloc, currency)?,
        rows,
        confirm_seconds,
    })
}

fn is_currency(text: &[u8]) -> bool
    ensures { result ≡ is_currency_of text.now }
{
    text.len() == 3 && has_capitals(text)
}

fn has_capitals(text: &[u8]) -> bool
    ensures { result ≡ list_all is_capital text.now }
{
    text.iter().all(|b| b.is_ascii_uppercase())
}
