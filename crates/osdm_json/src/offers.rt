//! The body of a search for offers.
ghost use Rattle.std.specs.Prelude.{◌≡◌, ◌≢◌, ◌≤◌, true, Ok, Err, IfOk, IfErr};
ghost use Rattle.json_text.specs.View.{view};
ghost use Rattle.rail_time.specs.Moments.{last_second};
ghost use Rattle.offer_codes.specs.Offers.{is_party as is_party_of};
ghost use Rattle.osdm_json.specs.OfferBodies.{party_of, ends_of, window_of, trip_of, offers_of};
ghost use Rattle.osdm_json.specs.EndViews.{ends_view};
ghost use Rattle.osdm_json.specs.Commands.{Asks};
ghost use Rattle.osdm_json.specs.Readable.{IsReadable, IsTripWish};

use crate::command::Command;
use crate::fault::BodyFault;
use crate::members::{class_in, latest_in, moment_in, text_in, traits_in};
use json_text::Value;
use osdm_texts::FieldName;
use rail_catalogue::{Catalogue, whole_in, whole_or};
use rail_time::Moment;
use std::alloc::Global;
use train_runs::TripWish;

// Who travels.
#[derive(Clone, Copy)]
struct Party {
    adults: u8,
    children: u8,
}

// From where to where, as codes of stations.
#[derive(Clone, Copy)]
struct TripEnds<'a> {
    origin: &'a str,
    destination: &'a str,
}

// When the first departure may be.
#[derive(Clone, Copy)]
struct Window {
    earliest: Moment,
    latest: Moment,
}

/// What the body asks offers for.
pub(crate) fn read_offers(
    alloc: Global,
    cat: &Catalogue,
    body: &Value<'_>,
) -> Result<Command, BodyFault>
    ensures ok { IfOk result (λ c. Asks (offers_of cat.now (view body.now)) c) }
    ensures readable { IfOk result (λ c. IsReadable cat.now c) }
    ensures err { IfErr result (λ e. offers_of cat.now (view body.now) ≡ Err e) }
{
    let party = read_party(body)?;
    let Some(class) = class_in(body.get("class")) else {
        return Err(BodyFault::Field {
            name: FieldName::Class,
        });
    };
    let Some(wanted) = traits_in(body.get("wanted")) else {
        return Err(BodyFault::Field {
            name: FieldName::Wanted,
        });
    };
    let ends = read_ends(body)?;
    let window = read_window(alloc, body)?;
    let trip = find_trip(cat, &ends, window)?;
    Ok(Command::Offers {
        trip,
        adults: party.adults,
        children: party.children,
        class,
        wanted,
    })
}

fn read_party(body: &Value<'_>) -> Result<Party, BodyFault>
    ensures value { result ≡ party_of (view body.now) }
    ensures party { IfOk result (λ p. is_party_of p.adults p.children ≡ true) }
{
    let Some(adults) = whole_in(body.get("adults"), 0, 8) else {
        return Err(BodyFault::Field {
            name: FieldName::Adults,
        });
    };
    let Some(children) = whole_or(body.get("children"), 0, 0, 8) else {
        return Err(BodyFault::Field {
            name: FieldName::Children,
        });
    };
    if !is_party(adults, children) {
        return Err(BodyFault::Field {
            name: FieldName::Adults,
        });
    }
    Ok(Party {
        adults: adults as u8,
        children: children as u8,
    })
}

fn is_party(adults: u32, children: u32) -> bool
    requires { (adults ≤ 8) × (children ≤ 8) }
    ensures { result ≡ is_party_of adults children }
{
    1 <= adults + children && adults + children <= 8
}

fn read_ends<'a>(body: &Value<'a>) -> Result<TripEnds<'a>, BodyFault>
    ensures ok { IfOk result (λ e. ends_of (view body.now) ≡ Ok (ends_view e)) }
    ensures differ { IfOk result (λ e. (ends_view e).destination ≢ (ends_view e).origin) }
    ensures err { IfErr result (λ e. ends_of (view body.now) ≡ Err e) }
{
    let Some(origin) = text_in(body.get("origin")) else {
        return Err(BodyFault::Field {
            name: FieldName::Origin,
        });
    };
    match text_in(body.get("destination")) {
        Some(destination) if destination != origin => Ok(TripEnds {
            origin,
            destination,
        }),
        _ => Err(BodyFault::Field {
            name: FieldName::Destination,
        }),
    }
}

fn read_window(alloc: Global, body: &Value<'_>) -> Result<Window, BodyFault>
    ensures value { result ≡ window_of (view body.now) }
    ensures window { IfOk result (λ w. w.earliest ≤ w.latest) }
    ensures in_years { IfOk result (λ w. w.latest ≤ last_second) }
{
    let Some(earliest) = moment_in(alloc, body.get("earliest")) else {
        return Err(BodyFault::Field {
            name: FieldName::Earliest,
        });
    };
    let Some(latest) = latest_in(alloc, earliest, body.get("latest")) else {
        return Err(BodyFault::Field {
            name: FieldName::Latest,
        });
    };
    Ok(Window { earliest, latest })
}

// The wish between two stations, which are looked up here.
fn find_trip(cat: &Catalogue, ends: &TripEnds<'_>, window: Window) -> Result<TripWish, BodyFault>
    requires differ { (ends_view ends.now).destination ≢ (ends_view ends.now).origin }
    requires window { window.earliest ≤ window.latest }
    requires in_years { window.latest ≤ last_second }
    ensures value { result ≡ trip_of cat.now (ends_view ends.now) window }
    ensures wish { IfOk result (λ w. IsTripWish cat.now w) }
{
    let runs = cat.runs();
    let Some(origin) = runs.station_of(ends.origin.as_bytes()) else {
        return Err(BodyFault::UnknownStation {
            name: FieldName::Origin,
        });
    };
    let Some(destination) = runs.station_of(ends.destination.as_bytes()) else {
        return Err(BodyFault::UnknownStation {
            name: FieldName::Destination,
        });
    };
    Ok(TripWish {
        origin,
        destination,
        earliest: window.earliest,
        latest: window.latest,
    })
}
