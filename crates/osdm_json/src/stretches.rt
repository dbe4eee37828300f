//! Segments of one run: the body of a reservation, and the path to a run's places.
ghost use Rattle.std.specs.Prelude.{◌≡◌, ◌<◌, length, Ok, Err, IfOk, IfErr, IfSome, option_map};
ghost use Rattle.json_text.specs.View.{view};
ghost use Rattle.rail_catalogue.specs.Json.{whole_in as whole_of};
ghost use Rattle.osdm_json.specs.OrderBodies.{if_run, segment_of, reserve_of, places_of};
ghost use Rattle.osdm_json.specs.Commands.{Asks};
ghost use Rattle.osdm_json.specs.Readable.{IsReadable, IsWithinRun};

use crate::command::Command;
use crate::fault::BodyFault;
use crate::members::{class_in, flag_in, text_in, traits_in};
use crate::spellings::run_of;
use json_text::Value;
use offer_codes::Segment;
use osdm_texts::FieldName;
use rail_catalogue::{Catalogue, whole_in, whole_or};
use rail_ids::RunNo;

/// What the body reserves.
pub(crate) fn read_reserve(cat: &Catalogue, body: &Value<'_>) -> Result<Command, BodyFault>
    ensures ok { IfOk result (λ c. Asks (reserve_of cat.now (view body.now)) c) }
    ensures readable { IfOk result (λ c. IsReadable cat.now c) }
    ensures err { IfErr result (λ e. reserve_of cat.now (view body.now) ≡ Err e) }
{
    let Some(run) = run_in(cat, body.get("run")) else {
        return Err(BodyFault::Field {
            name: FieldName::Run,
        });
    };
    let Some(class) = class_in(body.get("class")) else {
        return Err(BodyFault::Field {
            name: FieldName::Class,
        });
    };
    let Some(count) = whole_or(body.get("count"), 1, 1, 8) else {
        return Err(BodyFault::Field {
            name: FieldName::Count,
        });
    };
    let Some(wanted) = traits_in(body.get("wanted")) else {
        return Err(BodyFault::Field {
            name: FieldName::Wanted,
        });
    };
    let Some(from) = text_in(body.get("from")) else {
        return Err(BodyFault::Field {
            name: FieldName::From,
        });
    };
    let Some(to) = text_in(body.get("to")) else {
        return Err(BodyFault::Field {
            name: FieldName::To,
        });
    };
    let Some(together) = flag_in(body.get("together")) else {
        return Err(BodyFault::Field {
            name: FieldName::Together,
        });
    };
    let segment = find_segment(cat, run, from.as_bytes(), to.as_bytes())?;
    Ok(Command::Reserve {
        segment,
        class,
        count: count as u8,
        wanted,
        together,
    })
}

// A known run's number.
fn run_in(cat: &Catalogue, value: Option<&Value<'_>>) -> Option<RunNo>
    ensures value { result ≡ if_run cat.now (whole_of 0 4_294_967_295 (option_map (λ v. view v.now) value.entry)) }
    ensures known { IfSome result (λ run. run.0 < length cat.now.runs.runs) }
{
    let number = whole_in(value, 0, 4_294_967_295)?;
    if number < cat.runs().count() {
        Some(RunNo(number))
    } else {
        None
    }
}

/// The segment whose places are asked for.
pub(crate) fn read_places(
    cat: &Catalogue,
    run: &[u8],
    start: &[u8],
    end: &[u8],
) -> Result<Command, BodyFault>
    ensures ok { IfOk result (λ c. Asks (places_of cat.now run.now start.now end.now) c) }
    ensures readable { IfOk result (λ c. IsReadable cat.now c) }
    ensures err { IfErr result (λ e. places_of cat.now run.now start.now end.now ≡ Err e) }
{
    let Some(run) = run_of(cat.runs(), run) else {
        return Err(BodyFault::Field {
            name: FieldName::Run,
        });
    };
    let segment = find_segment(cat, run, start, end)?;
    Ok(Command::Places { segment })
}

// The segment of a known run between two stations, which are looked up here.
fn find_segment(cat: &Catalogue, run: RunNo, from: &[u8], to: &[u8]) -> Result<Segment, BodyFault>
    requires known { run.0 < length cat.now.runs.runs }
    ensures value { result ≡ segment_of cat.now run from.now to.now }
    ensures within { IfOk result (λ s. IsWithinRun cat.now s) }
{
    let runs = cat.runs();
    let Some(start) = runs.station_of(from) else {
        return Err(BodyFault::UnknownStation {
            name: FieldName::From,
        });
    };
    let Some(end) = runs.station_of(to) else {
        return Err(BodyFault::UnknownStation {
            name: FieldName::To,
        });
    };
    match runs.span_between(run, start, end) {
        Some(span) => Ok(Segment { run, span }),
        None => Err(BodyFault::Field {
            name: FieldName::To,
        }),
    }
}
