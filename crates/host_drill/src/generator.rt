// The catalogue and the requests of a drill.
ghost use Rattle.std.specs.Prelude.{◌≡◌, ◌≤◌, ◌<◌, ◌+◌, ◌++◌, IfOk};
ghost use Rattle.host_drill.specs.Generator.{catalogue_text, drill_leg, drill_legs, request_bytes, requests_from};
ghost use Rattle.host_drill.specs.Generator.{requests_of};

use std::alloc::{AllocError, Global};

/// The legs of the one run.
const LEGS: u64 = 8;

/// What stands before, between and after the two stations of a request.
const REQUEST_FRONT: &[u8] =
    b"POST /reservations HTTP/1.1\r\nHost: drill\r\nRetailer-Key: drill\r\nContent-Length: 31\r\n\r\n{\"from\":\"D";

const REQUEST_MIDDLE: &[u8] = b"\",\"run\":0,\"to\":\"D";

const REQUEST_END: &[u8] = b"\"}";

/// What stands before and after the number of places in the catalogue.
const CATALOGUE_FRONT: &[u8] =
    b"{\"currency\":\"EUR\",\"refundSteps\":[{\"before\":0,\"fee\":10000}],\"retailers\":[{\"key\":\"drill\",\"number\":1}],\"rows\":32768,\"runs\":[{\"coaches\":[{\"class\":\"SECOND\",\"coach\":1,\"places\":[{\"first\":1,\"last\":";

const CATALOGUE_END: &[u8] =
    b"}]}],\"fares\":{\"first\":{\"base\":100,\"perLeg\":10},\"second\":{\"base\":100,\"perLeg\":10}},\"stops\":[{\"depart\":\"2026-06-01T08:00:00Z\",\"station\":\"D0\"},{\"arrive\":\"2026-06-01T08:10:00Z\",\"depart\":\"2026-06-01T08:10:00Z\",\"station\":\"D1\"},{\"arrive\":\"2026-06-01T08:20:00Z\",\"depart\":\"2026-06-01T08:20:00Z\",\"station\":\"D2\"},{\"arrive\":\"2026-06-01T08:30:00Z\",\"depart\":\"2026-06-01T08:30:00Z\",\"station\":\"D3\"},{\"arrive\":\"2026-06-01T08:40:00Z\",\"depart\":\"2026-06-01T08:40:00Z\",\"station\":\"D4\"},{\"arrive\":\"2026-06-01T08:50:00Z\",\"depart\":\"2026-06-01T08:50:00Z\",\"station\":\"D5\"},{\"arrive\":\"2026-06-01T09:00:00Z\",\"depart\":\"2026-06-01T09:00:00Z\",\"station\":\"D6\"},{\"arrive\":\"2026-06-01T09:10:00Z\",\"depart\":\"2026-06-01T09:10:00Z\",\"station\":\"D7\"},{\"arrive\":\"2026-06-01T09:20:00Z\",\"station\":\"D8\"}],\"train\":1}],\"stations\":[{\"code\":\"D0\"},{\"code\":\"D1\"},{\"code\":\"D2\"},{\"code\":\"D3\"},{\"code\":\"D4\"},{\"code\":\"D5\"},{\"code\":\"D6\"},{\"code\":\"D7\"},{\"code\":\"D8\"}]}";

/// The leg that a request asks for.
fn leg_of(seed: u32, number: u64) -> u8
    requires small { number < 32_000 }
    ensures leg { result ≡ drill_leg seed number }
    ensures few { result < drill_legs }
{
    ((u64::from(seed) + number * number) % LEGS) as u8
}

/// Adds the request for one place on the leg.
fn push_request(bytes: &mut Vec<u8>, leg: u8) -> Result<(), AllocError>
    requires few { leg < drill_legs }
    ensures { IfOk result (λ _. bytes.new.items ≡ bytes.old.items ++ request_bytes leg) }
{
    bytes.extend_from_slice(REQUEST_FRONT)?;
    bytes.push(b'0' + leg)?;
    bytes.extend_from_slice(REQUEST_MIDDLE)?;
    bytes.push(b'1' + leg)?;
    bytes.extend_from_slice(REQUEST_END)?;
    Ok(())
}

/// The requests of a worker, one after the other.
pub fn worker_requests(
    alloc: Global,
    seed: u32,
    size: u32,
    worker: u32,
) -> Result<Vec<u8>, AllocError>
    requires size { size ≤ 2_000 }
    requires worker { worker < 16 }
    ensures { IfOk result (λ v. v.items ≡ requests_of seed size worker) }
{
    let first = u64::from(worker) * u64::from(size);
    let mut bytes = Vec::new(alloc);
    for k in 0..u64::from(size) {
        push_request(&mut bytes, leg_of(seed, first + k))?;
    }
    Ok(bytes)
}

/// The text of the catalogue with this many places.
pub fn catalogue_bytes(alloc: Global, places: u32) -> Result<Vec<u8>, AllocError>
    ensures { IfOk result (λ v. v.items ≡ catalogue_text places) }
{
    let mut text = Vec::new(alloc);
    text.extend_from_slice(CATALOGUE_FRONT)?;
    text.extend_from_slice(itoa::Buffer::new().format(places).as_bytes())?;
    text.extend_from_slice(CATALOGUE_END)?;
    Ok(text)
}
