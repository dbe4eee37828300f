// A command that is read with memory of its own.
use osdm_json::{Command, Route, read_command};
use rail_catalogue::{Catalogue, read_catalogue};
use rail_ids::RowNo;
use std::alloc::Global;
use std::test::Fail;

/// The smallest that sells: one run of one leg, one place, one row.
const CATALOGUE: &str = r#"{"currency":"EUR",
 "retailers":[{"number":1,"key":"north"}],
 "stations":[{"code":"BASEL"},{"code":"OLTEN"}],
 "refundSteps":[{"before":0,"fee":10000}],
 "ticketFee":500,"exchangeFee":300,"rows":1,
 "runs":[
  {"train":501,
   "stops":[{"station":"BASEL","depart":"2026-06-01T08:00:00Z"},
            {"station":"OLTEN","arrive":"2026-06-01T08:25:00Z"}],
   "fares":{"first":{"base":1000,"perLeg":600},"second":{"base":500,"perLeg":300}},
   "coaches":[{"coach":2,"class":"SECOND","places":[{"first":11,"last":11}]}]}]}"#;

/// The booking whose ticket a request asks to collect: none where its id is no booking's. None at all for another
/// command, or a fault.
fn collected(alloc: Global, cat: &Catalogue, id: &str) -> Option<Option<RowNo>> {
    let route = Route::Fulfil { id: id.as_bytes() };
    let body = r#"{"status":"FULFILLED"}"#;
    match read_command(alloc, cat, route, body.as_bytes()) {
        Ok(Command::Fulfil { row }) => Some(row),
        _ => None,
    }
}

const LAST_OF_THE_ROW: RowNo = RowNo {
    row: 0,
    generation: 65_535,
};

#[test]
fn commands_are_read(rt: HostRuntime) -> Result<(), Fail> {
    let alloc = rt.alloc();
    let Ok(cat) = read_catalogue(alloc, CATALOGUE.as_bytes()) else {
        panic!(rt; "no catalogue");
    };
    let last = collected(alloc, &cat, "B000000-65535");
    assert!(rt; last == Some(Some(LAST_OF_THE_ROW)));
    let none = collected(alloc, &cat, "B000000-65536");
    assert!(rt; none == Some(None));
    Ok(())
}
