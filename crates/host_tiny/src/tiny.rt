// How a request is replied to, over the run's reservations.
ghost use Rattle.std.specs.Prelude.{◌≡◌, ◌↔◌, IsTrue};
ghost use Rattle.host_tiny.specs.Tiny.{IsReservation, IsReply};

use crate::reply::Reply;
use crate::run::{Reservation, Run};
use crate::wish::{WishFault, read_wish};
use std::alloc::Global;

fn is_reservation(method: &[u8], path: &[u8]) -> bool
    ensures { IsTrue result ↔ IsReservation method.now path.now }
{
    method == b"POST".as_slice() && path == b"/reservations".as_slice()
}

/// Replies to a request, and keeps what it reserves.
pub fn reply_to(alloc: Global, run: &mut Run, method: &[u8], path: &[u8], body: &[u8]) -> Reply
    ensures reply { IsReply run.old.legs run.old.places run.old.held
        (record { method = method.now; path = path.now; body = body.now }) result run.new.held }
    ensures legs { run.new.legs ≡ run.old.legs }
    ensures places { run.new.places ≡ run.old.places }
{
    if !is_reservation(method, path) {
        return Reply::NotBuilt;
    }
    let span = match read_wish(alloc, body, run.legs()) {
        Ok(span) => span,
        Err(WishFault::NotJson) => return Reply::NotJson,
        Err(WishFault::BadField(name)) => return Reply::BadField(name),
        Err(WishFault::NoMemory) => return Reply::NoMemory,
    };
    match run.reserve(span) {
        Reservation::Place(place) => Reply::Reserved(place, span),
        Reservation::RowsFull => Reply::RowsFull,
        Reservation::NoPlace => Reply::NoPlace,
    }
}
