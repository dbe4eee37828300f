//! Sweeping all rows for late bookings.
ghost use Rattle.std.specs.Prelude.{◌≡◌, Ok};
ghost use Rattle.catalogue_contents.specs.Contents.{CatalogueView};
ghost use Rattle.expiry_sweeper.specs.Complete.{LeavesNoneOverdue};
ghost use Rattle.osdm_texts.specs.Answers.{Reply as Replied, reply_told, told_of};
ghost use Rattle.shop.specs.Homes.{IsAtHome, StaysHome};
ghost use Rattle.booking_service.specs.Sweeping.{SweepsRows};

use claim_rule::{Books, Desk};
use expiry_sweeper::sweep;
use osdm_texts::{Written, write_swept};
use rail_time::Moment;

/// Expires the bookings that it sees prebooked with a limit before now, but where another turn came first, and answers
/// how many. Each booking that was prebooked and late when the sweep began is in another phase when it has ended. A
/// booking whose last look shows that its row was given to another is in no count. No memory is taken. The text is that
/// of the reply by any catalogue: it names no station and no amount.
pub fn sweep_bookings(books: &Books, desk: &mut Desk, now: Moment) -> Written
    requires home { IsAtHome books.now desk.old }
    ensures home { StaysHome books.now desk.old desk.new }
    ensures complete { LeavesNoneOverdue books.now now desk.old desk.new }
    ensures answer { (reply : Replied) × SweepsRows books.now.layout.rows now desk.old desk.new reply
        × ((cat : CatalogueView) → told_of (Ok result) ≡ reply_told cat reply) }
{
    let swept = sweep(books, desk, now);
    write_swept(swept)
}
