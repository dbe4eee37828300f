//! The sweep of all rows.
ghost use Rattle.std.specs.Prelude.{◌≡◌, ◌+◌, ◌*◌, ◌^◌, ◌<◌};
ghost use Rattle.history_model.specs.Booking.{most_items};
ghost use Rattle.claim_rule.specs.Desks.{IsOf, AddsAtMost};
ghost use Rattle.claim_rule.specs.Calls.{AddsStepsBy};
ghost use Rattle.claim_rule.specs.Out.{EndsNone, KeepsHolds, IsTidy};
ghost use Rattle.expiry_sweeper.specs.AllRows.{Sweeps, ExpiresCounted, counted as counted_of};
ghost use Rattle.expiry_sweeper.specs.Complete.{LeavesNoneOverdue};

use crate::rows::{RowSwept, sweep_row};
use booking_rows::Swept;
use claim_rule::{Books, Desk};
use rail_time::Moment;

/// Looks at every row, in rising number, and expires those bookings seen prebooked with a limit before now. A row whose
/// last look shows that it was given away meanwhile is in no count. So each booking that was prebooked with a limit
/// before now when the sweep began is in another phase when it has ended, whoever turned it. The desk has no ending
/// out. At most 105 entries are added for each row.
pub fn sweep(books: &Books, desk: &mut Desk, now: Moment) -> Swept
    requires own { IsOf books.now desk.old }
    requires none { EndsNone desk.old }
    ensures own { IsOf books.now desk.new }
    ensures entries { AddsStepsBy (Sweeps books.now.layout.rows now result) desk.old desk.new }
    ensures complete { LeavesNoneOverdue books.now now desk.old desk.new }
    ensures expired { ExpiresCounted books.now.layout.rows now result desk.old desk.new }
    ensures none { EndsNone desk.new }
    ensures holds { KeepsHolds desk.old desk.new }
    ensures tidy { IsTidy desk.old → IsTidy desk.new }
    ensures bound { AddsAtMost ((2 * most_items + 9) * books.now.layout.rows) desk.old desk.new }
{
    let mut swept = Swept {
        expired: 0,
        lost: 0,
        waiting: 0,
    };
    for row in 0..books.rows() {
        let came = sweep_row(books, desk, row, now);
        swept = counted(came, swept);
    }
    swept
}

// One row more.
fn counted(came: RowSwept, swept: Swept) -> Swept
    requires room { (swept.expired + 1 < 2 ^ 32) × (swept.lost + 1 < 2 ^ 32) × (swept.waiting + 1 < 2 ^ 32) }
    ensures counted { result ≡ counted_of came swept }
{
    match came {
        RowSwept::Passed => swept,
        RowSwept::Waiting => Swept {
            waiting: swept.waiting + 1,
            ..swept
        },
        RowSwept::Expired => Swept {
            expired: swept.expired + 1,
            ..swept
        },
        RowSwept::Lost => Swept {
            lost: swept.lost + 1,
            ..swept
        },
    }
}
