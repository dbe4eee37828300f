//! What a retailer sold.
ghost use Rattle.std.specs.Prelude.{◌≡◌, pos, if◌then◌else◌};
ghost use Rattle.history_model.specs.Phase.{is_live as is_live_phase};
ghost use Rattle.settle_report.specs.Accounts.{is_exchanged, is_refunded, is_sold};
ghost use Rattle.settle_report.specs.Steps.{AddsSale, HasRoom, IsFair};

use history_model::phase::{EndKind, Phase};

/// The bookings of a retailer, and the money that it took and paid back, in minor units.
#[derive(Clone, Copy, PartialEq, Eq)]
pub struct Account {
    /// How many bookings are kept.
    pub bookings: u64,
    /// How many of them live.
    pub live: u64,
    /// The totals of those that were confirmed, also where they were refunded or exchanged later.
    pub sold: u64,
    /// What refunds paid back.
    pub refunded: i64,
    /// The differences of exchanges: above 0 where the retailer took more, below where it paid back.
    pub exchanged: i64,
}

/// What counts of a booking: whose it is, how far it has come, its total, and where it has ended the amount of its end.
#[derive(Clone, Copy)]
pub(crate) struct Sale {
    pub(crate) retailer: u64,
    pub(crate) phase: Phase,
    pub(crate) total: u64,
    pub(crate) amount: i64,
}

impl Account {
    pub(crate) const NONE: Account = Account {
        bookings: 0,
        live: 0,
        sold: 0,
        refunded: 0,
        exchanged: 0,
    };

    /// Adds a booking.
    pub(crate) fn add(&mut self, sale: Sale)
        requires room { HasRoom self.old }
        requires sale { IsFair sale }
        ensures { AddsSale sale self.old self.new }
    {
        self.bookings += 1;
        self.live += sale.live();
        self.sold += sale.sold();
        self.refunded += sale.refunded();
        self.exchanged += sale.exchanged();
    }
}

impl Sale {
    // 1 where the booking lives.
    fn live(self) -> u64
        ensures { result ≡ if is_live_phase self.phase then 1 else 0 }
    {
        match self.phase {
            Phase::Prebooked | Phase::Confirmed | Phase::Fulfilled => 1,
            _ => 0,
        }
    }

    // The total, where the booking was sold.
    fn sold(self) -> u64
        ensures { result ≡ if is_sold self.phase then self.total else 0 }
    {
        match self.phase {
            Phase::Confirmed | Phase::Fulfilled => self.total,
            Phase::Ended(EndKind::Refund) => self.total,
            Phase::Ended(EndKind::Exchange) => self.total,
            _ => 0,
        }
    }

    // What was paid back, where it was refunded.
    fn refunded(self) -> i64
        ensures { result ≡ if is_refunded self.phase then self.amount else pos 0 }
    {
        match self.phase {
            Phase::Ended(EndKind::Refund) => self.amount,
            _ => 0,
        }
    }

    // The difference, where it was exchanged.
    fn exchanged(self) -> i64
        ensures { result ≡ if is_exchanged self.phase then self.amount else pos 0 }
    {
        match self.phase {
            Phase::Ended(EndKind::Exchange) => self.amount,
            _ => 0,
        }
    }
}
