ghost use Rattle.std.specs.Prelude.{◌≡◌, ◌≤◌, ◌≤ℤ◌, ◌+◌, pos, negsuc, ◌-ℤ◌, None, Some, IfOk, IfErr, length};
ghost use Rattle.tariff.specs.Refunds.{are_falling, has_large_fee as has_large_fee_of, terms_fault, fee_at, refund_of};

use std::marker::Model;

const WHOLE: u32 = 10_000;

const LARGEST_AMOUNT: u32 = 10_000_000;

/// Up to this many seconds before the first departure a refund costs this fee, in basis points of the total.
#[derive(Clone, Copy, PartialEq, Eq)]
pub struct RefundStep {
    pub before: u32,
    pub fee: u32,
}

/// The terms of refunds, exchanges and confirmation. Contracts see them as `RefundTerms`.
#[derive(Drop)]
pub struct Terms {
    steps: Vec<RefundStep>,
    ticket_fee: u32,
    exchange_fee: u32,
    confirm_seconds: u32,
}

impl Model for Terms {
    ghost use Rattle.tariff.specs.Refunds.{RefundTerms, AreTerms};

    ghost Value = { RefundTerms };

    ghost view = { λ t. record {
      steps = t.steps.items;
      ticket_fee = t.ticket_fee;
      exchange_fee = t.exchange_fee;
      confirm_seconds = t.confirm_seconds;
    } };

    ghost invariant = { λ t. AreTerms t.steps.items t.ticket_fee t.exchange_fee t.confirm_seconds };
}

/// Why steps and fees are no terms.
#[derive(Clone, Copy, PartialEq, Eq)]
pub enum TermsFault {
    /// There is no step, `before` does not fall from step to step, or the last `before` is not 0.
    StepsNotFalling,
    /// A step's fee is over 10,000 basis points.
    FeeOver10000,
    /// The ticket fee or the exchange fee is over 10,000,000 minor units.
    AmountTooLarge,
}

impl Terms {
    /// The terms of these steps and fees, or the first fault in the order of `TermsFault`.
    pub fn new(
        steps: Vec<RefundStep>,
        ticket_fee: u32,
        exchange_fee: u32,
        confirm_seconds: u32,
    ) -> Result<Terms, TermsFault>
        requires few { length steps.items ≤ 64 }
        requires some_time { 1 ≤ confirm_seconds }
        requires a_day { confirm_seconds ≤ 86_400 }
        ensures faultless { IfOk result (λ _. terms_fault steps.items ticket_fee exchange_fee ≡ None) }
        ensures terms { IfOk result (λ t. t ≡ record {
          steps = steps.items;
          ticket_fee = ticket_fee;
          exchange_fee = exchange_fee;
          confirm_seconds = confirm_seconds;
        }) }
        ensures fault { IfErr result (λ e. terms_fault steps.items ticket_fee exchange_fee ≡ Some e) }
    {
        if !is_falling(steps.as_slice()) {
            return Err(TermsFault::StepsNotFalling);
        }
        if has_large_fee(steps.as_slice()) {
            return Err(TermsFault::FeeOver10000);
        }
        if ticket_fee > LARGEST_AMOUNT {
            return Err(TermsFault::AmountTooLarge);
        }
        if exchange_fee > LARGEST_AMOUNT {
            return Err(TermsFault::AmountTooLarge);
        }
        Ok(Terms {
            steps,
            ticket_fee,
            exchange_fee,
            confirm_seconds,
        })
    }

    /// For how many seconds a booking can be confirmed.
    pub fn confirm_seconds(&self) -> u32
        ensures value { result ≡ self.now.confirm_seconds }
        ensures some_time { 1 ≤ result }
        ensures a_day { result ≤ 86_400 }
    {
        self.confirm_seconds
    }
}

fn is_falling(steps: &[RefundStep]) -> bool
    ensures { result ≡ are_falling steps.now }
{
    let Some((first, rest)) = steps.split_first() else {
        return false;
    };
    let mut before = first.before;
    for step in rest {
        if step.before >= before {
            return false;
        }
        before = step.before;
    }
    before == 0
}

fn has_large_fee(steps: &[RefundStep]) -> bool
    ensures { result ≡ has_large_fee_of steps.now }
{
    steps.iter().any(|s| s.fee > WHOLE)
}

// The fee of the first step that begins this long before departure.
fn fee(steps: &[RefundStep], seconds_before: u64) -> u32
    ensures { result ≡ fee_at steps.now seconds_before }
{
    for step in steps {
        if u64::from(step.before) <= seconds_before {
            return step.fee;
        }
    }
    0
}

/// What a refund pays of a total, this many seconds before the first departure. It is the total less the fee of the
/// first step whose `before` is at most `seconds_before`, rounded down, and for a collected ticket also less the ticket
/// fee, though never below 0.
pub fn refund_value(terms: &Terms, total: u64, seconds_before: u64, fulfilled: bool) -> u64
    requires { total ≤ 99_999_999_999 }
    ensures value { result ≡ refund_of terms.now total seconds_before fulfilled }
    ensures at_most_all { result ≤ total }
{
    let fee = u64::from(fee(terms.steps.as_slice(), seconds_before));
    let paid = total * 10_000u64.saturating_sub(fee) / 10_000;
    if fulfilled {
        paid.saturating_sub(u64::from(terms.ticket_fee))
    } else {
        paid
    }
}

/// What a retailer owes for an exchange: the new total and the exchange fee, less what the old booking's refund pays.
/// Less than 0 is paid back.
pub fn exchange_difference(terms: &Terms, refund: u64, new_total: u64) -> i64
    requires refund { refund ≤ 99_999_999_999 }
    requires new_total { new_total ≤ 99_999_999_999 }
    ensures difference { result ≡ pos (new_total + terms.now.exchange_fee) -ℤ pos refund }
    ensures least { negsuc 99_999_999_998 ≤ℤ result }
    ensures most { result ≤ℤ pos 100_009_999_999 }
    ensures above { result ≤ℤ pos (new_total + 10_000_000) }
{
    new_total as i64 + i64::from(terms.exchange_fee) - refund as i64
}
