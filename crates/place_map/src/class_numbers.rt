ghost use Rattle.std.specs.Prelude.{◌≡◌, ◌≤◌, ◌<◌, ◌+◌, ◌++◌, [], filter, length, nat_lt, true, OnOk, OnErr};
ghost use Rattle.std.specs.List.Sorted.{IsPartitionedBy};
ghost use Rattle.place_map.specs.ByClass.{of_class, with_numbers, numbers_up, is_between, SplitsNumbers};
ghost use Rattle.place_map.specs.Candidates.{AreRising};

use crate::coach::Class;
use rail_ids::PlaceNo;
use std::alloc::{AllocError, Global};
use std::marker::Model;

/// The numbers of the places of each class.
#[derive(Drop)]
pub(crate) struct ClassNumbers {
    first: Vec<PlaceNo>,
    second: Vec<PlaceNo>,
}

impl Model for ClassNumbers {
    ghost use Rattle.place_map.specs.ByClass.{ByClass};

    ghost Value = { ByClass };

    ghost view = { λ n. record { first = n.first.items; second = n.second.items } };
}

impl ClassNumbers {
    /// No numbers. Takes no memory.
    pub(crate) fn new(alloc: Global) -> ClassNumbers
        ensures { result ≡ record { first = []; second = [] } }
    {
        ClassNumbers {
            first: Vec::new(alloc),
            second: Vec::new(alloc),
        }
    }

    /// The numbers of a class.
    pub(crate) fn of(&self, class: Class) -> &[PlaceNo]
        ensures { result.now ≡ of_class class self.now }
    {
        match class {
            Class::First => self.first.as_slice(),
            Class::Second => self.second.as_slice(),
        }
    }

    /// Adds that many numbers to a class, from this one up. Where memory runs out all is as before.
    pub(crate) fn add(&mut self, class: Class, from: usize, count: usize) -> Result<(), AllocError>
        requires { from + count ≤ 4_194_304 }
        ensures ok { OnOk result (self.new ≡ with_numbers class (numbers_up from count) self.old) }
        ensures kept { OnErr result (self.new ≡ self.old) }
    {
        match class {
            Class::First => push_numbers(&mut self.first, from, count),
            Class::Second => push_numbers(&mut self.second, from, count),
        }
    }
}

fn push_numbers(numbers: &mut Vec<PlaceNo>, from: usize, count: usize) -> Result<(), AllocError>
    requires { from + count ≤ 4_194_304 }
    ensures ok { OnOk result (numbers.new.items ≡ numbers.old.items ++ numbers_up from count) }
    ensures kept { OnErr result (numbers.new.items ≡ numbers.old.items) }
{
    let before = numbers.len();
    for n in 0..count {
        if let Err(error) = numbers.push(PlaceNo((from + n) as u32)) {
            numbers.truncate(before);
            return Err(error.into());
        }
    }
    Ok(())
}

/// The numbers from the first to before the end. They stand from the one guess to the other, where these are right;
/// else they are found by two binary searches.
pub(crate) fn numbers_between(
    numbers: &[PlaceNo],
    first: usize,
    end: usize,
    from: usize,
    to: usize,
) -> &[PlaceNo]
    requires { AreRising 0 numbers.now }
    ensures { result.now ≡ filter (is_between first end) numbers.now }
{
    let start = numbers_before(numbers, first, from);
    let rest = &numbers[start..];
    &rest[..numbers_before(rest, end, to.saturating_sub(start))]
}

// How many numbers stand before the limit. It is the guess, where that is right.
fn numbers_before(numbers: &[PlaceNo], limit: usize, guess: usize) -> usize
    requires in_order { IsPartitionedBy (λ n. nat_lt n.0 limit) numbers.now }
    ensures within { result ≤ length numbers.now }
    ensures splits { SplitsNumbers limit numbers.now result }
{
    if splits_here(numbers, limit, guess) {
        return guess;
    }
    numbers.partition_point(|n| (n.0 as usize) < limit)
}

// Whether the numbers before this one are before the limit, and the others are not, by a look at its two neighbours.
fn splits_here(numbers: &[PlaceNo], limit: usize, at: usize) -> bool
    requires in_order { IsPartitionedBy (λ n. nat_lt n.0 limit) numbers.now }
    ensures within { result ≡ true → at ≤ length numbers.now }
    ensures splits { result ≡ true → SplitsNumbers limit numbers.now at }
{
    if at > numbers.len() {
        return false;
    }
    if at > 0 && numbers[at - 1].0 as usize >= limit {
        return false;
    }
    at == numbers.len() || numbers[at].0 as usize >= limit
}
