ghost use Rattle.std.specs.Prelude.{◌≡◌, ◌++◌, [], ◌∷◌, None, IfOk};
ghost use Rattle.catalogue_contents.specs.Retailers.{has_number as has_number_of, retailer_with};

use rail_ids::RetailerNo;
use std::alloc::{AllocError, Global};
use std::collections::{BTreeMap, BTreeSet};
use std::marker::Model;

// A retailer, as the file has it.
#[derive(Drop)]
struct Retailer {
    number: u32,
    key: Vec<u8>,
}

impl Model for Retailer {
    ghost use Rattle.catalogue_contents.specs.Retailers.{RetailerView};

    ghost Value = { RetailerView };

    ghost view = { λ r. record { number = r.number; key = r.key.items } };
}

/// The retailers in the file's order, with what finds one by its key or its number.
#[derive(Drop)]
pub struct Retailers {
    list: Vec<Retailer>,
    by_key: BTreeMap<Vec<u8>, RetailerNo>,
    numbers: BTreeSet<u32>,
}

impl Model for Retailers {
    ghost use Rattle.std.specs.Prelude.{◌≡◌, ℕ, List};
    ghost use Rattle.std.specs.Ordering.{nat_cmp};
    ghost use Rattle.std.specs.Cmp.Lexicographic.{slice_cmp};
    ghost use Rattle.std.specs.BTreeMap.{get_by};
    ghost use Rattle.std.specs.BTreeSet.{contains};
    ghost use Rattle.catalogue_contents.specs.Retailers.{RetailerView, has_number, retailer_with};

    ghost Value = { List RetailerView };

    ghost view = { λ r. r.list.items };

    ghost invariant = { λ r.
        ((key : List ℕ) → get_by (λ k. slice_cmp nat_cmp key k.items) r.by_key ≡ retailer_with key r.list.items)
        × ((number : ℕ) → contains nat_cmp r.numbers number ≡ has_number number r.list.items) };
}

impl Retailers {
    /// No retailers.
    pub fn new(alloc: Global) -> Retailers
        ensures { result ≡ [] }
    {
        Retailers {
            list: Vec::new(alloc),
            by_key: BTreeMap::new(alloc),
            numbers: BTreeSet::new(alloc),
        }
    }

    /// The number of the retailer with the key.
    pub fn number_of(&self, key: &[u8]) -> Option<RetailerNo>
        ensures { result ≡ retailer_with key.now self.now }
    {
        self.by_key.get(key).copied()
    }

    /// Whether a retailer has the number.
    pub fn has_number(&self, number: u32) -> bool
        ensures { result ≡ has_number_of number self.now }
    {
        self.numbers.contains(&number)
    }

    /// The retailers with a further one, of whose key there is none.
    pub fn with(self, alloc: Global, number: u32, key: &[u8]) -> Result<Retailers, AllocError>
        requires fresh { retailer_with key.now self ≡ None }
        ensures { IfOk result (λ r. r ≡ self ++ (record { number = number; key = key.now }) ∷ []) }
    {
        let Retailers {
            mut list,
            mut by_key,
            mut numbers,
        } = self;
        numbers.insert(number)?;
        by_key.insert(key.to_vec(alloc)?, RetailerNo(number))?;
        list.push(Retailer {
            number,
            key: key.to_vec(alloc)?,
        })?;
        Ok(Retailers {
            list,
            by_key,
            numbers,
        })
    }
}
