// A shelf over memory.
ghost use Rattle.std.specs.Prelude.{◌≡◌, ℕ, List, None, Some, OnOk, OnErr, string_bytes, if◌then◌else◌};
ghost use Rattle.std.specs.Str.{bytes_eq};

use crate::{Fetched, Shelf};
use std::alloc::{AllocError, Global};
use std::collections::BTreeMap;

/// Holds files in memory. `fails` lists the fetches that are to fail, counted from 1.
#[derive(Drop)]
pub struct MapShelf {
    files: BTreeMap<String, Vec<u8>>,
    fails: Vec<u64>,
    calls: u64,
    faults: u64,
    misses: u64,
}

impl MapShelf {
    ghost use Rattle.rail_io.specs.Memory.{shelf_file, shelf_faults, shelf_misses, shelf_calls, shelf_fails};

    /// A shelf with no file, whose listed fetches fail.
    pub fn new(alloc: Global, fails: Vec<u64>) -> Self
        ensures empty { (name : List ℕ) → shelf_file result name ≡ None }
        ensures faults { shelf_faults result ≡ 0 }
        ensures misses { shelf_misses result ≡ 0 }
        ensures calls { shelf_calls result ≡ 0 }
        ensures fails { shelf_fails result ≡ fails.items }
    {
        MapShelf {
            files: BTreeMap::new(alloc),
            fails,
            calls: 0,
            faults: 0,
            misses: 0,
        }
    }

    /// Adds a file, or replaces the one of that name.
    pub fn put(&mut self, name: String, content: Vec<u8>) -> Result<(), AllocError>
        ensures ok { OnOk result ((other : List ℕ) → shelf_file self.new other
            ≡ (if bytes_eq (string_bytes name) other then Some content.items else shelf_file self.old other)) }
        ensures err { OnErr result ((other : List ℕ) → shelf_file self.new other ≡ shelf_file self.old other) }
        ensures faults { shelf_faults self.new ≡ shelf_faults self.old }
        ensures misses { shelf_misses self.new ≡ shelf_misses self.old }
        ensures calls { shelf_calls self.new ≡ shelf_calls self.old }
        ensures fails { shelf_fails self.new ≡ shelf_fails self.old }
    {
        self.files.insert(name, content)?;
        Ok(())
    }
}

impl Shelf for MapShelf {
    ghost use Rattle.std.specs.Prelude.{◌↔◌, ◌≤◌, Contains};
    ghost use Rattle.rail_io.specs.declared.shelf.Fetched.TheVariants.{Failed, Missing, TooLarge};
    ghost use Rattle.rail_io.specs.Faults.{Rose};
    ghost use Rattle.rail_io.specs.Files.{Fetches};
    ghost use Rattle.rail_io.specs.Memory.{shelf_file, shelf_faults, shelf_misses, shelf_calls, shelf_fails, IsOneCallMore};

    ghost told = { λ s. Some (λ name. shelf_file s name) };

    ghost faults = { λ s. s.faults };

    ghost misses = { λ s. s.misses };

    fn fetch(&mut self, alloc: Global, name: &str, room: u32) -> Fetched
        ensures files { Fetches (shelf_file self.old) name.now room result }
        ensures same { Some (shelf_file self.new) ≡ Some (shelf_file self.old) }
        ensures faults_never_fall { shelf_faults self.old ≤ shelf_faults self.new }
        ensures failed { result ≡ Failed → Rose (shelf_faults self.old) (shelf_faults self.new) }
        ensures steady { (result ≡ Failed → ⊥) → shelf_faults self.new ≡ shelf_faults self.old }
        ensures misses_never_fall { shelf_misses self.old ≤ shelf_misses self.new }
        ensures missing { result ≡ Missing → Rose (shelf_misses self.old) (shelf_misses self.new) }
        ensures too_large { result ≡ TooLarge → Rose (shelf_misses self.old) (shelf_misses self.new) }
        ensures calls { IsOneCallMore (shelf_calls self.old) (shelf_calls self.new) }
        ensures listed { (result ≡ Failed) ↔ Contains (shelf_fails self.old) (shelf_calls self.new) }
        ensures fails { shelf_fails self.new ≡ shelf_fails self.old }
    {
        self.calls = self.calls.saturating_add(1);
        if self.fails.contains(&self.calls) {
            self.faults = self.faults.saturating_add(1);
            return Fetched::Failed;
        }
        let Some(content) = self.files.get(name) else {
            self.misses = self.misses.saturating_add(1);
            return Fetched::Missing;
        };
        if content.len() > room as usize {
            self.misses = self.misses.saturating_add(1);
            return Fetched::TooLarge;
        }
        match content.to_vec(alloc) {
            Ok(bytes) => Fetched::Got(bytes),
            Err(_) => Fetched::NoMemory,
        }
    }
}
