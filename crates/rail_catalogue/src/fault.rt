ghost use Rattle.std.specs.Prelude.{◌≡◌, IfSome};
ghost use Rattle.rail_catalogue.specs.declared.fault.CatalogueFault.TheVariants.{NoMemory};
ghost use Rattle.rail_catalogue.specs.Faults.{fault_of, field, item_path, run_item_path, group_path, trait_path};

use place_map::PlaceFault;
use std::alloc::{AllocError, AllocFailed, Global};
use tariff::TermsFault;
use train_runs::RunFault;

/// Why a text is no catalogue. The first fault in the order of the format is the answer.
#[derive(Drop)]
pub enum CatalogueFault {
    /// It is no JSON in UTF-8 (RFC 8259), nests deeper than 127, or has a number that is too large for a float.
    NotJson,
    /// The member at this path is missing, of another kind, out of its range or against its rule. A text that is no
    /// object has the empty path.
    Field { path: String },
    /// The stops of a run are no run, or there are too many runs.
    Run(RunFault),
    /// The places of a coach can't be added to its run.
    Place(PlaceFault),
    /// The refund steps and fees are no terms.
    Tariff(TermsFault),
    /// A stop names a station that the catalogue doesn't have.
    UnknownStation { code: String },
    /// A station's code, a retailer's key or a retailer's number stands twice.
    DoubleKey,
    /// Want of memory.
    NoMemory,
}

impl From<AllocError> for CatalogueFault {
    ghost from_gives = { λ _ e. e ≡ NoMemory };

    fn from(_e: AllocError) -> CatalogueFault {
        CatalogueFault::NoMemory
    }
}

impl<T: Drop> From<AllocFailed<T>> for CatalogueFault {
    ghost from_gives = { λ _ e. e ≡ NoMemory };

    fn from(_e: AllocFailed<T>) -> CatalogueFault {
        CatalogueFault::NoMemory
    }
}

/// The fault at a member of the whole.
pub fn field_fault(alloc: Global, path: &str) -> CatalogueFault
    ensures { IfSome (fault_of result) (λ f. f ≡ field path.now) }
{
    match String::from_str(alloc, path) {
        Ok(path) => CatalogueFault::Field { path },
        Err(_) => CatalogueFault::NoMemory,
    }
}

/// The fault at an item of a list, or at what follows it.
pub fn item_fault(alloc: Global, list: &str, n: usize, rest: &str) -> CatalogueFault
    ensures { IfSome (fault_of result) (λ f. f ≡ field (item_path list.now n rest.now)) }
{
    match format!(in alloc; "{list}[{n}]{rest}") {
        Ok(path) => CatalogueFault::Field { path },
        Err(_) => CatalogueFault::NoMemory,
    }
}

/// The fault at an item of a list of a run, or at what follows it.
pub fn run_item_fault(alloc: Global, run: usize, list: &str, n: usize, rest: &str) -> CatalogueFault
    ensures { IfSome (fault_of result) (λ f. f ≡ field (run_item_path run list.now n rest.now)) }
{
    match format!(in alloc; "runs[{run}].{list}[{n}]{rest}") {
        Ok(path) => CatalogueFault::Field { path },
        Err(_) => CatalogueFault::NoMemory,
    }
}

/// Where a group of places stands in the file.
#[derive(Clone, Copy)]
pub struct GroupSpot {
    pub run: usize,
    pub coach: usize,
    pub group: usize,
}

/// The fault at a group of places, or at what follows it.
pub fn group_fault(alloc: Global, at: GroupSpot, rest: &str) -> CatalogueFault
    ensures { IfSome (fault_of result) (λ f. f ≡ field (group_path at.run at.coach at.group rest.now)) }
{
    let GroupSpot { run, coach, group } = at;
    match format!(in alloc; "runs[{run}].coaches[{coach}].places[{group}]{rest}") {
        Ok(path) => CatalogueFault::Field { path },
        Err(_) => CatalogueFault::NoMemory,
    }
}

/// The fault at a trait of a group of places.
pub fn trait_fault(alloc: Global, at: GroupSpot, n: usize) -> CatalogueFault
    ensures { IfSome (fault_of result) (λ f. f ≡ field (trait_path at.run at.coach at.group n)) }
{
    let GroupSpot { run, coach, group } = at;
    match format!(in alloc; "runs[{run}].coaches[{coach}].places[{group}].traits[{n}]") {
        Ok(path) => CatalogueFault::Field { path },
        Err(_) => CatalogueFault::NoMemory,
    }
}
