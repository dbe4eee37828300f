use crate::fares::Fares;
use place_map::PlaceMap;
use train_runs::Runs;

/// Runs with their fares and places.
#[derive(Drop)]
pub struct Network {
    pub runs: Runs,
    pub fares: Vec<Fares>,
    pub places: PlaceMap,
}
