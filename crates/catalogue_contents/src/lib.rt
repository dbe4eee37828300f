//! A catalogue that was read: stations and runs, fares, places, retailers, rows and terms.
//!
//! Contracts see a `Catalogue` as a `CatalogueView`. `rail_catalogue` reads it from its file. It is never changed. Only
//! `legs`, which lists the legs of all places, takes memory. `crosses` is the proof that threads may share it.
#![tactic(auto)]

mod catalogue;
mod crossing;
mod fares;
mod network;
mod retailers;

pub use catalogue::Catalogue;
pub use crossing::crosses;
pub use fares::Fares;
pub use network::Network;
pub use retailers::Retailers;
