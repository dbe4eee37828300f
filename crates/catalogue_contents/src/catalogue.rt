ghost use Rattle.std.specs.Prelude.{◌≡◌, ◌≤◌, ◌<◌, All, IfOk, IfSome, IfNone, length, map, option_map, slice_get, string_bytes};
ghost use Rattle.leg_masks.specs.Interval.{most_places};
ghost use Rattle.place_map.specs.Places.{run_number};
ghost use Rattle.rail_time.specs.Moments.{last_second};
ghost use Rattle.catalogue_contents.specs.Retailers.{retailer_with};
ghost use Rattle.catalogue_contents.specs.Contents.{IsWhole, IsNumberOfLegs, fare_in, place_legs, legs_in, departure_at as departure_at_of, departure_from as departure_from_of, departure_of, least_departure};

use crate::fares::Fares;
use crate::network::Network;
use crate::retailers::Retailers;
use leg_masks::Item;
use place_map::{Class, Place, PlaceMap};
use rail_ids::{PlaceNo, RetailerNo, RunNo};
use rail_time::Moment;
use std::alloc::{AllocError, Global};
use std::marker::Model;
use tariff::{Fare, Terms};
use train_runs::{Runs, Stop};

/// All that is sold. Contracts see it as a `CatalogueView`.
#[derive(Drop)]
pub struct Catalogue {
    currency: String,
    rows: u32,
    retailers: Retailers,
    runs: Runs,
    fares: Vec<Fares>,
    places: PlaceMap,
    terms: Terms,
}

impl Model for Catalogue {
    ghost use Rattle.std.specs.Prelude.{◌≡◌, ◌≤◌, string_bytes, length};
    ghost use Rattle.catalogue_contents.specs.Contents.{CatalogueView, IsWhole};

    ghost Value = { CatalogueView };

    ghost view = { λ c. record {
      currency = string_bytes c.currency;
      rows = c.rows;
      retailers = c.retailers;
      runs = c.runs;
      fares = c.fares.items;
      places = c.places;
      terms = c.terms;
    } };

    ghost invariant = { λ c. (length (string_bytes c.currency) ≡ 3) × (1 ≤ c.rows) × (c.rows ≤ 262_144)
        × (1 ≤ length c.runs.runs) × IsWhole c.runs c.fares.items c.places };
}

impl Catalogue {
    /// The catalogue of these parts.
    pub fn new(
        currency: String,
        rows: u32,
        retailers: Retailers,
        terms: Terms,
        network: Network,
    ) -> Catalogue
        requires currency { length (string_bytes currency) ≡ 3 }
        requires some { 1 ≤ rows }
        requires most { rows ≤ 262_144 }
        requires run { 1 ≤ length network.runs.runs }
        requires whole { IsWhole network.runs network.fares.items network.places }
        ensures { result ≡ record {
          currency = string_bytes currency;
          rows = rows;
          retailers = retailers;
          runs = network.runs;
          fares = network.fares.items;
          places = network.places;
          terms = terms;
        } }
    {
        let Network {
            runs,
            fares,
            places,
        } = network;
        Catalogue {
            currency,
            rows,
            retailers,
            runs,
            fares,
            places,
            terms,
        }
    }

    /// The stations and the runs.
    pub fn runs(&self) -> &Runs
        ensures value { result.now ≡ self.now.runs }
    {
        &self.runs
    }

    /// The places of all runs.
    pub fn places(&self) -> &PlaceMap
        ensures value { result.now ≡ self.now.places }
    {
        &self.places
    }

    /// The terms of refunds, exchanges and confirmation.
    pub fn terms(&self) -> &Terms
        ensures value { result.now ≡ self.now.terms }
    {
        &self.terms
    }

    /// How many booking rows there are: 1 to 262,144.
    pub fn rows(&self) -> u32
        ensures rows { result ≡ self.now.rows }
        ensures some { 1 ≤ result }
        ensures most { result ≤ 262_144 }
    {
        self.rows
    }

    /// The currency of all amounts: three letters.
    pub fn currency(&self) -> [u8; 3]
        ensures value { result ≡ self.now.currency }
    {
        let text = self.currency.as_bytes();
        [text[0], text[1], text[2]]
    }

    /// The currency of all amounts as a text.
    pub fn currency_text(&self) -> &str
        ensures value { result.now ≡ self.now.currency }
    {
        self.currency.as_str()
    }

    /// What an adult pays on a run: `None` exactly where there is no such run.
    pub fn fare(&self, run: RunNo, class: Class) -> Option<Fare>
        ensures fare { result ≡ option_map (fare_in class) (slice_get self.now.fares run.0) }
        ensures known { IfSome result (λ _. run.0 < length self.now.runs.runs) }
        ensures unknown { IfNone result (length self.now.runs.runs ≤ run.0) }
    {
        let fares = self.fares.get(run.0 as usize).copied()?;
        Some(fares.of(class))
    }

    /// The retailer with the key: `None` exactly where there is none.
    pub fn retailer_of(&self, key: &[u8]) -> Option<RetailerNo>
        ensures value { result ≡ retailer_with key.now self.now.retailers }
    {
        self.retailers.number_of(key)
    }

    /// For each place in rising number, the number of legs of its run.
    pub fn legs(&self, alloc: Global) -> Result<Vec<u8>, AllocError>
        ensures legs { IfOk result (λ v. v.items ≡ legs_in self.now) }
        ensures some { 1 ≤ length self.now.places }
        ensures most { length self.now.places ≤ most_places }
        ensures within { IfOk result (λ v. All IsNumberOfLegs v.items) }
    {
        legs_of_places(alloc, self.places.all(), &self.runs)
    }

    /// The least departure over the items' runs at the stops where the items begin. The last moment stands in for an
    /// item that lies within no run of the catalogue, and for no item at all.
    pub fn first_departure(&self, items: &[Item]) -> Moment
        ensures value { result ≡ least_departure self.now items.now }
    {
        let mut least = last_moment();
        for item in items {
            let departure = self.departure(item);
            if departure.seconds() < least.seconds() {
                least = departure;
            }
        }
        least
    }

    fn departure(&self, item: &Item) -> Moment
        ensures { result ≡ departure_of self.now item.now }
    {
        match self.places.place(PlaceNo(item.place())) {
            Some(place) => departure_from(&self.runs, usize::from(item.span().from()), &place),
            None => last_moment(),
        }
    }
}

// The departure of a place's run from its n-th stop.
fn departure_from(runs: &Runs, n: usize, place: &Place) -> Moment
    ensures { result ≡ departure_from_of runs.now n place.now }
{
    match runs.run(place.run) {
        Some(run) => departure_at(run.stops(), n),
        None => last_moment(),
    }
}

fn departure_at(stops: &[Stop], n: usize) -> Moment
    ensures { result ≡ departure_at_of stops.now n }
{
    match stops.get(n) {
        Some(stop) => stop.depart,
        None => last_moment(),
    }
}

fn last_moment() -> Moment
    ensures { result ≡ last_second }
{
    Moment::of(4_102_444_799).unwrap()
}

fn legs_of_places(alloc: Global, places: &[Place], runs: &Runs) -> Result<Vec<u8>, AllocError>
    requires known { All (λ p. run_number p < length runs.now.runs) places.now }
    ensures legs { IfOk result (λ v. v.items ≡ map (place_legs runs.now) places.now) }
    ensures within { IfOk result (λ v. All IsNumberOfLegs v.items) }
{
    let mut legs = Vec::new(alloc);
    for place in places {
        legs.push(legs_of_place(place, runs))?;
    }
    Ok(legs)
}

fn legs_of_place(place: &Place, runs: &Runs) -> u8
    ensures legs { result ≡ place_legs runs.now place.now }
    ensures within { run_number place.now < length runs.now.runs → IsNumberOfLegs result }
{
    match runs.run(place.run) {
        Some(run) => (run.stops().len() - 1) as u8,
        None => 0,
    }
}
