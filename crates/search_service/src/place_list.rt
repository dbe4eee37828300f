//! The places of a run, and which of them are free.
ghost use Rattle.std.specs.Prelude.{◌≡◌, length, Ok, IfOk, IfErr};
ghost use Rattle.osdm_parts.specs.Spots.{run_places};
ghost use Rattle.osdm_parts.specs.declared.problem.Problem.TheVariants.{NoMemory};
ghost use Rattle.osdm_texts.specs.Answers.{Reply as Replied, place_list, reply_told, told_of, Tells};
ghost use Rattle.shop.specs.Homes.{IsAtHome, StaysHome};
ghost use Rattle.search_service.specs.Searching.{ListsPlaces};

use crate::place_numbers::numbers_of_run;
use availability::place_states;
use claim_rule::Desk;
use offer_codes::Segment;
use osdm_texts::{Problem, Reply, Success, Written, write_reply};
use rail_ids::RunNo;
use shop::Shop;

/// Answers all places of the segment's run, in order, and of each whether it is free on all legs of the segment, by a
/// look of this call at each piece of each (OSDM's place map).
///
/// The books have the catalogue's places. Where there is no memory that is the answer: either no look was made, or all
/// were.
pub fn list_places(shop: &Shop<'_>, desk: &mut Desk, segment: Segment) -> Result<Written, Problem>
    requires home { IsAtHome shop.now.books.now desk.old }
    ensures home { StaysHome shop.now.books.now desk.old desk.new }
    ensures answer { (reply : Replied) × ListsPlaces shop.now.cat.now segment desk.old desk.new reply
        × (told_of result ≡ reply_told shop.now.cat.now reply) }
{
    let Ok(numbers) = numbers_of_run(shop.alloc, shop.cat.places(), segment.run) else {
        return Err(Problem::NoMemory);
    };
    let Ok(free) = place_states(
        shop.alloc,
        shop.books,
        desk,
        numbers.as_slice(),
        segment.span,
    ) else {
        return Err(Problem::NoMemory);
    };
    place_answer(shop, segment.run, free.as_slice())
}

// The text that lists the places of the run.
fn place_answer(shop: &Shop<'_>, run: RunNo, free: &[bool]) -> Result<Written, Problem>
    requires one_each { length free.now ≡ length (run_places shop.now.cat.now run.0) }
    ensures told { IfOk result (Tells shop.now.cat.now (place_list run.0 free.now)) }
    ensures untold { IfErr result (λ p. p ≡ NoMemory) }
{
    write_reply(
        shop.alloc,
        shop.cat,
        Success::Done,
        &Reply::PlaceList { run, free },
    )
    .ok_or(Problem::NoMemory)
}
