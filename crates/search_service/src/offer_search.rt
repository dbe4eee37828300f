//! Searching for offers.
ghost use Rattle.std.specs.Prelude.{◌≡◌, ◌≤◌, All, Ok, IfOk, IfErr, true};
ghost use Rattle.offer_codes.specs.Offers.{is_party};
ghost use Rattle.osdm_parts.specs.Offers.{IsWritable};
ghost use Rattle.osdm_parts.specs.declared.problem.Problem.TheVariants.{NoMemory};
ghost use Rattle.osdm_texts.specs.Answers.{Reply as Replied, offer_list, reply_told, told_of, Tells};
ghost use Rattle.shop.specs.Homes.{IsAtHome, StaysHome};
ghost use Rattle.search_service.specs.Searching.{SearchesOffers};

use crate::ranges::know_ranges;
use claim_rule::Desk;
use offer_codes::Offer;
use offer_engine::{OfferWish, offers};
use osdm_texts::{Problem, Reply, Success, Written, write_reply};
use rail_time::Moment;
use shop::Shop;

/// Searches for the offers of a wish from now on (OSDM's search of offers), each with its price and what is free, and
/// answers them.
///
/// There are one to eight passengers, `wanted` is at most 31, and the books have the catalogue's places. Where there is
/// no memory that is the answer, and the desk has made the looks of the first segments.
pub fn search_offers(
    shop: &Shop<'_>,
    desk: &mut Desk,
    wish: &OfferWish,
    now: Moment,
) -> Result<Written, Problem>
    requires home { IsAtHome shop.now.books.now desk.old }
    requires party { is_party wish.now.adults wish.now.children ≡ true }
    requires traits { wish.now.wanted ≤ 31 }
    ensures home { StaysHome shop.now.books.now desk.old desk.new }
    ensures answer { (reply : Replied) × SearchesOffers shop.now.cat.now wish.now now desk.old desk.new reply
        × (told_of result ≡ reply_told shop.now.cat.now reply) }
{
    let Ok(found) = offers(shop.alloc, shop.cat, shop.books, desk, wish, now) else {
        return Err(Problem::NoMemory);
    };
    know_ranges(shop.cat.runs(), now);
    offer_answer(shop, found.as_slice())
}

// The text that lists the offers.
fn offer_answer(shop: &Shop<'_>, offers: &[Offer]) -> Result<Written, Problem>
    requires writable { All IsWritable offers.now }
    ensures told { IfOk result (Tells shop.now.cat.now (offer_list offers.now)) }
    ensures untold { IfErr result (λ p. p ≡ NoMemory) }
{
    write_reply(
        shop.alloc,
        shop.cat,
        Success::Done,
        &Reply::OfferList { offers },
    )
    .ok_or(Problem::NoMemory)
}
