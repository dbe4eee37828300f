//! Offers.
ghost use Rattle.std.specs.Prelude.{◌≡◌, All, map, length, OnOk};
ghost use Rattle.json.specs.Token.{key, begin_array, end_array};
ghost use Rattle.osdm_parts.specs.Offers.{segment_tree, segment_trees, offer_tree, IsWritable};
ghost use Rattle.osdm_parts.specs.Appends.{Appends, tokens_of, listed};

use crate::ids::{offer_id, text_of};
use crate::members::{put_count, put_price, put_text, put_time};
use crate::spots::{run_stop, stop_code, train_number};
use catalogue_contents::Catalogue;
use json::Writer;
use offer_codes::{Offer, Segment, VALID_SECONDS};
use std::alloc::AllocError;

/// The offers, in order.
pub fn put_offers(out: &mut Writer, cat: &Catalogue, offers: &[Offer]) -> Result<(), AllocError>
    requires writable { All IsWritable offers.now }
    ensures { OnOk result (Appends out.old out.new (listed (map (offer_tree cat.now) offers.now))) }
{
    for offer in offers {
        put_offer(out, cat, offer)?;
    }
    Ok(())
}

fn put_offer(out: &mut Writer, cat: &Catalogue, offer: &Offer) -> Result<(), AllocError>
    requires writable { IsWritable offer.now }
    ensures { OnOk result (Appends out.old out.new (tokens_of (offer_tree cat.now offer.now))) }
{
    let id = offer_id(&offer.code);
    out.begin_object()?;
    put_text(out, "id", text_of(id.as_slice()))?;
    put_price(out, "price", cat.currency_text(), offer.price)?;
    out.key("segments")?;
    out.begin_array()?;
    put_segments(
        out,
        cat,
        offer.code.segments.as_slice(),
        offer.free.as_slice(),
    )?;
    out.end_array()?;
    put_time(out, "validUntil", offer.code.made.later(VALID_SECONDS))?;
    out.end_object()
}

fn put_segments(
    out: &mut Writer,
    cat: &Catalogue,
    segments: &[Segment],
    free: &[u32],
) -> Result<(), AllocError>
    requires counts { length free.now ≡ length segments.now }
    ensures { OnOk result (Appends out.old out.new (listed (segment_trees cat.now segments.now free.now))) }
{
    for (n, segment) in segments.iter().enumerate() {
        put_segment(out, cat, segment, free[n])?;
    }
    Ok(())
}

fn put_segment(
    out: &mut Writer,
    cat: &Catalogue,
    segment: &Segment,
    free: u32,
) -> Result<(), AllocError>
    ensures { OnOk result (Appends out.old out.new (tokens_of (segment_tree cat.now segment.now free))) }
{
    let run = segment.run;
    let (from, to) = (segment.span.from(), segment.span.to());
    out.begin_object()?;
    put_time(out, "arrive", run_stop(cat, run, to).arrive)?;
    put_time(out, "depart", run_stop(cat, run, from).depart)?;
    put_count(out, "free", u64::from(free))?;
    put_text(out, "from", stop_code(cat, run, from))?;
    put_count(out, "run", u64::from(run.0))?;
    put_text(out, "to", stop_code(cat, run, to))?;
    put_count(out, "train", u64::from(train_number(cat, run)))?;
    out.end_object()
}
