//! Reservations: what a booking has at each place.
ghost use Rattle.std.specs.Prelude.{◌≡◌, ◌≢◌, ◌<◌, true, List, [], ◌∷◌, length, map, IfSome, IfNone, OnOk};
ghost use Rattle.std.specs.List.{flat_map};
ghost use Rattle.leg_masks.specs.Interval.{PlacedSpan, items_at};
ghost use Rattle.history_model.specs.Lists.{Pairwise};
ghost use Rattle.osdm_parts.specs.Reservations.{goes_on as goes_on_of, joined as joined_of, reservations, reservation_tree};
ghost use Rattle.osdm_parts.specs.Appends.{Appends, tokens_of, listed};

use crate::members::{put_count, put_text};
use crate::spots::{place_at, stop_code, train_number};
use catalogue_contents::Catalogue;
use json::Writer;
use leg_masks::{Item, Span, WORD_LEGS};
use std::alloc::AllocError;
use std::marker::Model;

/// A booking whose items are those of placed spans, each at a place of its own, is shown with just these spans in their
/// order, each once and whole.
pub fn places_are_shown_once()
    ensures once { (placed : List PlacedSpan) → Pairwise (λ a b. a.place ≢ b.place) placed
        → reservations (flat_map (λ r. items_at r.span r.place) placed) ≡ placed }
{}

// The legs of a booking at a place, which may lie in both halves.
#[derive(Clone, Copy)]
struct Reservation {
    place: u32,
    span: Span,
}

impl Model for Reservation {
    ghost use Rattle.leg_masks.specs.Interval.{PlacedSpan};

    ghost Value = { PlacedSpan };

    ghost view = { λ r. record { place = r.place; span = r.span } };

    ghost inverse = { λ r. record { place = r.place; span = r.span } };
}

/// The reservations of a booking with these items.
pub fn put_reservations(out: &mut Writer, cat: &Catalogue, items: &[Item]) -> Result<(), AllocError>
    ensures { OnOk result (Appends out.old out.new (listed (map (reservation_tree cat.now) (reservations items.now)))) }
{
    let mut left = items;
    while let Some((reservation, behind)) = split_first(left) {
        put_reservation(out, cat, reservation)?;
        left = behind;
    }
    Ok(())
}

// The first reservation of a booking with these items, and the items after it.
fn split_first(items: &[Item]) -> Option<(Reservation, &[Item])>
    ensures first { IfSome result (λ found. reservations items.now ≡ found.0 ∷ reservations found.1.now) }
    ensures fewer { IfSome result (λ found. length found.1.now < length items.now) }
    ensures none { IfNone result (reservations items.now ≡ []) }
{
    match items {
        [first, second, behind @ ..] if goes_on(*first, *second) => {
            Some((joined(*first, *second), behind))
        }
        [first, behind @ ..] => Some((alone(*first), behind)),
        [] => None,
    }
}

// Whether the items are one reservation: a span that lies in both halves has an item in each.
fn goes_on(first: Item, second: Item) -> bool
    ensures { result ≡ goes_on_of first second }
{
    first.place() == second.place()
        && first.span().to() == WORD_LEGS
        && second.span().from() == WORD_LEGS
}

fn joined(first: Item, second: Item) -> Reservation
    requires { goes_on_of first second ≡ true }
    ensures { result ≡ joined_of first second }
{
    Reservation {
        place: first.place(),
        span: Span {
            from: first.span().from(),
            to: second.span().to(),
        },
    }
}

fn alone(item: Item) -> Reservation
    ensures { result ≡ item }
{
    Reservation {
        place: item.place(),
        span: item.span(),
    }
}

fn put_reservation(
    out: &mut Writer,
    cat: &Catalogue,
    reservation: Reservation,
) -> Result<(), AllocError>
    ensures { OnOk result (Appends out.old out.new (tokens_of (reservation_tree cat.now reservation))) }
{
    let place = place_at(cat, reservation.place);
    let span = reservation.span;
    out.begin_object()?;
    put_count(out, "coach", u64::from(place.coach))?;
    put_text(out, "from", stop_code(cat, place.run, span.from()))?;
    put_count(out, "place", u64::from(place.number))?;
    put_count(out, "run", u64::from(place.run.0))?;
    put_text(out, "to", stop_code(cat, place.run, span.to()))?;
    put_count(out, "train", u64::from(train_number(cat, place.run)))?;
    out.end_object()
}
