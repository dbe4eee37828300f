//! Booking, searching, and all commands together.
ghost use Rattle.std.specs.Prelude.{◌≡◌, ◌≢◌, ◌≤◌, ◌↔◌, ℕ, Bool, IsTrue, List, Option, Ok};
ghost use Rattle.std.specs.List.{AllByRecursion};
ghost use Rattle.leg_masks.specs.Interval.{Interval, most_legs, PlacedSpan as Item};
ghost use Rattle.history_model.specs.declared.entry.Step.{Step};
ghost use Rattle.history_model.specs.Booking.{Layout, State};
ghost use Rattle.history_model.specs.History.{IsLegalFrom};
ghost use Rattle.history_model.specs.Lists.{Pairwise};
ghost use Rattle.claim_rule.specs.Rule.{DeskView, state_seen};
ghost use Rattle.claim_rule.specs.Calls.{AddsStepsBy};
ghost use Rattle.booking_rows.specs.Starts.{StartsHold};
ghost use Rattle.hold_core.specs.declared.adds.Added.{Added};
ghost use Rattle.hold_core.specs.Places.{Adds};
ghost use Rattle.party_places.specs.declared.party.PartyAdded.{PartyAdded};
ghost use Rattle.party_places.specs.Parties.{Party, SeatsParty};
ghost use Rattle.lone_desk.specs.Lone.{entries_of};
ghost use Rattle.lone_desk.specs.Decided.{IsFreeAt, HasClearWords};
ghost use Rattle.offer_engine.specs.declared.wish.OfferWish.{OfferWish};
ghost use Rattle.reservation_service.specs.declared.booking.Reservation.{Reservation};
ghost use Rattle.train_runs.specs.declared.segment.Segment.{Segment};
ghost use Rattle.rail_ids.specs.declared.RowNo.{RowNo};
ghost use Rattle.offer_codes.specs.declared.code.OfferCode.{OfferCode};
ghost use Rattle.offer_codes.specs.declared.code.ExchangeCode.{ExchangeCode};
ghost use Rattle.catalogue_contents.specs.Contents.{CatalogueView};
ghost use Rattle.osdm_json.specs.declared.command.Command.{Command};
ghost use Rattle.osdm_json.specs.declared.command.Command.TheVariants.{Book, AcceptExchange};
ghost use Rattle.osdm_json.specs.Readable.{IsReadable};
ghost use Rattle.service_rules.specs.Ordered.{offers, reserve, places};
ghost use Rattle.service_rules.specs.Checks.{ordered};
ghost use Rattle.service_rules.specs.Orders.{IsSoundOrder};
ghost use Rattle.plain_host.specs.Plain.{is_free};
ghost use Rattle.plain_host.specs.PlainOf.{plain_of};
ghost use Rattle.plain_host.specs.Found.{FindsFree, SeatsFree, ChoosesRow};
ghost use Rattle.plain_host.specs.Plainly.{IsLone, AnswersPlainly};

/// What a lone desk finds. Of each place the plain list says whether it is free on the span, which is whether its words
/// are clear on the pieces. Where that many candidates are wanted, the first free ones are won, or too few are free,
/// and nothing is contended. A party gets the first stretch that is free, and else the first free ones. A hold starts
/// on the plain host's row, and leaves what that one leaves.
pub fn places_are_found()
    ensures free { (cat : CatalogueView) (desk : DeskView) (span : Interval) (place : ℕ) → IsLone cat desk
        → IsTrue (is_free (plain_of desk).bookings span place) ↔ IsFreeAt (state_seen desk) span place }
    ensures words { (cat : CatalogueView) (desk : DeskView) (span : Interval) (place : ℕ) → IsLone cat desk
        → span.to ≤ most_legs
        → IsTrue (is_free (plain_of desk).bookings span place) ↔ HasClearWords (state_seen desk) span place }
    ensures first { (g : Layout) (s : State) (desk row k count : ℕ) (span : Interval) (candidates : List ℕ)
        (free : ℕ → Bool) (answer : Added) (won : List Item) (steps : List Step) → span.to ≤ most_legs
        → Pairwise (λ p q. p ≢ q) candidates
        → AllByRecursion (λ p. IsTrue (free p) ↔ IsFreeAt s span p) candidates → IsLegalFrom g s (entries_of desk steps)
        → Adds row k span count candidates answer won steps → FindsFree free span count candidates answer won }
    ensures together { (layout : Layout) (s : State) (desk : ℕ) (g : Party) (free : ℕ → Bool) (answer : PartyAdded)
        (won : List Item) (steps : List Step) → g.span.to ≤ most_legs → Pairwise (λ p q. p ≢ q) g.candidates
        → AllByRecursion (λ p. IsTrue (free p) ↔ IsFreeAt s g.span p) g.candidates
        → IsLegalFrom layout s (entries_of desk steps) → SeatsParty g answer won steps → SeatsFree g free answer won }
    ensures starts { (cat : CatalogueView) (old new : DeskView) (row : Option RowNo) → IsLone cat old
        → AddsStepsBy (StartsHold old new row) old new → ChoosesRow cat.rows (plain_of old) row (plain_of new) }
{}

/// The laws of a lone desk's orders on places: each is answered as by a host of one thread. All but the search for
/// offers are sound with this catalogue.
///
/// Those of booking an offer and of an exchange are on the command: one by an offer or a quote that is unknown or too
/// old orders none, and is refused for that.
pub fn places_are_plain()
    ensures book { (cat : CatalogueView) (retailer now : ℕ) (offer : Option OfferCode) (together : Bool)
        → IsReadable cat (Book offer together)
        → AnswersPlainly cat retailer now (ordered cat now (Book offer together)) }
    ensures reserve { (cat : CatalogueView) (retailer now : ℕ) (r : Reservation)
        → IsSoundOrder cat now (reserve r) → AnswersPlainly cat retailer now (Ok (reserve r)) }
    ensures offers { (cat : CatalogueView) (retailer now : ℕ) (wish : OfferWish)
        → AnswersPlainly cat retailer now (Ok (offers wish)) }
    ensures places { (cat : CatalogueView) (retailer now : ℕ) (segment : Segment)
        → IsSoundOrder cat now (places segment) → AnswersPlainly cat retailer now (Ok (places segment)) }
    ensures exchange { (cat : CatalogueView) (retailer now : ℕ) (row : Option RowNo) (code : Option ExchangeCode)
        → IsReadable cat (AcceptExchange row code)
        → AnswersPlainly cat retailer now (ordered cat now (AcceptExchange row code)) }
{}

/// The law of all commands. What a lone desk answers to a command that can be read, by what it orders or is refused
/// for, is what a host of one thread answers at the list of the desk's bookings. It also leaves the list that the host
/// of one thread leaves.
pub fn commands_are_plain()
    ensures plain { (cat : CatalogueView) (retailer now : ℕ) (c : Command) → IsReadable cat c
        → AnswersPlainly cat retailer now (ordered cat now c) }
{}
