//! What holds of every legal history, as contracts of functions that do nothing.

ghost use Rattle.std.specs.Prelude.{◌≡◌, false};
ghost use Rattle.history_model.specs.declared.phase.Phase.{Phase};
ghost use Rattle.history_model.specs.declared.phase.Phase.TheVariants.{Confirmed};
ghost use Rattle.history_model.specs.Life.{LeadsTo, is_let_go};
ghost use Rattle.history_model.specs.Overall.{LegalIsWellFormed, LegalHasNoDouble, LegalIsInRange, EmptyIsLegal, LegalGoesOn, StateGoesOn};
ghost use Rattle.history_model.specs.Overall.{OwnersChangeAlone, OwnersStayPresent, UnendedIsPresent};
ghost use Rattle.history_model.specs.Overall.{StagesRise, PhasesLeadOn, GenerationsRise};
ghost use Rattle.history_model.specs.Overall.{OneTurnFrom, FirstTurnDecides, LosersSeeIt, EndingsStayOfKind};
ghost use Rattle.history_model.specs.Overall.{SealedStays, EndedGaveBack, LooksHaveCause, ChangeIsOthers, UnusedWordsStay};

/// The state of each legal history is well formed, no two live bookings share a place on a leg, and each booking lies
/// in a row of the books, with an end whose numbers a turn may have.
pub fn legal_histories()
    ensures well_formed { LegalIsWellFormed }
    ensures no_double { LegalHasNoDouble }
    ensures in_range { LegalIsInRange }
{}

/// A legal history with one allowed entry after it is legal, and its state is the applied one. So the list of a list
/// host that began empty is the state of a legal history.
pub fn histories_go_on()
    ensures legal { LegalGoesOn }
    ensures state { StateGoesOn }
    ensures begins { EmptyIsLegal }
{}

/// A booking in the making or ending is changed by the entries of its owner alone. A booking that hasn't ended is its
/// row's present one, and an owner's stays so.
pub fn owners_change_alone()
    ensures owner_alone { OwnersChangeAlone }
    ensures in_row { OwnersStayPresent }
    ensures stands { UnendedIsPresent }
{}

/// No phase of a booking ever goes back, and no row goes back to an earlier booking.
pub fn phases_go_forward()
    ensures stages { StagesRise }
    ensures leads { PhasesLeadOn }
    ensures generations { GenerationsRise }
{}

/// Of all turns of a booking from one phase, as from prebooked, the first decides. No other stands in the history, and
/// the phase stays one that the first leads to. That is what each lost turn after it shows, unless it shows a later
/// booking of the row.
pub fn first_turn_decides()
    ensures once { OneTurnFrom }
    ensures decides { FirstTurnDecides }
    ensures losers { LosersSeeIt }

    // What was confirmed is neither released nor does it expire, and an ending stays of its kind.
    ensures confirmed { (phase : Phase) → LeadsTo Confirmed phase → is_let_go phase ≡ false }
    ensures ending { EndingsStayOfKind }
{}

/// What was sealed stays: the words of the seal, and the items but for marks; and so does the end of a turn.
pub fn sealed_bookings_stay()
    ensures stays { SealedStays }
{}

/// An ended booking has given back exactly the items that it was sealed with, and has the amount of its turn; or the
/// books began with it.
pub fn ended_bookings_gave_back()
    ensures ended { EndedGaveBack }
{}

/// Where two looks at one half of a place show unlike words, an entry between them changed that word; and where none
/// between them is a desk's own, it is another desk's.
pub fn unlike_looks_have_a_cause()
    ensures changed { LooksHaveCause }
    ensures others { ChangeIsOthers }
{}

/// The words of a row past those of the items stay as the books began: 0 where these began empty.
pub fn unused_words_stay()
    ensures stay { UnusedWordsStay }
{}
