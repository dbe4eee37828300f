//! What holds of all moments of a host that keeps a journal, as contracts of functions that do nothing.

ghost use Rattle.answer_gate.specs.declared.state.Standing.{Standing};
ghost use Rattle.host_journal.specs.Ahead.{AnswersFollowCuts, AnswersMayBeKept, NothingChangesMeanwhile, OthersPass};
ghost use Rattle.host_journal.specs.There.{AnswersAreThereAgain};

/// Where an answer's cut is kept, the journal has a cut that shows all that the answer tells. What its desk had seen
/// when it was given its cut had happened when the looks of the journal's cut began, but for looks. So it is at each
/// later moment, whichever moments come in between.
pub fn answers_follow_cuts()
    ensures follows { AnswersFollowCuts }
{}

/// So all that was answered is there again. Take the cuts up to that one, each with all rows that changed since the one
/// before, and all desks between two calls while the rows were looked at. Books that open with the fold of these cuts
/// have each booking that the answer showed sealed: as it was sealed, in the phase shown or in one that follows, with
/// its end where it had ended. Or its row serves for a later generation.
pub fn answers_are_there_again()
    ensures again { AnswersAreThereAgain }
{}

/// While the rows are looked at for a cut, nothing has changed since its looks began. So its lines are of one moment.
pub fn nothing_changes_meanwhile()
    ensures still { NothingChangesMeanwhile }
{}

/// There are answers of which the other laws speak: one that tells of an entry that was just made may be kept.
pub fn answers_may_be_kept()
    ensures some { AnswersMayBeKept }
{}

/// Each call of a gate that doesn't enter, leave or take a cut is such that a moment may follow by it.
pub fn other_calls_pass()
    ensures { (s : Standing) → OthersPass s }
{}
