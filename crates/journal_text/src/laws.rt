//! What holds of every journal, as the contract of a function that does nothing.

ghost use Rattle.journal_text.specs.Laws.{CutsAreFoldedBack};

/// What is written, of at most 262,144 rows and of lines in their places, is folded as these lines: the last one of
/// each row, with no fault but lack of memory.
pub fn cuts_are_folded_back()
    ensures { CutsAreFoldedBack }
{}
