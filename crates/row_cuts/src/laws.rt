//! What holds of all journals of rows, as contracts of functions that do nothing.

ghost use Rattle.row_cuts.specs.Cuts.{CutsFoldToExports, JournalsAreReadBack, JournalsFoldToExports};
ghost use Rattle.row_cuts.specs.Kept.{ChangedRowsSuffice, KeptRowsStay, UnchangedRowsStay};
ghost use Rattle.row_cuts.specs.Quiet.{LinesAreOfOneMoment};
ghost use Rattle.row_cuts.specs.Told.{ToldHistoriesGoOn};

/// Lines are of one moment where nobody changes anything while they are written: they are those of a cut of the rows
/// that were looked at.
pub fn lines_are_of_one_moment()
    ensures { LinesAreOfOneMoment }
{}

/// Cuts of rows fold to an export. Each cut has the lines of the rows that changed since the one before, as they are at
/// its moment, no row that had one is left without, and the first cut has all rows. Then the fold is the text of the
/// export of the state at the last cut.
pub fn cuts_fold_to_exports()
    ensures { CutsFoldToExports }
{}

/// Each fold of the journal that was written of such cuts, whose lines are in their places, is that export.
pub fn journals_fold_to_exports()
    ensures { JournalsFoldToExports }
{}

/// Where all desks were between two calls of the service at the last cut, `import_books` reads the fold as just the
/// bookings of that moment, and refuses it for lack of memory alone.
pub fn journals_are_read_back()
    ensures { JournalsAreReadBack }
{}

/// A row of which something is kept has something ever after, whatever the desks do. So a line that a row has in a
/// journal is followed by others, and never has to be taken away.
pub fn kept_rows_stay()
    ensures { KeptRowsStay }
{}

/// A row of which no entry changes the standing word is kept as it was. So where each such change marks the row, as
/// `claim_rule` says of its steps in words, the rows that weren't marked since a cut need no line in the next one.
pub fn unchanged_rows_stay()
    ensures { UnchangedRowsStay }
{}

/// So it is enough that a cut has all rows whose standing word was changed since the cut before: it comes after that
/// cut, as `cuts_fold_to_exports` asks.
pub fn changed_rows_suffice()
    ensures { ChangedRowsSuffice }
{}

/// Where all desks were between two calls at the last cut, and what a desk had seen when it answered begins what the
/// cut has seen, the books that open with the fold go on from there. They begin with just what was kept at the cut.
/// Each booking that was sealed in what the desk had seen is in its row, with its retailer, limit, total and items. It
/// is in the phase that it had or in one that follows, and has its end where it had ended. Or the row serves for a
/// later generation.
pub fn told_histories_go_on()
    ensures { ToldHistoriesGoOn }
{}
