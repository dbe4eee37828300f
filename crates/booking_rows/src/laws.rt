//! What holds of a desk's calls over its life, as the contract of a function that does nothing.
ghost use Rattle.booking_rows.specs.Searches.{AreFew, MissesAreFew};

/// However many holds a desk starts or fails to, all its searches for rows that were never used have together at most
/// one entry for each row of the books. Each looks at no row below the first that the desk hadn't seen taken.
pub fn searches_are_few()
    ensures few { AreFew }
    ensures each { MissesAreFew }
{}
