//! What holds between the calls of an exchange, as a contract of a function that does nothing.
ghost use Rattle.exchange_core.specs.Ready.{ReadyStays};

/// What a desk has made ready stays so through all that it does.
pub fn ready_stays()
    ensures stays { ReadyStays }
{}
