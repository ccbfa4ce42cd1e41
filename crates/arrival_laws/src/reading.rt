//! Laws about the two readings of what is held.

ghost use Rattle.arrival_laws.specs.Reading.{BothReadingsAgree};

/// What is read of a file's base and kept changes is what is read of the ledger that the file stands for.
pub fn both_readings_agree()
    ensures { BothReadingsAgree }
{}
