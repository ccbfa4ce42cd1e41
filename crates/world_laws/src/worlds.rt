//! Laws about worlds.

ghost use Rattle.world_laws.specs.Worlds.{HistoryFits, VectorsTellLedgers};

/// In a world, files with equal vectors have equal ledgers.
pub fn vectors_tell_ledgers()
    ensures { VectorsTellLedgers }
{}

/// In a history, a change that is ready at a ledger fits it.
pub fn history_fits()
    ensures { HistoryFits }
{}
