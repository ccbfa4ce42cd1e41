//! Laws of what may join, each the contract of a function with nothing to do.

ghost use Rattle.holding.specs.Laws.{FitChangesJoin, LedgersMayGrow};

/// A change that joins a ledger may join what is held of it behind the base of no changes.
pub fn ledgers_may_grow()
    ensures { LedgersMayGrow }
{}

/// The next change of its member joins the ledger if it isn't unfit there.
pub fn fit_changes_join()
    ensures { FitChangesJoin }
{}
