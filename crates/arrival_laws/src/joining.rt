//! Laws about changes that join a ledger.

ghost use Rattle.arrival_laws.specs.Joining.{ChangesArrive, StabilityNeverFalls, StaysSound};

/// A change that joins a ledger lowers nothing that is known to all, and the ledger can be trimmed as far as before.
pub fn stability_never_falls()
    ensures { StabilityNeverFalls }
{}

/// A sound ledger stays sound with a change that joins it, in its place.
pub fn ledger_stays_sound()
    ensures { StaysSound }
{}

/// The document of a ledger with a change that joins it is that of the ledger with the change's operations done late, and the moves anew.
pub fn changes_arrive()
    ensures { ChangesArrive }
{}
