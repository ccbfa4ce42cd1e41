//! Laws about what is stored.

ghost use Rattle.ledger_laws.specs.Storing.{DeliveredFilesStand, StoredFilesStand};

/// What is trimmed, a snapshot, a file that holds a member less, and one that is begun stand for the same ledger.
pub fn stored_files_stand()
    ensures { StoredFilesStand }
{}

/// What a delivery stores stands for the ledger of settling.
pub fn delivered_files_stand()
    ensures { DeliveredFilesStand }
{}
