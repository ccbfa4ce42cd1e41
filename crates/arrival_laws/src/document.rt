//! Laws about files and ledgers as documents of operations.

ghost use Rattle.arrival_laws.specs.Document.{ChangesComeInTurn, FileIsDocument, LedgerIsDocument};

/// The state of the base of a file that stands for a ledger, and the operations that it keeps, make up a document.
pub fn file_is_document()
    ensures { FileIsDocument }
{}

/// So do all operations of a ledger, with the empty state.
pub fn ledger_is_document()
    ensures { LedgerIsDocument }
{}

/// The operations of a change that joins may come to a file's document one after the other, and have the change's place in it.
pub fn changes_come_in_turn()
    ensures { ChangesComeInTurn }
{}
