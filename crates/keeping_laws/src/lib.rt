//! Laws about what commands store: it keeps every rule of files but for size. Each is the contract of a function with nothing to do.
#![tactic(auto)]

ghost use Rattle.keeping_laws.specs.Keeping.{FoundKeepsRules, StoredKeepRules};
ghost use Rattle.keeping_laws.specs.Showing.{FilesShowEdits, NodesShownOnce, StoredAreWhole};
ghost use Rattle.keeping_laws.specs.Writing.{WrittenAreStored};

/// Whatever a command stores of a stored file that stands for a ledger keeps every rule of files.
pub fn stored_keep_rules()
    ensures { StoredKeepRules }
{}

/// The file of a new document keeps every rule of files.
pub fn found_keeps_rules()
    ensures { FoundKeepsRules }
{}

/// Where the spelling of what a command stores is written, and isn't too long, what it stores is a stored file.
pub fn written_files_are_stored()
    ensures { WrittenAreStored }
{}

/// The ledger of a stored file has a whole state, whatever was trimmed.
pub fn stored_files_are_whole()
    ensures { StoredAreWhole }
{}

/// An edit of a stored file that stands for a ledger shows its effect.
pub fn files_show_edits()
    ensures { FilesShowEdits }
{}

/// The ledger of a stored file shows each node once.
pub fn nodes_are_shown_once()
    ensures { NodesShownOnce }
{}
