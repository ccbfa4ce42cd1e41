//! What holds of the definitions of the command, as contracts of functions that do nothing.

ghost use Rattle.std.specs.Prelude.{◌≡◌, ℕ, true, List, None, Some, Result, Ok};
ghost use Rattle.std.specs.List.{AllByRecursion};
ghost use Rattle.model.specs.Change.{Change};
ghost use Rattle.model.specs.Edit.{Edit};
ghost use Rattle.model.specs.File.{File};
ghost use Rattle.model.specs.Held.{held, waits};
ghost use Rattle.model.specs.Reading.{state_in, unfit_in};
ghost use Rattle.model.specs.Stands.{Stands, Ledgers, AllStand};
ghost use Rattle.model.specs.State.{replay};
ghost use Rattle.model.specs.Command.{Command as TheCommand};
ghost use Rattle.outside.specs.Files.{Files, file_at};
ghost use Rattle.replica.specs.Scanning.{HasEmptyBase};
ghost use Rattle.outline_words.specs.Commands.{IsOrder};
ghost use Rattle.outline_words.specs.Table.{Order, command};
ghost use Rattle.outline_meaning.specs.Ledgers.{KeepsLedgers};
ghost use Rattle.outline_meaning.specs.Meaning.{Loads, Answer, command_roles, order_meaning, meaning};
ghost use Rattle.outline_meaning.specs.OfBytes.{AreOfBytes};
ghost use Rattle.outline_meaning.specs.Opened.{IsUntrimmed};
ghost use Rattle.outline_meaning.specs.Outcome.{Outcome, edited, acknowledged, delivered};
ghost use Rattle.outline_meaning.specs.Run.{AreOf, with_store};
ghost use Rattle.outline_meaning.specs.declared.status.Status.{Status as TheStatus};

/// A file with the empty base stands for the ledger of its kept changes, where they fit one another and its waiting
/// changes wait, and for no other ledger.
pub fn untrimmed_files_stand()
    ensures stands { (f : File) → IsUntrimmed f → unfit_in f ≡ None
        → AllByRecursion (λ c. waits f.members (held f.members f.kept) c ≡ true) f.waiting → Stands f f.kept }
    ensures alone { (f : File) (h : List Change) → IsUntrimmed f → Stands f h → (h ≡ f.kept) × (unfit_in f ≡ None) }
    ensures state { (f : File) → IsUntrimmed f → state_in f ≡ replay f.kept }
{}

/// A file with the empty base has it still after an edit, an acknowledgement or a delivery.
pub fn untrimmed_files_stay_so()
    ensures edited { (f g : File) (e : Edit) (o : Outcome) → HasEmptyBase f → edited e f ≡ Ok o → o.stored ≡ Some g
        → HasEmptyBase g }
    ensures acknowledged { (f g : File) (o : Outcome) → HasEmptyBase f → acknowledged f ≡ Ok o → o.stored ≡ Some g
        → HasEmptyBase g }
    ensures delivered { (f offered g : File) (o : Outcome) → HasEmptyBase f → delivered f offered ≡ Ok o
        → o.stored ≡ Some g → HasEmptyBase g }
{}

/// Words mean one outcome over loads, and an order does.
pub fn one_is_meant()
    ensures order { (loads : Loads) (order : Order) (one other : Result Answer TheStatus)
        → order_meaning loads order one → order_meaning loads order other → one ≡ other }
    ensures words { (loads : Loads) (line : ℕ) (words : List (List ℕ)) (one other : Result Answer TheStatus)
        → meaning loads line words one → meaning loads line words other → one ≡ other }
{}

/// A command that is meant leaves files that stand for the ledgers that it makes of those before, whatever the command is.
pub fn ledgers_are_kept()
    ensures { (files : Files) (ledgers : Ledgers) (c : TheCommand) (loads : Loads) (a : Answer) → AllStand (file_at files) ledgers
        → IsOrder (command c) → AreOf files (command_roles c) loads → order_meaning loads (command c) (Ok a)
        → KeepsLedgers files (with_store a.store files) ledgers c }
{}

/// Any words mean something over loads of bytes.
pub fn some_is_meant()
    ensures { (loads : Loads) (line : ℕ) (words : List (List ℕ)) → AreOfBytes loads
        → (outcome : Result Answer TheStatus) × meaning loads line words outcome }
{}
