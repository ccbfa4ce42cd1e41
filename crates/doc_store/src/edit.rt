//! Edits, and what is wrong with one.

ghost use Rattle.std.specs.Prelude.{◌≡◌, length};
ghost use Rattle.std.specs.Str.{chars};
ghost use Rattle.model.specs.Edit.{faulty, wrong_key, wrong_value};
ghost use Rattle.op_grammar.specs.Values.{value_of};
ghost use Rattle.doc_store.specs.Edits.{Checks, fault_of, wrong_count};
ghost use Rattle.doc_store.specs.declared.edit.PlanFault.TheVariants.{NoMemory};

use op_grammar::Value;
use op_ids::OpId;
use std::alloc::AllocError;
use std::fmt;

/// What a member does to a document. Places are counted from 0 in what is shown.
#[derive(Clone, Copy, Debug)]
pub enum Edit<'w> {
    /// Makes a child of `parent` at a place among its children.
    New {
        parent: OpId,
        at: u32,
    },
    /// Moves `child` to a place among the other children of `parent`.
    Move {
        child: OpId,
        parent: OpId,
        at: u32,
    },
    /// Moves `child` into the trash.
    Trash {
        child: OpId,
    },
    /// Puts a value under a key.
    Put {
        node: OpId,
        key: &'w str,
        value: Value<'w>,
    },
    /// Takes the value under a key away.
    Unset {
        node: OpId,
        key: &'w str,
    },
    /// Types a text before a character.
    TypeText {
        node: OpId,
        at: u32,
        text: &'w str,
    },
    /// Erases so many characters.
    Erase {
        node: OpId,
        at: u32,
        count: u32,
    },
    /// Adds an element.
    Add {
        node: OpId,
        at: u32,
        value: Value<'w>,
    },
    /// Moves an element to a place among the others.
    Shift {
        node: OpId,
        from: u32,
        to: u32,
    },
    /// Sets the value of an element.
    Set {
        node: OpId,
        at: u32,
        value: Value<'w>,
    },
    /// Drops an element.
    Drop {
        node: OpId,
        at: u32,
    },
}

/// What is wrong with an edit.
#[derive(Clone, Copy, Debug, PartialEq, Eq)]
pub enum EditFault {
    /// The node isn't in the view, or is none.
    NoNode = 1,
    /// The place is behind the last one.
    NoIndex = 2,
    /// The node would come below itself.
    Cycle = 3,
    /// Root and trash aren't moved.
    Fixed = 4,
    /// There are fewer characters.
    NoChars = 5,
    /// A key, a text or a count of nothing.
    Empty = 6,
    /// A key of more than 256 bytes, a value of more than 65,536, or more than 4,096 characters.
    TooLong = 7,
}

impl fmt::Display for EditFault {
    ghost use Rattle.std.specs.Prelude.{Some};
    ghost use Rattle.doc_store.specs.FaultText.{edit_fault_text};

    ghost output = { λ fault. Some (edit_fault_text fault) };

    fn fmt<W: fmt::Write>(&self, f: &mut fmt::Formatter<W>) -> fmt::Result {
        match self {
            EditFault::NoNode => f.write_str("NoNode"),
            EditFault::NoIndex => f.write_str("NoIndex"),
            EditFault::Cycle => f.write_str("Cycle"),
            EditFault::Fixed => f.write_str("Fixed"),
            EditFault::NoChars => f.write_str("NoChars"),
            EditFault::Empty => f.write_str("Empty"),
            EditFault::TooLong => f.write_str("TooLong"),
        }
    }
}

/// Why an edit wasn't planned.
#[derive(Clone, Copy, Debug, PartialEq, Eq)]
pub enum PlanFault {
    /// It has a fault: the first, and the word of the command line that has it.
    Edit { fault: EditFault, word: u32 },
    /// Memory ran out.
    NoMemory,
}

impl From<AllocError> for PlanFault {
    ghost from_gives = { λ _ e. e ≡ NoMemory };

    fn from(_e: AllocError) -> PlanFault {
        PlanFault::NoMemory
    }
}

// Refuses where the test holds.
pub fn refuse_if(test: bool, fault: EditFault, word: u32) -> Result<(), PlanFault>
    ensures { Checks (faulty test (fault_of fault) word) result }
{
    if test {
        return Err(PlanFault::Edit { fault, word });
    }
    Ok(())
}

// Refuses a key without bytes, or with more than 256.
pub fn check_key(key: &str) -> Result<(), PlanFault>
    ensures { Checks (wrong_key key.now) result }
{
    refuse_if(key.len() == 0, EditFault::Empty, 3)?;
    refuse_if(key.len() > 256, EditFault::TooLong, 3)
}

// Refuses a count of 0, or of more than 4,096.
pub fn check_count(count: usize) -> Result<(), PlanFault>
    ensures { Checks (wrong_count count) result }
{
    refuse_if(count == 0, EditFault::Empty, 4)?;
    refuse_if(count > 4096, EditFault::TooLong, 4)
}

// Refuses a text without characters, or with more than 4,096.
pub fn check_text(text: &str) -> Result<(), PlanFault>
    ensures { Checks (wrong_count (length (chars text.now))) result }
{
    check_count(text.chars().count())
}

// Refuses a text, or bytes, of more than 65,536 bytes.
pub fn check_value(value: Value<'_>) -> Result<(), PlanFault>
    ensures { Checks (wrong_value (value_of value.entry)) result }
{
    let len = match value {
        Value::Text(text) => text.len(),
        Value::Bytes(bytes) => bytes.len(),
        _ => 0,
    };
    refuse_if(len > 65536, EditFault::TooLong, 4)
}
