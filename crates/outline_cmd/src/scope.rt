//! The commands that this version takes, and those that it doesn't.

ghost use Rattle.std.specs.Prelude.{◌≡◌, IfOk, IfErr, Ok, Err};
ghost use Rattle.std.specs.Option.{option_map};
ghost use Rattle.model.specs.Value.{Value as TheValue, null};
ghost use Rattle.doc_store.specs.Edits.{edit_of};
ghost use Rattle.outline_words.specs.Commands.{IsOrder, Says, SaysValue};
ghost use Rattle.outline_words.specs.Forms.{IsWordValue};
ghost use Rattle.outline_words.specs.Table.{Order, edited};
ghost use Rattle.outline_meaning.specs.Meaning.{roles};
ghost use Rattle.outline_meaning.specs.Scope.{untaken_names, is_one_of, taken_order, names_untaken as names_an_untaken};
ghost use Rattle.outline_input.specs.Input.{named_of};
ghost use Rattle.outline_cmd.specs.Tasks.{Does, Tells, with_value};

use crate::edit_words::EditWords;
use doc_store::Edit;
use op_grammar::Value;
use outline_input::Named;
use outline_meaning::Status;
use outline_words::{Command, WordValue, Words};
use version_vector::Vector;

/// A command that this version takes.
#[derive(Drop)]
pub(crate) enum Task<'w> {
    Found {
        document: [u8; 16],
        members: u8,
        name: &'w str,
    },
    Edit {
        name: &'w str,
        edit: EditWords<'w>,
    },
    Ack {
        name: &'w str,
    },
    Show {
        name: &'w str,
    },
    Items {
        name: &'w str,
    },
    Bundle {
        name: &'w str,
        vector: Vector,
        new_name: &'w str,
    },
    Deliver {
        name: &'w str,
        offered: &'w str,
    },
}

impl<'w> Task<'w> {
    /// The file that the command reads, or the first of two.
    pub(crate) fn input(&self) -> Option<Named<'w>>
        ensures { (order : Order) → Does self.now order → option_map named_of result ≡ (roles order).input }
    {
        match *self {
            Task::Found { .. } => None,
            Task::Edit { name, .. }
            | Task::Ack { name }
            | Task::Show { name }
            | Task::Items { name }
            | Task::Bundle { name, .. }
            | Task::Deliver { name, .. } => Some(Named { word: 1, name }),
        }
    }

    /// The second file that the command reads.
    pub(crate) fn second(&self) -> Option<Named<'w>>
        ensures { (order : Order) → Does self.now order → option_map named_of result ≡ (roles order).second }
    {
        match *self {
            Task::Deliver { offered, .. } => Some(Named {
                word: 2,
                name: offered,
            }),
            _ => None,
        }
    }

    /// The name that the command gives to a new file.
    pub(crate) fn new_name(&self) -> Option<Named<'w>>
        ensures { (order : Order) → Does self.now order → option_map named_of result ≡ (roles order).new }
    {
        match *self {
            Task::Found { name, .. } => Some(Named { word: 3, name }),
            Task::Bundle { new_name, .. } => Some(Named {
                word: 3,
                name: new_name,
            }),
            _ => None,
        }
    }
}

/// Whether the first word names a command that this version doesn't take. What follows it isn't looked at.
pub(crate) fn names_untaken(words: &Words) -> bool
    ensures { result ≡ names_an_untaken words.now }
{
    match words.get(0) {
        None => false,
        Some(word) => is_untaken(word),
    }
}

fn is_untaken(word: &str) -> bool
    ensures { result ≡ is_one_of untaken_names word.now }
{
    matches!(
        word,
        "status" | "log" | "trim" | "snapshot" | "release" | "begin" | "check" | "play" | "sample"
    )
}

/// The task of a command, or NotBuilt.
pub(crate) fn take<'w>(command: Command<'w>) -> Result<Task<'w>, Status>
    ensures ok { (order : Order) → Says command.entry order → IsOrder order → IfOk result (λ task. Does task order × (taken_order order ≡ Ok tt)) }
    ensures err { (order : Order) → Says command.entry order → IfErr result (λ status. taken_order order ≡ Err status) }
{
    // Stands in an edit for the value that a word gives.
    let value = Value::Null;
    match command {
        Command::Found { doc, n, name } => Ok(Task::Found {
            document: doc,
            members: n,
            name,
        }),
        Command::New { name, parent, i } => Ok(plain(name, Edit::New { parent, at: i })),
        Command::Move {
            name,
            child,
            parent,
            i: at,
        } => Ok(plain(name, Edit::Move { child, parent, at })),
        Command::Trash { name, child } => Ok(plain(name, Edit::Trash { child })),
        Command::Put {
            name,
            node,
            key,
            value: word,
        } => Ok(valued(name, Edit::Put { node, key, value }, word)),
        Command::Unset { name, node, key } => Ok(plain(name, Edit::Unset { node, key })),
        Command::TypeText {
            name,
            node,
            at,
            text,
        } => Ok(plain(name, Edit::TypeText { node, at, text })),
        Command::Erase {
            name,
            node,
            at,
            count,
        } => Ok(plain(name, Edit::Erase { node, at, count })),
        Command::Add {
            name,
            node,
            at,
            value: word,
        } => Ok(valued(name, Edit::Add { node, at, value }, word)),
        Command::Shift {
            name,
            node,
            from,
            to,
        } => Ok(plain(name, Edit::Shift { node, from, to })),
        Command::Set {
            name,
            node,
            at,
            value: word,
        } => Ok(valued(name, Edit::Set { node, at, value }, word)),
        Command::DropItem { name, node, at } => Ok(plain(name, Edit::Drop { node, at })),
        Command::Ack { name } => Ok(Task::Ack { name }),
        Command::Show { name } => Ok(Task::Show { name }),
        Command::Items { name } => Ok(Task::Items { name }),
        Command::Bundle {
            name,
            vector,
            out: new_name,
        } => Ok(Task::Bundle {
            name,
            vector,
            new_name,
        }),
        Command::Deliver {
            name,
            bundle: offered,
        } => Ok(Task::Deliver { name, offered }),
        Command::Status { .. }
        | Command::Log { .. }
        | Command::Trim { .. }
        | Command::Snapshot { .. }
        | Command::Release { .. }
        | Command::Begin { .. }
        | Command::Check { .. }
        | Command::Play { .. }
        | Command::Sample { .. } => Err(Status::NotBuilt { word: 0 }),
    }
}

/// The task of an edit that has no value.
fn plain<'w>(name: &'w str, edit: Edit<'w>) -> Task<'w>
    ensures { (order : Order) → order ≡ edited name.now (with_value (edit_of edit.entry) null) → Tells result order }
{
    valued(name, edit, WordValue::Plain(Value::Null))
}

/// The task of an edit with the value that a word gives.
fn valued<'w>(name: &'w str, edit: Edit<'w>, value: WordValue<'w>) -> Task<'w>
    ensures { (order : Order) (said : TheValue) → SaysValue value.entry said → IsWordValue said
        → order ≡ edited name.now (with_value (edit_of edit.entry) said) → Tells result order }
{
    Task::Edit {
        name,
        edit: EditWords { edit, value },
    }
}
