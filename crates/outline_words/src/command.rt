//! Commands, as their words give them.

use op_grammar::Value;
use op_ids::OpId;
use version_vector::Vector;

/// The word of a value.
#[derive(Clone, Copy, Debug)]
pub enum WordValue<'w> {
    /// A value but bytes.
    Plain(Value<'w>),
    /// The lower-case hexadecimal digits of bytes, two for each, that stand behind the `#`.
    Digits(&'w str),
}

/// A command with what its words say.
///
/// `name` is the file that the command reads or makes. Places are counted from 0 in what is shown.
#[derive(Debug, Drop)]
pub enum Command<'w> {
    /// Makes the first file of a document of `n` members, which holds all of them.
    Found {
        doc: [u8; 16],
        n: u8,
        name: &'w str,
    },
    /// Makes a node, the child of `parent` at the place `i`.
    New {
        name: &'w str,
        parent: OpId,
        i: u32,
    },
    /// Moves `child` below `parent`, to the place `i` among its other children.
    Move {
        name: &'w str,
        child: OpId,
        parent: OpId,
        i: u32,
    },
    /// Moves `child` into the trash.
    Trash {
        name: &'w str,
        child: OpId,
    },
    /// Puts a value under a key of a node.
    Put {
        name: &'w str,
        node: OpId,
        key: &'w str,
        value: WordValue<'w>,
    },
    /// Takes the value under a key of a node away.
    Unset {
        name: &'w str,
        node: OpId,
        key: &'w str,
    },
    /// Types a text before the character at `at` of a node's text.
    TypeText {
        name: &'w str,
        node: OpId,
        at: u32,
        text: &'w str,
    },
    /// Erases `count` characters of a node's text from `at` on.
    Erase {
        name: &'w str,
        node: OpId,
        at: u32,
        count: u32,
    },
    /// Adds an element at `at` of a node's list.
    Add {
        name: &'w str,
        node: OpId,
        at: u32,
        value: WordValue<'w>,
    },
    /// Moves the element at `from` of a node's list to the place `to` among the others.
    Shift {
        name: &'w str,
        node: OpId,
        from: u32,
        to: u32,
    },
    /// Gives the element at `at` of a node's list a value.
    Set {
        name: &'w str,
        node: OpId,
        at: u32,
        value: WordValue<'w>,
    },
    /// Drops the element at `at` of a node's list.
    DropItem {
        name: &'w str,
        node: OpId,
        at: u32,
    },
    /// Makes a change without operations by each member that the file holds.
    Ack {
        name: &'w str,
    },
    /// Shows the document.
    Show {
        name: &'w str,
    },
    /// Tells what the file holds.
    Status {
        name: &'w str,
    },
    /// Lists the changes of the file.
    Log {
        name: &'w str,
    },
    /// Makes a bundle of the changes past the counts of a vector.
    Bundle {
        name: &'w str,
        vector: Vector,
        out: &'w str,
    },
    /// Takes the changes of a bundle.
    Deliver {
        name: &'w str,
        bundle: &'w str,
    },
    /// Drops the changes that every member has.
    Trim {
        name: &'w str,
    },
    /// Makes a snapshot of the file.
    Snapshot {
        name: &'w str,
        out: &'w str,
    },
    /// Gives a member up, which the file then holds no longer.
    Release {
        name: &'w str,
        member: u8,
    },
    /// Makes a member's file from the file `source`.
    Begin {
        source: &'w str,
        member: u8,
        name: &'w str,
    },
    /// Tells whether the file is one.
    Check {
        name: &'w str,
    },
    /// Prints the items of a file.
    Items {
        name: &'w str,
    },
    /// Runs a script.
    Play {
        name: &'w str,
    },
    /// Makes a sample of `size` rounds, drawn from `seed`.
    Sample {
        seed: u64,
        size: u32,
        name: &'w str,
    },
}

/// The first wrong word of words that are no command, from 0.
#[derive(Clone, Copy, Debug, PartialEq, Eq)]
pub struct WordFault {
    pub word: u32,
}
