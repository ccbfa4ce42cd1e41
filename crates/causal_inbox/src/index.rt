//! The kept changes, by their names.

ghost use Rattle.std.specs.Prelude.{◌≡◌, List, IfOk, Some};
ghost use Rattle.std.specs.Option.{option_map, option_copied};
ghost use Rattle.model.specs.Settle.{differs};
ghost use Rattle.model.specs.Change.{Change};
ghost use Rattle.causal_inbox.specs.Kept.{mark_seen, marked_more};

use crate::pool::name_in;
use lazy_blocks::{Block, Shelf};
use std::alloc::{AllocError, Global};
use std::collections::BTreeMap;
use std::marker::Model;

/// The bytes of the kept changes of each name, or no bytes where two of them differ.
#[derive(Drop)]
pub(crate) struct Index<'a> {
    marks: BTreeMap<(u8, u32), Option<&'a [u8]>>,
}

impl<'a> Model for Index<'a> {
    ghost use Rattle.causal_inbox.specs.Kept.{Marks};

    ghost Value = { Marks };

    ghost use Rattle.causal_inbox.specs.Inside.{marks_in};

    ghost view = { marks_in };
}

impl<'a> Index<'a> {
    ghost use Rattle.causal_inbox.specs.Kept.{AreMarks};

    /// The index of these.
    pub fn of(alloc: Global, kept: &Shelf<'a>) -> Result<Index<'a>, AllocError>
        ensures { IfOk result (λ index. AreMarks index kept.now) }
    {
        let mut marks = BTreeMap::new(alloc);
        for i in 0..kept.len() {
            let block = kept.at(i);
            let name = name_in(block);
            let mark = marked(marks.get(&name), block.bytes());
            marks.insert(name, mark)?;
        }
        Ok(Index { marks })
    }

    /// Whether a kept change has this one's name and other bytes.
    pub fn differs(&self, block: &Block<'a>) -> bool
        ensures { (kept : List Change) → AreMarks self.now kept → result ≡ differs kept block.now }
    {
        match self.marks.get(&name_in(block)) {
            Some(Some(bytes)) => block.bytes() != *bytes,
            Some(None) => true,
            None => false,
        }
    }
}

/// The bytes of a name that some changes have, if any, and one more that has these.
fn marked<'a>(before: Option<&Option<&'a [u8]>>, bytes: &'a [u8]) -> Option<&'a [u8]>
    ensures { Some (mark_seen result)
        ≡ marked_more (option_map mark_seen (option_copied before.entry)) bytes.now }
{
    let mark = match before {
        Some(mark) => *mark,
        None => return Some(bytes),
    };
    let others = mark?;
    if others == bytes { Some(others) } else { None }
}
