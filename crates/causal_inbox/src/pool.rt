//! The changes that wait, by their names.

ghost use Rattle.std.specs.Prelude.{◌≡◌, ◌++◌, [], length, OnOk, OnErr, IfNone, None};
ghost use Rattle.std.specs.List.{find};
ghost use Rattle.std.specs.Option.{option_copied, option_to_list};
ghost use Rattle.model.specs.Change.{has_name, name_of, placed};
ghost use Rattle.model.specs.Settle.{name_before};
ghost use Rattle.causal_inbox.specs.Names.{key_of, name_by, NamesRise, others};

use lazy_blocks::Block;
use std::alloc::{AllocError, Global};
use std::collections::BTreeMap;
use std::marker::Model;

/// Blocks of different names, which contracts see as the list of their changes by name.
#[derive(Drop)]
pub(crate) struct Pool<'a> {
    blocks: BTreeMap<(u8, u32), Block<'a>>,
}

impl<'a> Model for Pool<'a> {
    ghost use Rattle.std.specs.Prelude.{List};
    ghost use Rattle.model.specs.Change.{Change};

    ghost Value = { List Change };

    ghost use Rattle.causal_inbox.specs.Inside.{changes_in, IsKeyed};

    ghost view = { changes_in };

    ghost invariant = { IsKeyed };
}

/// The name of a block: its member and its number.
pub(crate) fn name_in(block: &Block<'_>) -> (u8, u32)
    ensures { result ≡ key_of block.now }
{
    let head = block.head();
    (head.member, head.number)
}

impl<'a> Pool<'a> {
    /// No blocks.
    pub fn new(alloc: Global) -> Pool<'a>
        ensures { result ≡ [] }
    {
        Pool {
            blocks: BTreeMap::new(alloc),
        }
    }

    /// How many blocks there are.
    pub fn len(&self) -> usize
        ensures value { result ≡ length self.now }
        ensures rise { NamesRise self.now }
    {
        self.blocks.len()
    }

    /// The block of this name.
    pub fn find(&self, name: (u8, u32)) -> Option<&Block<'a>>
        ensures found { option_copied result ≡ find (has_name (name_by name)) self.now }
        ensures rise { NamesRise self.now }
    {
        let _ = self.blocks.len();
        self.blocks.get(&name)
    }

    /// Takes a block of a new name up. After a refusal for want of memory the others are as before, and it is gone.
    pub fn insert(&mut self, block: Block<'a>) -> Result<(), AllocError>
        requires { find (has_name (name_of block)) self.old ≡ None }
        ensures ok { OnOk result (self.new ≡ placed name_before block.entry self.old) }
        ensures err { OnErr result (self.new ≡ self.old) }
    {
        let name = name_in(&block);
        self.blocks.insert(name, block)?;
        Ok(())
    }

    /// Takes the block of this name out.
    pub fn remove(&mut self, name: (u8, u32)) -> Option<Block<'a>>
        ensures taken { result ≡ find (has_name (name_by name)) self.old }
        ensures others { self.new ≡ others name self.old }
    {
        let _ = self.blocks.len();
        self.blocks.remove(&name)
    }

    /// Takes the first block out.
    pub fn pop_first(&mut self) -> Option<Block<'a>>
        ensures first { self.old ≡ option_to_list result ++ self.new }
        ensures none { IfNone result (self.old ≡ []) }
    {
        match self.blocks.pop_first() {
            Some((_, block)) => Some(block),
            None => None,
        }
    }
}
