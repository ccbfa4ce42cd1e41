//! Changes in a row.

ghost use Rattle.std.specs.Prelude.{◌≡◌, ◌++◌, ◌∷◌, [], ◌<◌, length, OnOk, OnErr, slice_get, Some};

use crate::block::Block;
use std::alloc::{AllocError, Global};
use std::marker::Model;

/// A list of blocks, which contracts see as the list of their changes.
#[derive(Debug, Drop)]
pub struct Shelf<'a> {
    blocks: Vec<Block<'a>>,
}

impl<'a> Model for Shelf<'a> {
    ghost use Rattle.std.specs.Prelude.{List};
    ghost use Rattle.model.specs.Change.{Change};

    ghost Value = { List Change };

    ghost view = { λ s. s.blocks.items };
}

impl<'a> Shelf<'a> {
    /// No blocks.
    pub fn new(alloc: Global) -> Shelf<'a>
        ensures { result ≡ [] }
    {
        Shelf {
            blocks: Vec::new(alloc),
        }
    }

    /// Adds a block at the end. After a refusal for want of memory the shelf is as before, and the block is gone.
    pub fn push(&mut self, block: Block<'a>) -> Result<(), AllocError>
        ensures ok { OnOk result (self.new ≡ self.old ++ block.entry ∷ []) }
        ensures err { OnErr result (self.new ≡ self.old) }
    {
        self.blocks.push(block)?;
        Ok(())
    }

    /// How many blocks there are.
    pub fn len(&self) -> usize
        ensures { result ≡ length self.now }
    {
        self.blocks.len()
    }

    /// The block at this place, from 0.
    pub fn at(&self, i: usize) -> &Block<'a>
        requires { i < length self.now }
        ensures { slice_get self.now i ≡ Some result.now }
    {
        &self.blocks[i]
    }
}
