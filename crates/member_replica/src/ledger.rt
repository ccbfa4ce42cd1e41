//! Ledgers in memory.

ghost use Rattle.std.specs.Prelude.{◌≡◌, IfOk, OnOk, OnErr};
ghost use Rattle.model.specs.Change.{AreInTimeOrder, change_stamp};
ghost use Rattle.model.specs.Ledger.{add};

use lazy_blocks::{Block, Shelf};
use op_ids::Stamp;
use std::alloc::{AllocError, Global};
use std::collections::BTreeMap;
use std::marker::Model;

/// Blocks of different stamps, which contracts see as the list of their changes by time and then by member.
#[derive(Drop)]
pub(crate) struct Ledger<'a> {
    blocks: BTreeMap<Stamp, Block<'a>>,
}

impl<'a> Model for Ledger<'a> {
    ghost use Rattle.std.specs.Prelude.{List};
    ghost use Rattle.model.specs.Change.{Change};

    ghost Value = { List Change };

    ghost use Rattle.member_replica.specs.Ledgers.{changes_in, IsStamped};

    ghost view = { changes_in };

    ghost invariant = { IsStamped };
}

impl<'a> Ledger<'a> {
    /// The ledger of these.
    pub fn of(alloc: Global, kept: &Shelf<'a>) -> Result<Ledger<'a>, AllocError>
        requires { AreInTimeOrder kept.now }
        ensures { IfOk result (λ ledger. ledger ≡ kept.now) }
    {
        let mut ledger = Ledger {
            blocks: BTreeMap::new(alloc),
        };
        for i in 0..kept.len() {
            ledger.add(kept.at(i).copy())?;
        }
        Ok(ledger)
    }

    /// Puts a block in its place. After a refusal for want of memory the others are as before, and it is gone.
    pub fn add(&mut self, block: Block<'a>) -> Result<(), AllocError>
        ensures ok { OnOk result (self.new ≡ add self.old block.entry) }
        ensures err { OnErr result (self.new ≡ self.old) }
    {
        let stamp = stamp_in(&block);
        self.blocks.insert(stamp, block)?;
        Ok(())
    }

    /// The blocks in a row.
    pub fn into_shelf(self, alloc: Global) -> Result<Shelf<'a>, AllocError>
        ensures { IfOk result (λ shelf. shelf ≡ self.entry) }
    {
        let Ledger { mut blocks } = self;
        let mut shelf = Shelf::new(alloc);
        while let Some((_, block)) = blocks.pop_first() {
            shelf.push(block)?;
        }
        Ok(shelf)
    }
}

/// The place of a block in the order of replay.
fn stamp_in(block: &Block<'_>) -> Stamp
    ensures { result ≡ change_stamp block.now }
{
    let head = block.head();
    Stamp {
        time: head.time,
        member: head.member,
    }
}
