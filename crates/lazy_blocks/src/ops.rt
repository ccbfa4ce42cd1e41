//! The operations of a change, one by one.

ghost use Rattle.std.specs.Prelude.{◌≡◌, length};
ghost use Rattle.model.specs.Change.{IsChange, body};
ghost use Rattle.model.specs.State.{by_ids};
ghost use Rattle.op_grammar.specs.Sources.{HandsOut, work_after};

use crate::block::Block;
use op_grammar::{OpRef, OpSource, read_op, width_of};
use op_ids::OpId;
use outside::Tally;
use std::marker::Model;

/// The operations of a block that weren't handed out yet. Contracts see them as a list, each with its id.
#[derive(Debug, Drop)]
pub struct Ops<'b, 'a> {
    block: &'b Block<'a>,
    /// Their spellings.
    rest: &'a [u8],
    /// How many they are.
    count: u32,
    /// The index of the first.
    index: u32,
}

impl<'b, 'a> Model for Ops<'b, 'a> {
    ghost use Rattle.std.specs.Prelude.{List};
    ghost use Rattle.model.specs.State.{Atom};

    ghost Value = { List Atom };

    ghost use Rattle.lazy_blocks.specs.Handing.{atoms_left, AreLeft};

    ghost view = { atoms_left };

    ghost invariant = { AreLeft };
}

impl<'b, 'a> Ops<'b, 'a> {
    /// All operations of a block, whose body is given.
    pub(crate) fn new(block: &'b Block<'a>, spelled: &'a [u8]) -> Ops<'b, 'a>
        requires change { IsChange (length block.now.causes) block.now }
        requires spelled { spelled.now ≡ body block.now.operations }
        ensures { result ≡ by_ids block.now.time block.now.member 0 block.now.operations }
    {
        let count = block.head().count;
        Ops {
            block,
            rest: spelled,
            count,
            index: 0,
        }
    }
}

impl<'b, 'a> OpSource<'a> for Ops<'b, 'a> {
    ghost left = { λ ops. ops };

    fn next_op(&mut self, tally: &mut Tally) -> Option<(OpId, OpRef<'a>)> {
        if self.count == 0 {
            return None;
        }
        let head = self.block.head();
        let id = OpId {
            time: head.time,
            member: head.member,
            index: self.index,
        };
        let (op, rest) = match read_op(self.rest, head.causes.len()) {
            Ok(read) => read,
            Err(_) => unreachable!(),
        };
        self.rest = rest;
        self.count -= 1;
        self.index += width_of(&op);
        tally.tick_decoded();
        Some((id, op))
    }
}
