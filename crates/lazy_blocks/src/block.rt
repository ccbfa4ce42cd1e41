//! One change.

ghost use Rattle.std.specs.Prelude.{◌≡◌, ◌<◌, ◌≤◌, length, IfOk, IfErr, IfSome, None};
ghost use Rattle.cbor_det.specs.Item.{Item, IsSpelled, spell};
ghost use Rattle.cbor_det.specs.Unread.{unread, Took};
ghost use Rattle.model.specs.Change.{IsChange, change_item};
ghost use Rattle.model.specs.Rules.{BreaksFirst, KeepsChange, change_rules};
ghost use Rattle.model.specs.State.{by_ids};
ghost use Rattle.op_grammar.specs.Rules.{rule_of};
ghost use Rattle.op_grammar.specs.Changes.{head_of, StandsNoChange};

use crate::ops::Ops;
use cbor_det::Cursor;
use op_grammar::{Head, Rule, read_change, take_change};
use std::alloc::Global;
use std::marker::Model;

/// A change that was checked: its head, and the bytes that spell it, lent. Contracts see it as the change.
#[derive(Debug, Drop)]
pub struct Block<'a> {
    head: Head,
    span: &'a [u8],
    body: &'a [u8],
}

impl<'a> Model for Block<'a> {
    ghost use Rattle.model.specs.Change.{Change};

    ghost Value = { Change };

    ghost use Rattle.lazy_blocks.specs.Blocks.{change_by, IsBlock};

    ghost view = { change_by };

    ghost invariant = { IsBlock };
}

impl<'a> Block<'a> {
    /// The change that the span spells, of a document of n members, or the first rule that its item breaks. The
    /// allocator is for the causes, which take no memory.
    pub fn check(alloc: Global, span: &'a [u8], n: u8) -> Result<Block<'a>, Rule>
        requires some { 0 < n }
        requires few { n ≤ 32 }
        requires item { (x : Item) × IsSpelled x × (span.now ≡ spell x) }
        ensures ok { IfOk result (λ block. (span.now ≡ spell (change_item block)) × IsChange n block) }
        ensures err { IfErr result (λ rule. (x : Item) → IsSpelled x → span.now ≡ spell x
            → BreaksFirst (KeepsChange n) change_rules x (rule_of rule)) }
    {
        let (head, body) = read_change(alloc, span, n)?;
        Ok(Block { head, span, body })
    }

    /// The change of a document of n members that stands at the cursor, which goes just past it; the bytes are gone over
    /// once. Where no such change stands there the cursor stays. The allocator is for the causes, which take no memory.
    pub fn take(alloc: Global, cursor: &mut Cursor<'a>, n: u8) -> Option<Block<'a>>
        requires some { 0 < n }
        requires few { n ≤ 32 }
        ensures found { IfSome result (λ block. IsChange n block
            × Took (spell (change_item block)) (unread cursor.old) (unread cursor.new)) }
        ensures none { result ≡ None → StandsNoChange n (unread cursor.old) }
        ensures len { (unread cursor.new).len ≡ (unread cursor.old).len }
        ensures kept { result ≡ None → unread cursor.new ≡ unread cursor.old }
    {
        let taken = take_change(alloc, cursor, n)?;
        Some(Block {
            head: taken.head,
            span: taken.span,
            body: taken.body,
        })
    }

    /// What it says but for its operations.
    pub fn head(&self) -> &Head
        ensures { result.now ≡ head_of self.now }
    {
        &self.head
    }

    /// How many members its document has.
    pub fn members(&self) -> u8
        ensures value { result ≡ length self.now.causes }
        ensures change { IsChange (length self.now.causes) self.now }
    {
        self.head.causes.len()
    }

    /// The very bytes that were checked.
    pub fn bytes(&self) -> &'a [u8]
        ensures { result.now ≡ spell (change_item self.now) }
    {
        self.span
    }

    /// Its operations, to be handed out from the first on.
    pub fn ops(&self) -> Ops<'_, 'a>
        ensures { result ≡ by_ids self.now.time self.now.member 0 self.now.operations }
    {
        Ops::new(self, self.body)
    }

    /// The same change, of the same bytes.
    pub fn copy(&self) -> Block<'a>
        ensures { result ≡ self.now }
    {
        let head = Head {
            member: self.head.member,
            number: self.head.number,
            time: self.head.time,
            causes: self.head.causes.copy(),
            count: self.head.count,
            width: self.head.width,
        };
        Block {
            head,
            span: self.span,
            body: self.body,
        }
    }
}
