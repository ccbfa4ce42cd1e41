//! The operations of changes.

ghost use Rattle.std.specs.Prelude.{◌≡◌, ◌++◌, ◌∷◌, [], ◌<◌, ◌-◌, ◌^◌, length, min, OnOk, OnErr, slice_get, Some};
ghost use Rattle.std.specs.List.{AllByRecursion};
ghost use Rattle.std.specs.Char.{IsScalar};
ghost use Rattle.std.specs.Str.{chars};
ghost use Rattle.model.specs.Operation as model;
ghost use Rattle.op_grammar.specs.Operations.{operation_of};

use crate::value::Value;
use op_ids::{OpId, Side};
use std::alloc::{AllocError, Global};
use std::marker::Model;

/// What a change does, its texts and bytes lent. Ids name nodes, or rows of the tables of a node; an anchor is
/// the row that a new row hangs on, at that side.
#[derive(Clone, Copy, Debug)]
pub enum OpRef<'a> {
    /// Makes a node below the parent.
    NewNode {
        parent: OpId,
        anchor: OpId,
        side: Side,
    },
    /// Moves a node below another parent, or to another place below its own.
    MoveNode {
        child: OpId,
        parent: OpId,
        anchor: OpId,
        side: Side,
    },
    /// Puts a value under a key.
    PutKey {
        node: OpId,
        key: &'a str,
        value: Value<'a>,
    },
    /// Types characters.
    TypeText {
        node: OpId,
        anchor: OpId,
        side: Side,
        text: &'a str,
    },
    /// Erases so many characters, whose ids follow one another.
    EraseText {
        node: OpId,
        first: OpId,
        count: u32,
    },
    /// Adds an element.
    AddItem {
        node: OpId,
        anchor: OpId,
        side: Side,
        value: Value<'a>,
    },
    /// Moves an element.
    ShiftItem {
        node: OpId,
        element: OpId,
        anchor: OpId,
        side: Side,
    },
    /// Sets the value of an element.
    SetItem {
        node: OpId,
        element: OpId,
        value: Value<'a>,
    },
    /// Drops an element.
    DropItem {
        node: OpId,
        element: OpId,
    },
}

/// How many ids an operation takes: as many as it types characters, and else one. 2^32 - 1 stands for any greater number.
pub fn width_of(op: &OpRef<'_>) -> u32
    ensures { result ≡ min (model.width_of (operation_of op.now)) (2 ^ 32 - 1) }
{
    match op {
        OpRef::TypeText { text, .. } => u32::try_from(char_count(text)).unwrap_or(u32::MAX),
        _ => 1,
    }
}

/// How many characters a text has.
pub(crate) fn char_count(text: &str) -> usize
    ensures value { result ≡ length (chars text.now) }
    ensures fits { AllByRecursion IsScalar (chars text.now) }
{
    text.chars().count()
}

/// The operations of a change that is to be made, in their order.
#[derive(Debug, Drop)]
pub struct OpPlan<'w> {
    ops: Vec<OpRef<'w>>,
}

impl<'w> Model for OpPlan<'w> {
    ghost use Rattle.std.specs.Prelude.{List};
    ghost use Rattle.op_grammar.specs.declared.operation.OpRef.{OpRef};

    ghost Value = { List OpRef };

    ghost view = { λ p. p.ops.items };
}

impl<'w> OpPlan<'w> {
    /// No operations.
    pub fn new(alloc: Global) -> OpPlan<'w>
        ensures { result ≡ [] }
    {
        OpPlan {
            ops: Vec::new(alloc),
        }
    }

    /// Adds an operation at the end. After a refusal for want of memory the plan is as before.
    pub fn push(&mut self, op: OpRef<'w>) -> Result<(), AllocError>
        ensures ok { OnOk result (self.new ≡ self.old ++ op.entry ∷ []) }
        ensures err { OnErr result (self.new ≡ self.old) }
    {
        self.ops.push(op)?;
        Ok(())
    }

    /// How many operations there are.
    pub fn len(&self) -> usize
        ensures { result ≡ length self.now }
    {
        self.ops.len()
    }

    /// The operations.
    pub(crate) fn as_slice(&self) -> &[OpRef<'w>]
        ensures { result.now ≡ self.now }
    {
        self.ops.as_slice()
    }

    /// The operation at this place, from 0.
    pub fn at(&self, i: usize) -> &OpRef<'w>
        requires { i < length self.now }
        ensures { slice_get self.now i ≡ Some result.now }
    {
        &self.ops[i]
    }
}
