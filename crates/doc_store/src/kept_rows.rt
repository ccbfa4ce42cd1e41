// The tables of a document but that of nodes.
ghost use Rattle.std.specs.Prelude.{◌≡◌, ◌++◌, [], OnOk, IfOk};
ghost use Rattle.std.specs.FinMap as fin;
ghost use Rattle.op_grammar.specs.Operations.{operation_of};
ghost use Rattle.model.specs.State.{State, Atom, apart, empty_state};
ghost use Rattle.model.specs.View.{children, outline, view_node};
ghost use Rattle.model_laws.specs.Arrival.{contents};
ghost use Rattle.tree_log.specs.Steps.{move_by, moves_of};
ghost use Rattle.doc_store.specs.Kept.{MayBeDone};
ghost use Rattle.doc_store.specs.Shown.{node_seen};
ghost use Rattle.doc_store.specs.Views.{Finds};
ghost use Rattle.doc_store.specs.Documents.{AllMayBeDone, DecodesAll, all_late, parts_of};

use crate::children::{ChildIndex, Pending};
use crate::keys::{items_of, keys_of};
use crate::view::ViewNode;
use fugue_text::Texts;
use fugue_tree::Trees;
use lww_map::Registers;
use move_list::Lists;
use op_grammar::{OpRef, OpSource};
use op_ids::OpId;
use outside::Tally;
use std::alloc::{AllocError, Global};
use std::marker::Model;
use tree_log::TreeMove;

#[derive(Drop)]
pub struct KeptRows<'a> {
    alloc: Global,
    pub positions: Trees,
    pub registers: Registers<'a>,
    pub texts: Texts,
    pub lists: Lists,
}

impl<'a> Model for KeptRows<'a> {
    ghost use Rattle.model_laws.specs.Arrival.{Contents};
    ghost use Rattle.doc_store.specs.Kept.{contents_code, contents_of};

    ghost Value = { Contents };

    ghost coded = { contents_code };

    ghost view = { λ k. contents_of k.positions k.registers k.texts k.lists };
}

impl<'a> KeptRows<'a> {
    // Empty tables.
    pub fn new(alloc: Global) -> KeptRows<'a>
        ensures { result ≡ contents empty_state }
    {
        KeptRows {
            alloc,
            positions: Trees::new(alloc),
            registers: Registers::new(alloc),
            texts: Texts::new(alloc),
            lists: Lists::new(alloc),
        }
    }

    // Does all operations, and gives their moves. After a refusal nothing is known of the tables.
    pub fn do_all<S: OpSource<'a> + Drop>(
        &mut self,
        ops: S,
        tally: &mut Tally,
    ) -> Result<Vec<TreeMove>, AllocError>
        requires { AllMayBeDone self.old (S.left ops) }
        ensures rows { OnOk result (self.new ≡ all_late self.old (parts_of (S.left ops))) }
        ensures moves { IfOk result (λ v. v.items ≡ moves_of (S.left ops)) }
        ensures decoded { DecodesAll tally.old tally.new (S.left ops) result }
        ensures moves_stay { tally.new.moves ≡ tally.old.moves }
    {
        let mut ops = ops;
        let mut moves = Vec::new(self.alloc);
        while let Some((id, op)) = ops.next_op(tally) {
            self.do_op(id, op)?;
            if let Some(step) = move_by(id, op) {
                moves.push(step)?;
            }
        }
        Ok(moves)
    }

    // A node, and what it shows.
    pub fn view_node(&self, next: Pending) -> Result<ViewNode<'a>, AllocError>
        ensures { (s : State) → contents s ≡ self.now
            → IfOk result (λ n. node_seen n ≡ view_node (outline s) next.depth next.id) }
    {
        Ok(ViewNode {
            depth: next.depth,
            id: next.id,
            keys: keys_of(self.alloc, &self.registers, next.id)?,
            text: self.texts.text(next.id)?,
            items: items_of(self.alloc, &self.lists, next.id)?,
        })
    }

    // The children of a node, in their order.
    pub fn children(&self, index: &ChildIndex, parent: OpId) -> Result<Vec<OpId>, AllocError>
        ensures { (s : State) → contents s ≡ self.now → Finds index.now (fin.entries s.nodes)
            → IfOk result (λ v. v.items ≡ children s parent) }
    {
        let walk = self.positions.walk(parent)?;
        index.at_positions(self.alloc, parent, &walk)
    }

    // What the operation makes of the tables. After a refusal nothing is known of them.
    pub fn do_op(&mut self, id: OpId, op: OpRef<'a>) -> Result<(), AllocError>
        requires { MayBeDone self.old id (operation_of op) }
        ensures { OnOk result (self.new ≡ all_late self.old (apart id (operation_of op.entry))) }
    {
        match op {
            OpRef::NewNode {
                parent,
                anchor,
                side,
            } => self.positions.add(parent, id, anchor, side),
            OpRef::MoveNode {
                parent,
                anchor,
                side,
                ..
            } => self.positions.add(parent, id, anchor, side),
            OpRef::PutKey { node, key, value } => self.registers.write(node, key, id, value),
            OpRef::TypeText {
                node,
                anchor,
                side,
                text,
            } => self.texts.type_run(node, id, anchor, side, text),
            OpRef::EraseText { node, first, count } => {
                self.texts.erase(node, first, count);
                Ok(())
            }
            OpRef::AddItem {
                node,
                anchor,
                side,
                value,
            } => self.lists.add(node, id, anchor, side, value),
            OpRef::ShiftItem {
                node,
                element,
                anchor,
                side,
            } => self.lists.shift(node, element, id, anchor, side),
            OpRef::SetItem {
                node,
                element,
                value,
            } => self.lists.set(node, element, id, value),
            OpRef::DropItem { node, element } => {
                self.lists.drop_item(node, element);
                Ok(())
            }
        }
    }
}

// The move that an operation is, if it is one.
pub fn move_by(id: OpId, op: OpRef<'_>) -> Option<TreeMove>
    ensures { result ≡ move_by id (operation_of op.entry) }
{
    match op {
        OpRef::NewNode { parent, .. } => Some(TreeMove {
            id,
            child: id,
            parent,
        }),
        OpRef::MoveNode { child, parent, .. } => Some(TreeMove { id, child, parent }),
        _ => None,
    }
}
