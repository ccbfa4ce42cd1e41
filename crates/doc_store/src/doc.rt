// The document.
ghost use Rattle.std.specs.Prelude.{◌≡◌, [], map, IfOk};
ghost use Rattle.std.specs.FinMap as fin;
ghost use Rattle.model.specs.State.{empty_state};
ghost use Rattle.model.specs.View.{view};
ghost use Rattle.tree_move.specs.Parents.{row_of as node_row};
ghost use Rattle.lww_map.specs.Keys.{rows_seen};
ghost use Rattle.fugue_text.specs.Texts.{text_entries};
ghost use Rattle.move_list.specs.Lists.{element_entries, place_entries};
ghost use Rattle.doc_store.specs.Documents.{Forgets, IsDocument};
ghost use Rattle.doc_store.specs.Kept.{state_of};
ghost use Rattle.fugue_tree.specs.Trees.{place_row};
ghost use Rattle.doc_store.specs.Views.{Finds};

use crate::children::{ChildIndex, Pending, open_all};
use crate::kept_rows::KeptRows;
use crate::tables::{ElementRows, NodeRows, PlaceRows, RegisterRows, Tables, TextRows};
use crate::view::View;
use op_ids::ROOT;
use std::alloc::{AllocError, Global};
use std::marker::Model;
use tree_log::TreeLog;
use tree_move::Parents;

/// A document: the tables that a state and the operations since make, whatever the order in which they came, and the log of moves.
///
/// Contracts say what is true of it for every state and operations that it may be said to be made of (`IsDocument`).
#[derive(Drop)]
pub struct Doc<'a> {
    pub(crate) alloc: Global,
    pub(crate) rows: KeptRows<'a>,
    pub(crate) log: TreeLog,
}

impl<'a> Model for Doc<'a> {
    ghost use Rattle.doc_store.specs.Kept.{HavePositions, Kept, kept_code};

    ghost Value = { Kept };

    ghost coded = { kept_code };

    ghost view = { λ d. record { contents = d.rows; log = d.log } };

    ghost invariant = { λ d. HavePositions d.rows.positions d.log.moves };
}

impl<'a> Doc<'a> {
    /// The empty document.
    pub fn new(alloc: Global) -> Doc<'a>
        ensures { IsDocument result empty_state [] }
    {
        Doc {
            alloc,
            rows: KeptRows::new(alloc),
            log: TreeLog::from_parents(alloc, Parents::new(alloc)),
        }
    }

    /// All tables.
    pub fn tables(&self) -> Result<Tables<'a>, AllocError>
        ensures nodes { IfOk result (λ t.
            t.nodes ≡ map node_row (fin.entries (state_of self.now).nodes)) }
        ensures positions { IfOk result (λ t.
            t.positions ≡ map place_row (fin.entries (state_of self.now).positions)) }
        ensures registers { IfOk result (λ t.
            rows_seen t.registers ≡ fin.entries (state_of self.now).registers) }
        ensures texts { IfOk result (λ t.
            text_entries t.texts ≡ fin.entries (state_of self.now).texts) }
        ensures list_positions { IfOk result (λ t.
            place_entries t.list_positions ≡ fin.entries (state_of self.now).list_positions) }
        ensures elements { IfOk result (λ t.
            element_entries t.elements ≡ fin.entries (state_of self.now).elements) }
    {
        Ok(Tables {
            nodes: NodeRows::of(self.log.parents().rows()?),
            positions: PlaceRows::of(self.rows.positions.rows()?),
            registers: RegisterRows::of(self.rows.registers.rows()?),
            texts: TextRows::of(self.rows.texts.rows()?),
            list_positions: PlaceRows::of(self.rows.lists.position_rows()?),
            elements: ElementRows::of(self.rows.lists.element_rows()?),
        })
    }

    /// The nodes from the root down, each before those below it, and what each shows.
    ///
    /// A document with a node more than 2^32 - 1 deep is refused as one for which memory is wanting.
    pub fn view(&self) -> Result<View<'a>, AllocError>
        ensures { IfOk result (λ v. v ≡ view (state_of self.now)) }
    {
        let (index, count) = self.child_index()?;
        let mut nodes = Vec::new(self.alloc);
        let mut stack = Vec::new(self.alloc);
        stack.push(Pending { depth: 0, id: ROOT })?;
        while let Some(next) = stack.pop() {
            nodes.push(self.rows.view_node(next)?)?;
            if (next.depth as usize) < count {
                let children = self.rows.children(&index, next.id)?;
                open_all(next.depth, &children, &mut stack)?;
            }
        }
        Ok(View::of(nodes))
    }

    /// Forgets the operations with a time of at most this, which count as part of the state from now on. Takes no memory.
    pub fn forget_through(&mut self, time: u64)
        ensures { Forgets self.old time self.new }
    {
        self.log.drop_through(time);
    }

    // The index of children, and how many nodes there are.
    pub(crate) fn child_index(&self) -> Result<(ChildIndex, usize), AllocError>
        ensures finds { IfOk result (λ p. Finds p.0 (fin.entries (state_of self.now).nodes)) }
        ensures count { IfOk result (λ p. p.1 ≡ fin.len (state_of self.now).nodes) }
    {
        let rows = self.log.parents().rows()?;
        let index = ChildIndex::of(self.alloc, &rows)?;
        Ok((index, rows.len()))
    }
}
