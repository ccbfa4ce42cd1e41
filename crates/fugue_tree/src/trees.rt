// The trees of many owners.
ghost use Rattle.std.specs.Prelude.{◌≡◌, ◌++◌, None, OnOk, OnErr, IfOk, is_some, map, true};
ghost use Rattle.std.specs.BTreeMap as tables;
ghost use Rattle.std.specs.FinMap as fin;
ghost use Rattle.op_ids.specs.Order.{id_lt};
ghost use Rattle.model.specs.State.{row_cmp};
ghost use Rattle.model.specs.Walk.{hanging, place_after, rows_of, walk};
ghost use Rattle.walk_laws.specs.Insertion.{HeadOrRow, Leftmost, PlacedAfter};
ghost use Rattle.fugue_tree.specs.Tree.{IsFirstChild, tasks_of};
ghost use Rattle.fugue_tree.specs.Trees.{AreTrees, MayHang, kept_list, place_row};
ghost use Rattle.fugue_tree.specs.declared.walking.Task.TheVariants.{Visit};

use crate::owned::{OwnedChild, first_owned, owned_at, push_owned};
use crate::tree::{Anchor, PlaceRow};
use crate::walking::Task;
use op_ids::{OpId, ROOT, Side};
use std::alloc::{AllocError, Global};
use std::collections::{BTreeMap, BTreeSet};
use std::marker::Model;

/// The rows of many owners in one table, since most owners have few. Those of each are a tree: each hangs below the head or a row
/// of the same owner with a smaller id. The head is `ROOT`, and no row.
#[derive(Drop)]
pub struct Trees {
    alloc: Global,
    rows: BTreeMap<(OpId, OpId), Anchor>,
    children: BTreeSet<OwnedChild>,
}

impl Model for Trees {
    ghost use Rattle.fugue_tree.specs.Trees.{AreKept, Table, table_code, table_of};

    ghost Value = { Table };

    ghost coded = { table_code };

    ghost view = { λ t. table_of t.rows.entries };

    ghost invariant = { λ t. AreKept (table_of t.rows.entries) t.children };
}

impl Trees {
    /// No owner has rows.
    pub fn new(alloc: Global) -> Trees
        ensures { result ≡ fin.empty }
    {
        Trees {
            alloc,
            rows: BTreeMap::new(alloc),
            children: BTreeSet::new(alloc),
        }
    }

    /// Hangs a new row of the owner on the head, there on the right, or on a row of the owner with a smaller id.
    pub fn add(&mut self, owner: OpId, id: OpId, anchor: OpId, side: Side) -> Result<(), AllocError>
        requires { MayHang self.old owner id (record { on = anchor; side = side }) }
        ensures ok { OnOk result (self.new
            ≡ fin.insert self.old (owner, id) (record { on = anchor; side = side })) }
        ensures err { OnErr result (self.new ≡ self.old) }
        ensures trees { AreTrees self.new }
    {
        let child = owned_at(owner, anchor, side, id);
        self.children.insert(child)?;
        let added = self.rows.insert((owner, id), Anchor { on: anchor, side });
        if added.is_err() {
            self.children.remove(&child);
            return Err(AllocError);
        }
        Ok(())
    }

    /// Whether the owner has a row with this id.
    pub fn has(&self, owner: OpId, id: OpId) -> bool
        ensures row { result ≡ is_some (fin.get self.now (owner, id)) }
        ensures trees { AreTrees self.now }
    {
        self.rows.contains_key(&(owner, id))
    }

    /// Where a row hangs that is to stand directly after `left`, which is the head or a row of the owner: right of it if nothing
    /// hangs there, else left of the row that follows it. Takes no memory. A new row that is put there stands directly after
    /// `left`.
    pub fn place_after(&self, owner: OpId, left: OpId) -> (OpId, Side)
        requires { HeadOrRow (rows_of (λ at. at) self.now owner) left }
        ensures place { let place = place_after (rows_of (λ at. at) self.now owner) left in
            result ≡ (place.on, place.side) }
        ensures after { (row : OpId) → fin.get self.now (owner, row) ≡ None
            → id_lt result.0 row ≡ true → PlacedAfter (rows_of (λ at. at) self.now owner) left row }
        ensures trees { AreTrees self.now }
    {
        match self.first(owner, left, Side::Right) {
            Some(first) => (self.leftmost(owner, first), Side::Left),
            None => (left, Side::Right),
        }
    }

    /// The ids of the owner's rows in the order in which they are read, as a `Tree` of these gives them.
    pub fn walk(&self, owner: OpId) -> Result<Vec<OpId>, AllocError>
        ensures { IfOk result (λ v. v.items ≡ walk (rows_of (λ at. at) self.now owner)) }
    {
        let mut ids = Vec::new(self.alloc);
        let mut stack = Vec::new(self.alloc);
        self.push_children(owner, ROOT, Side::Right, &mut stack)?;
        while let Some(task) = stack.pop() {
            match task {
                Task::Visit(id) => self.push_tasks(owner, id, &mut stack)?,
                Task::Give(id) => ids.push(id)?,
            }
        }
        ids.reverse();
        Ok(ids)
    }

    /// The rows of all owners, by owner and id.
    pub fn rows(&self) -> Result<Vec<PlaceRow>, AllocError>
        ensures rows { IfOk result (λ v. v.items ≡ map place_row (fin.entries self.now)) }
        ensures trees { AreTrees self.now }
    {
        rows_in(self.alloc, &self.rows)
    }

    // The least row of the owner that hangs there.
    fn first(&self, owner: OpId, anchor: OpId, side: Side) -> Option<OpId>
        ensures first { IsFirstChild (rows_of (λ at. at) self.now owner) anchor side result }
        ensures trees { AreTrees self.now }
    {
        let _ = &self.rows;
        first_owned(&self.children, owner, anchor, side)
    }

    // The row that stands first of a row and those below it.
    fn leftmost(&self, owner: OpId, row: OpId) -> OpId
        ensures { Leftmost (rows_of (λ at. at) self.now owner) row result }
    {
        let mut at = row;
        while let Some(child) = self.first(owner, at, Side::Left) {
            at = child;
        }
        at
    }

    // Adds the visits of the owner's rows that hang there.
    fn push_children(
        &self,
        owner: OpId,
        anchor: OpId,
        side: Side,
        stack: &mut Vec<Task>,
    ) -> Result<(), AllocError>
        ensures ok { OnOk result (stack.new.items ≡ stack.old.items
            ++ map Visit (hanging (rows_of (λ at. at) self.now owner) anchor side)) }
        ensures trees { AreTrees self.now }
    {
        let _ = &self.rows;
        push_owned(&self.children, owner, anchor, side, stack)
    }

    // Adds what is to be done for a row, in the order of the walk.
    fn push_tasks(&self, owner: OpId, id: OpId, stack: &mut Vec<Task>) -> Result<(), AllocError>
        ensures ok { OnOk result (stack.new.items
            ≡ stack.old.items ++ tasks_of (rows_of (λ at. at) self.now owner) id) }
        ensures trees { AreTrees self.now }
    {
        self.push_children(owner, id, Side::Left, stack)?;
        stack.push(Task::Give(id))?;
        self.push_children(owner, id, Side::Right, stack)
    }
}

// The rows in the order of their keys.
fn rows_in(
    alloc: Global,
    rows: &BTreeMap<(OpId, OpId), Anchor>,
) -> Result<Vec<PlaceRow>, AllocError>
    ensures rows { IfOk result (λ v. v.items ≡ map place_row (kept_list rows.now.entries)) }
    ensures ordered { tables.IsOrdered row_cmp rows.now }
{
    let mut list = Vec::new(alloc);
    let _ = rows.len();
    for (key, anchor) in rows {
        list.push(PlaceRow {
            owner: key.0,
            id: key.1,
            anchor: anchor.on,
            side: anchor.side,
        })?;
    }
    Ok(list)
}
