// The tree.
ghost use Rattle.std.specs.Prelude.{◌≡◌, ◌≢◌, ◌++◌, [], OnOk, OnErr, IfOk, IfSome, map, false, true};
ghost use Rattle.std.specs.BTreeMap as tables;
ghost use Rattle.op_ids.specs.Order.{id_cmp, id_lt, root_id};
ghost use Rattle.model.specs.Walk.{hanging, place_after, walk};
ghost use Rattle.walk_laws.specs.Insertion.{HangsWell, HeadOrRow, IsInsertionTree, Leftmost, PlacedAfter, anchor_of, is_row, with_row};
ghost use Rattle.fugue_tree.specs.Tree.{IsFirstChild, entry_of, kept_rows, row_of, tasks_of};
ghost use Rattle.fugue_tree.specs.declared.walking.Task.TheVariants.{Visit};

use crate::children::{Child, child_at, first_child};
use crate::walking::{Task, push_visits};
use op_ids::{OpId, ROOT, Side};
use std::alloc::{AllocError, Global};
use std::collections::{BTreeMap, BTreeSet};
use std::marker::Model;

/// A row of a tree: its owner, its id, what it hangs on, and on which side.
#[derive(Clone, Copy, Debug, PartialEq, Eq)]
pub struct PlaceRow {
    pub owner: OpId,
    pub id: OpId,
    pub anchor: OpId,
    pub side: Side,
}

// What a row hangs on.
#[derive(Clone, Copy)]
pub struct Anchor {
    pub on: OpId,
    pub side: Side,
}

/// The rows of an owner, each below the head or a row with a smaller id. The head is `ROOT`, and no row.
#[derive(Drop)]
pub struct Tree {
    alloc: Global,
    owner: OpId,
    rows: BTreeMap<OpId, Anchor>,
    children: BTreeSet<Child>,
}

impl Model for Tree {
    ghost use Rattle.fugue_tree.specs.Tree.{OwnedRows, owned_code, owned_rows, IsKept};

    ghost Value = { OwnedRows };

    ghost coded = { owned_code };

    ghost view = { λ t. owned_rows t.owner t.rows.entries };

    ghost invariant = { λ t. IsKept (owned_rows t.owner t.rows.entries).rows t.children };
}

impl Tree {
    /// A tree without rows.
    pub fn new(alloc: Global, owner: OpId) -> Tree
        ensures owner { result.owner ≡ owner }
        ensures rows { result.rows ≡ [] }
    {
        Tree {
            alloc,
            owner,
            rows: BTreeMap::new(alloc),
            children: BTreeSet::new(alloc),
        }
    }

    /// A tree of these rows, which stand by rising ids. Whose they are is told by `owner` alone.
    pub fn from_rows(alloc: Global, owner: OpId, rows: &[PlaceRow]) -> Result<Tree, AllocError>
        requires { IsInsertionTree (map entry_of rows.now) }
        ensures owner { IfOk result (λ t. t.owner ≡ owner) }
        ensures rows { IfOk result (λ t. t.rows ≡ map entry_of rows.now) }
    {
        let mut tree = Tree::new(alloc, owner);
        for row in rows {
            tree.add(row.id, row.anchor, row.side)?;
        }
        Ok(tree)
    }

    /// Hangs a new row on the head, there on the right, or on a row with a smaller id.
    pub fn add(&mut self, id: OpId, anchor: OpId, side: Side) -> Result<(), AllocError>
        requires fresh { is_row self.old.rows id ≡ false }
        requires no_head { id ≢ root_id }
        requires hangs { HangsWell self.old.rows id (record { on = anchor; side = side }) }
        ensures owner { self.new.owner ≡ self.old.owner }
        ensures ok { OnOk result (self.new.rows
            ≡ with_row self.old.rows id (record { on = anchor; side = side })) }
        ensures err { OnErr result (self.new.rows ≡ self.old.rows) }
        ensures tree { IsInsertionTree self.new.rows }
    {
        let child = child_at(anchor, side, id);
        self.children.insert(child)?;
        let added = self.rows.insert(id, Anchor { on: anchor, side });
        if added.is_err() {
            self.children.remove(&child);
            return Err(AllocError);
        }
        Ok(())
    }

    /// Whether there is a row with this id.
    pub fn has(&self, id: OpId) -> bool
        ensures row { result ≡ is_row self.now.rows id }
        ensures tree { IsInsertionTree self.now.rows }
    {
        self.rows.contains_key(&id)
    }

    /// Where a row hangs that is to stand directly after `left`, which is the head or a row: right of it if nothing hangs
    /// there, else left of the row that follows it. Takes no memory. A new row that is put there stands directly after `left`.
    pub fn place_after(&self, left: OpId) -> (OpId, Side)
        requires { HeadOrRow self.now.rows left }
        ensures place { let place = place_after self.now.rows left in
            result ≡ (place.on, place.side) }
        ensures after { (row : OpId) → is_row self.now.rows row ≡ false
            → id_lt result.0 row ≡ true → PlacedAfter self.now.rows left row }
    {
        match self.first(left, Side::Right) {
            Some(first) => (self.leftmost(first), Side::Left),
            None => (left, Side::Right),
        }
    }

    /// The ids of the rows in the order in which they are read: of the head and of each row first what hangs on the left,
    /// then itself, then what hangs on the right, each side by rising ids.
    pub fn walk(&self) -> Result<Vec<OpId>, AllocError>
        ensures { IfOk result (λ v. v.items ≡ walk self.now.rows) }
    {
        let mut ids = Vec::new(self.alloc);
        let mut stack = Vec::new(self.alloc);
        self.push_children(ROOT, Side::Right, &mut stack)?;
        while let Some(task) = stack.pop() {
            match task {
                Task::Visit(id) => self.push_tasks(id, &mut stack)?,
                Task::Give(id) => ids.push(id)?,
            }
        }
        ids.reverse();
        Ok(ids)
    }

    /// The rows, by rising ids.
    pub fn rows(&self) -> Result<Vec<PlaceRow>, AllocError>
        ensures rows { IfOk result (λ v. v.items ≡ map (row_of self.now.owner) self.now.rows) }
        ensures tree { IsInsertionTree self.now.rows }
    {
        rows_in(self.alloc, self.owner, &self.rows)
    }

    // The least row that hangs there.
    fn first(&self, anchor: OpId, side: Side) -> Option<OpId>
        ensures first { IsFirstChild self.now.rows anchor side result }
        ensures tree { IsInsertionTree self.now.rows }
    {
        let _ = &self.rows;
        first_child(&self.children, anchor, side)
    }

    // The row that stands first of a row and those below it.
    fn leftmost(&self, row: OpId) -> OpId
        ensures { Leftmost self.now.rows row result }
    {
        let mut at = row;
        while let Some(child) = self.first(at, Side::Left) {
            at = child;
        }
        at
    }

    // Adds the visits of the rows that hang there.
    fn push_children(
        &self,
        anchor: OpId,
        side: Side,
        stack: &mut Vec<Task>,
    ) -> Result<(), AllocError>
        ensures ok { OnOk result (stack.new.items
            ≡ stack.old.items ++ map Visit (hanging self.now.rows anchor side)) }
        ensures tree { IsInsertionTree self.now.rows }
    {
        let _ = &self.rows;
        push_visits(&self.children, anchor, side, stack)
    }

    // Adds what is to be done for a row, in the order of the walk.
    fn push_tasks(&self, id: OpId, stack: &mut Vec<Task>) -> Result<(), AllocError>
        ensures ok { OnOk result (stack.new.items ≡ stack.old.items ++ tasks_of self.now.rows id) }
        ensures tree { IsInsertionTree self.now.rows }
    {
        self.push_children(id, Side::Left, stack)?;
        stack.push(Task::Give(id))?;
        self.push_children(id, Side::Right, stack)
    }
}

// The rows in the order of their ids.
fn rows_in(
    alloc: Global,
    owner: OpId,
    rows: &BTreeMap<OpId, Anchor>,
) -> Result<Vec<PlaceRow>, AllocError>
    ensures { IfOk result (λ v. v.items ≡ map (row_of owner) (kept_rows rows.now.entries)) }
{
    let mut list = Vec::new(alloc);
    for (id, anchor) in rows {
        list.push(PlaceRow {
            owner,
            id: *id,
            anchor: anchor.on,
            side: anchor.side,
        })?;
    }
    Ok(list)
}
