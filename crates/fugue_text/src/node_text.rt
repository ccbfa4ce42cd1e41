// The text of one node.
ghost use Rattle.std.specs.Prelude.{◌≡◌, ◌≢◌, ◌+◌, ◌-◌, ◌<◌, ◌^◌, ◌++◌, [], false, true, None, OnOk, OnErr, IfOk, cond, drop, filter_map, is_some, length, string_bytes, take};
ghost use Rattle.std.specs.List.{AllByRecursion};
ghost use Rattle.std.specs.Str.{chars};
ghost use Rattle.std.specs.FinMap as fin;
ghost use Rattle.op_ids.specs.Order.{id_cmp, id_lt, id_plus, root_id};
ghost use Rattle.model.specs.State.{killed, right_of};
ghost use Rattle.model.specs.Walk.{place_after};
ghost use Rattle.walk_laws.specs.Insertion.{HangsWell, HeadOrRow, IsInsertionTree, Leftmost, PlacedAfter, is_row};
ghost use Rattle.fugue_tree.specs.Tree.{IsFirstChild};
ghost use Rattle.move_list.specs.Kept.{tagged};
ghost use Rattle.fugue_text.specs.Runs.{AreFilled, AreFree, IsFilled, character_in, edited, letter_at, live_ids, places, rows_in, rows_of_run, weight_of, with_letters};
ghost use Rattle.fugue_text.specs.Texts.{text_entries};

use crate::pieces;
use crate::run::{self, Letter, Run};
use crate::texts::TextRow;
use fugue_tree::children::{Child, first_child};
use op_ids::{OpId, Side};
use std::alloc::{AllocError, Global};
use std::collections::{BTreeMap, BTreeSet};
use std::marker::Model;

// The characters of a node in runs by their first ids, the first rows of the runs by what they hang on, and how many
// characters aren't erased.
#[derive(Drop)]
pub struct NodeText {
    alloc: Global,
    runs: BTreeMap<OpId, Run>,
    children: BTreeSet<Child>,
    live: u32,
}

impl Model for NodeText {
    ghost use Rattle.fugue_text.specs.Codes.{rows_code};
    ghost use Rattle.fugue_text.specs.Runs.{IsText, TextRows, rows_in};

    ghost Value = { TextRows };

    ghost coded = { rows_code };

    ghost view = { λ t. rows_in t.runs.entries };

    ghost invariant = { λ t. IsText t.runs.entries t.children t.live };
}

impl NodeText {
    // A text without characters.
    pub fn new(alloc: Global) -> NodeText
        ensures { result ≡ [] }
    {
        NodeText {
            alloc,
            runs: BTreeMap::new(alloc),
            children: BTreeSet::new(alloc),
            live: 0,
        }
    }

    // Whether there is a row with this id.
    pub fn has(&self, id: OpId) -> bool
        ensures { result ≡ is_some (fin.find id_cmp id self.now) }
    {
        run::spot_of(&self.runs, id).is_some()
    }

    // How many characters aren't erased.
    pub fn live(&self) -> u32
        ensures { result ≡ length (live_ids self.now) }
    {
        let _ = self.runs.len();
        self.live
    }

    // A character more.
    pub fn add(
        &mut self,
        id: OpId,
        anchor: OpId,
        side: Side,
        letter: Letter,
    ) -> Result<(), AllocError>
        requires fresh { fin.find id_cmp id self.old ≡ None }
        requires no_head { id ≢ root_id }
        requires hangs { HangsWell (places self.old) id (record { on = anchor; side = side }) }
        ensures ok { OnOk result (self.new
            ≡ fin.put id_cmp id (letter_at (record { on = anchor; side = side }) letter) self.old) }
        ensures err { OnErr result (self.new ≡ self.old) }
        ensures tree { IsInsertionTree (places self.new) }
    {
        let live = live_with(self.live, letter)?;
        run::add(
            self.alloc,
            &mut self.runs,
            &mut self.children,
            id,
            anchor,
            side,
            letter,
        )?;
        self.live = live;
        Ok(())
    }

    // Characters more behind the last one of a run, each right of the one before.
    pub fn type_behind(&mut self, id: OpId, letters: &[Letter]) -> Result<(), AllocError>
        requires there { is_some (fin.find id_cmp id self.old) ≡ true }
        requires fresh { fin.find id_cmp (id_plus id 1) self.old ≡ None }
        requires free { AreFree self.old (id_plus id 1) (length letters.now) }
        requires alive { AllByRecursion (λ l. l.dead ≡ false) letters.now }
        requires fits { id.index + length letters.now < 2 ^ 32 }
        ensures ok { OnOk result (self.new ≡ with_letters self.old (id_plus id 1) (right_of id) letters.now) }
        ensures err { OnErr result (self.new ≡ self.old) }
        ensures tree { IsInsertionTree (places self.new) }
    {
        let live = live_with_more(self.live, letters.len() as u32)?;
        if let Some(spot) = run::spot_of(&self.runs, id) {
            run::extend(&mut self.runs, spot, letters)?;
            self.live = live;
        }
        Ok(())
    }

    // Erases the character, if it is there.
    pub fn kill(&mut self, id: OpId)
        ensures now { self.new ≡ edited self.old id killed }
        ensures tree { IsInsertionTree (places self.new) }
    {
        let was_alive = run::kill(&mut self.runs, id);
        let live = live_without(self.live, was_alive);
        self.live = live;
    }

    // Where a row hangs that is to stand directly after `left`.
    pub fn place_after(&self, left: OpId) -> (OpId, Side)
        requires { HeadOrRow (places self.now) left }
        ensures place { let place = place_after (places self.now) left in
            result ≡ (place.on, place.side) }
        ensures after { (row : OpId) → is_row (places self.now) row ≡ false
            → id_lt result.0 row ≡ true → PlacedAfter (places self.now) left row }
    {
        match self.first(left, Side::Right) {
            Some(first) => (self.leftmost(first), Side::Left),
            None => (left, Side::Right),
        }
    }

    // The ids of the characters that aren't erased, in the order of the walk: so many from this place on.
    pub fn ids_from(&self, at: u32, count: u32) -> Result<Vec<OpId>, AllocError>
        ensures { IfOk result (λ v. v.items ≡ take count (drop at (live_ids self.now))) }
    {
        let pieces = pieces::pieces_of(self.alloc, &self.runs, &self.children)?;
        pieces::ids_from(self.alloc, &self.runs, pieces.as_slice(), at, count)
    }

    // The characters that aren't erased, in the order of the walk.
    pub fn text(&self) -> Result<String, AllocError>
        ensures { IfOk result (λ t. chars (string_bytes t) ≡ filter_map (character_in self.now) (live_ids self.now)) }
    {
        let pieces = pieces::pieces_of(self.alloc, &self.runs, &self.children)?;
        pieces::text_of(self.alloc, &self.runs, pieces.as_slice())
    }

    // Adds the rows behind the others.
    pub fn push_rows(&self, node: OpId, rows: &mut Vec<TextRow>) -> Result<(), AllocError>
        ensures { OnOk result (text_entries rows.new.items ≡ text_entries rows.old.items ++ tagged node self.now) }
    {
        push_runs(&self.runs, node, rows)
    }

    // The least row that hangs there.
    fn first(&self, anchor: OpId, side: Side) -> Option<OpId>
        ensures first { IsFirstChild (places self.now) anchor side result }
        ensures tree { IsInsertionTree (places self.now) }
    {
        match run::next_beside(&self.runs, anchor, side) {
            Some(next) => Some(next),
            None => first_child(&self.children, anchor, side),
        }
    }

    // The row that stands first of a row and those below it.
    fn leftmost(&self, row: OpId) -> OpId
        ensures { Leftmost (places self.now) row result }
    {
        let mut at = row;
        while let Some(child) = self.first(at, Side::Left) {
            at = child;
        }
        at
    }
}

// How many are alive with one character more.
fn live_with(live: u32, letter: Letter) -> Result<u32, AllocError>
    ensures { IfOk result (λ n. n ≡ live + weight_of letter.dead) }
{
    if letter.dead {
        Ok(live)
    } else {
        live_with_more(live, 1)
    }
}

// How many are alive with so many more.
fn live_with_more(live: u32, count: u32) -> Result<u32, AllocError>
    ensures { IfOk result (λ n. n ≡ live + count) }
{
    live.checked_add(count).ok_or(AllocError)
}

// How many are alive with one fewer, if it was alive.
fn live_without(live: u32, was_alive: bool) -> u32
    ensures { result ≡ live - cond was_alive 1 0 }
{
    if was_alive {
        live.saturating_sub(1)
    } else {
        live
    }
}

// Adds the rows of each run behind the others.
fn push_runs(
    runs: &BTreeMap<OpId, Run>,
    node: OpId,
    rows: &mut Vec<TextRow>,
) -> Result<(), AllocError>
    requires { AreFilled runs.now.entries }
    ensures { OnOk result (text_entries rows.new.items
        ≡ text_entries rows.old.items ++ tagged node (rows_in runs.now.entries)) }
{
    for (first, run) in runs {
        push_run(*first, run, node, rows)?;
    }
    Ok(())
}

// Adds the rows of the run behind the others.
fn push_run(first: OpId, run: &Run, node: OpId, rows: &mut Vec<TextRow>) -> Result<(), AllocError>
    requires { IsFilled (first, run.now) }
    ensures { OnOk result (text_entries rows.new.items
        ≡ text_entries rows.old.items ++ tagged node (rows_of_run (first, run.now))) }
{
    let mut anchor = run.anchor;
    let mut side = run.side;
    let mut count = 0usize;
    let letters = run.letters.as_slice();
    for letter in letters {
        let id = first.plus(count as u32);
        rows.push(TextRow {
            node,
            id,
            anchor,
            side,
            character: letter.character,
            dead: letter.dead,
        })?;
        anchor = id;
        side = Side::Right;
        count += 1;
    }
    Ok(())
}
