// Runs of characters.
ghost use Rattle.std.specs.Prelude.{◌≡◌, ◌+◌, ◌<◌, ◌≤◌, ◌^◌, true, OnOk, OnErr, None, length, not};
ghost use Rattle.std.proofs.Common.{get_or};
ghost use Rattle.std.proofs.Math.ListN.{set};
ghost use Rattle.std.specs.BTreeMap as tables;
ghost use Rattle.std.specs.FinMap as fin;
ghost use Rattle.op_ids.specs.Order.{id_cmp, id_plus};
ghost use Rattle.model.specs.State.{killed, right_of};
ghost use Rattle.model.specs.View.{is_live};
ghost use Rattle.fugue_tree.specs.Tree.{AreChildren};
ghost use Rattle.fugue_text.specs.Runs.{AreFilled, Continues, AreFree, IsIn, IsNext, IsNextBeside, IsSpot, dead_letter, edited, letter_at, no_letter, rows_in, run_anchor, starts, with_letters};
ghost use Rattle.fugue_text.specs.Pieces.{AreFrom};

use fugue_tree::children::{Child, child_at};
use op_ids::{OpId, Side};
use std::alloc::{AllocError, Global};
use std::collections::{BTreeMap, BTreeSet};

// A character, and whether it was erased.
#[derive(Clone, Copy)]
pub struct Letter {
    pub character: char,
    pub dead: bool,
}

// Characters whose ids follow one another, each after the first a right child of the one before, and where the first hangs.
#[derive(Drop)]
pub struct Run {
    pub anchor: OpId,
    pub side: Side,
    pub letters: Vec<Letter>,
}

// Where a row is: in the run with this first id, so many rows behind the first.
#[derive(Clone, Copy)]
pub struct Spot {
    pub first: OpId,
    pub offset: usize,
}

// Where the row is, if it is there: in the last run that begins at it or before it.
pub fn spot_of(runs: &BTreeMap<OpId, Run>, id: OpId) -> Option<Spot>
    requires rising { fin.is_sorted id_cmp (rows_in runs.now.entries) ≡ true }
    requires filled { AreFilled runs.now.entries }
    ensures spot { IsSpot runs.now.entries id result }
    ensures ordered { tables.IsOrdered id_cmp runs.now }
{
    let (first, run) = runs.range(..=id).next_back()?;
    if first.stamp() != id.stamp() {
        return None;
    }
    let offset = (id.index - first.index) as usize;
    if offset < run.letters.len() {
        Some(Spot {
            first: *first,
            offset,
        })
    } else {
        None
    }
}

// The letters of the row and of those behind it in its run, or none if it isn't there.
pub fn letters_from(runs: &BTreeMap<OpId, Run>, id: OpId) -> &[Letter]
    requires rising { fin.is_sorted id_cmp (rows_in runs.now.entries) ≡ true }
    requires filled { AreFilled runs.now.entries }
    ensures letters { AreFrom runs.now.entries id result.now }
    ensures fits { id.index + length result.now ≤ 2 ^ 32 }
{
    let Some(spot) = spot_of(runs, id) else {
        return &[];
    };
    match runs.get(&spot.first) {
        Some(run) => &run.letters.as_slice()[spot.offset..],
        None => &[],
    }
}

// The row that follows in the run, if one does.
fn next_of(runs: &BTreeMap<OpId, Run>, id: OpId) -> Option<OpId>
    requires rising { fin.is_sorted id_cmp (rows_in runs.now.entries) ≡ true }
    requires filled { AreFilled runs.now.entries }
    ensures next { IsNext runs.now.entries id result }
    ensures ordered { tables.IsOrdered id_cmp runs.now }
{
    let spot = spot_of(runs, id)?;
    let run = runs.get(&spot.first)?;
    if spot.offset + 1 < run.letters.len() {
        Some(id.plus(1))
    } else {
        None
    }
}

// The row that follows in the run of its anchor, if it hangs on this side of that.
pub fn next_beside(runs: &BTreeMap<OpId, Run>, anchor: OpId, side: Side) -> Option<OpId>
    requires rising { fin.is_sorted id_cmp (rows_in runs.now.entries) ≡ true }
    requires filled { AreFilled runs.now.entries }
    ensures next { IsNextBeside runs.now.entries anchor side result }
    ensures ordered { tables.IsOrdered id_cmp runs.now }
{
    let _ = runs.len();
    match side {
        Side::Left => None,
        Side::Right => next_of(runs, anchor),
    }
}

// A row more. It continues the run of its anchor where it is the right child with the next id, and else begins one.
pub fn add(
    alloc: Global,
    runs: &mut BTreeMap<OpId, Run>,
    children: &mut BTreeSet<Child>,
    id: OpId,
    anchor: OpId,
    side: Side,
    letter: Letter,
) -> Result<(), AllocError>
    requires fresh { fin.find id_cmp id (rows_in runs.old.entries) ≡ None }
    requires rising { fin.is_sorted id_cmp (rows_in runs.old.entries) ≡ true }
    requires filled { AreFilled runs.old.entries }
    requires index { AreChildren (starts runs.old.entries) children.old }
    ensures ok { OnOk result (rows_in runs.new.entries
        ≡ fin.put id_cmp id (letter_at (record { on = anchor; side = side }) letter) (rows_in runs.old.entries)) }
    ensures err { OnErr result (rows_in runs.new.entries ≡ rows_in runs.old.entries) }
    ensures filled { AreFilled runs.new.entries }
    ensures index { AreChildren (starts runs.new.entries) children.new }
{
    match continued(runs, id, anchor, side) {
        Some(spot) => extend(runs, spot, &[letter]),
        None => begin(alloc, runs, children, id, anchor, side, letter),
    }
}

// Where the row's anchor is, if the row continues the run of that: if it is its right child with the next id.
fn continued(runs: &BTreeMap<OpId, Run>, id: OpId, anchor: OpId, side: Side) -> Option<Spot>
    requires rising { fin.is_sorted id_cmp (rows_in runs.now.entries) ≡ true }
    requires filled { AreFilled runs.now.entries }
    ensures { Continues runs.now.entries id (record { on = anchor; side = side }) result }
{
    if matches!(side, Side::Left) || anchor.stamp() != id.stamp() || anchor.index >= id.index {
        return None;
    }
    if id.index - anchor.index == 1 {
        spot_of(runs, anchor)
    } else {
        None
    }
}

// A new run of one row.
fn begin(
    alloc: Global,
    runs: &mut BTreeMap<OpId, Run>,
    children: &mut BTreeSet<Child>,
    id: OpId,
    anchor: OpId,
    side: Side,
    letter: Letter,
) -> Result<(), AllocError>
    requires fresh { fin.find id_cmp id (rows_in runs.old.entries) ≡ None }
    requires rising { fin.is_sorted id_cmp (rows_in runs.old.entries) ≡ true }
    requires filled { AreFilled runs.old.entries }
    requires index { AreChildren (starts runs.old.entries) children.old }
    ensures ok { OnOk result (rows_in runs.new.entries
        ≡ fin.put id_cmp id (letter_at (record { on = anchor; side = side }) letter) (rows_in runs.old.entries)) }
    ensures err { OnErr result (runs.new.entries ≡ runs.old.entries) }
    ensures filled { AreFilled runs.new.entries }
    ensures index { AreChildren (starts runs.new.entries) children.new }
{
    let mut letters = Vec::new(alloc);
    letters.push(letter)?;
    let child = child_at(anchor, side, id);
    children.insert(child)?;
    let added = runs.insert(
        id,
        Run {
            anchor,
            side,
            letters,
        },
    );
    if added.is_err() {
        children.remove(&child);
        return Err(AllocError);
    }
    Ok(())
}

// Rows more in a run, behind the one at the spot, which is the last.
pub fn extend(
    runs: &mut BTreeMap<OpId, Run>,
    spot: Spot,
    letters: &[Letter],
) -> Result<(), AllocError>
    requires rising { fin.is_sorted id_cmp (rows_in runs.old.entries) ≡ true }
    requires filled { AreFilled runs.old.entries }
    requires there { IsIn runs.old.entries (id_plus spot.first spot.offset) spot.first spot.offset }
    requires fresh { fin.find id_cmp (id_plus spot.first (spot.offset + 1)) (rows_in runs.old.entries) ≡ None }
    requires free { AreFree (rows_in runs.old.entries) (id_plus spot.first (spot.offset + 1)) (length letters.now) }
    requires fits { spot.first.index + (spot.offset + 1) + length letters.now ≤ 2 ^ 32 }
    ensures ok { OnOk result (rows_in runs.new.entries
        ≡ with_letters (rows_in runs.old.entries) (id_plus spot.first (spot.offset + 1))
        (right_of (id_plus spot.first spot.offset)) letters.now) }
    ensures err { OnErr result (rows_in runs.new.entries ≡ rows_in runs.old.entries) }
    ensures filled { AreFilled runs.new.entries }
    ensures starts { starts runs.new.entries ≡ starts runs.old.entries }
{
    if let Some(run) = runs.get_mut(&spot.first) {
        run.letters.extend_from_slice(letters)?;
    }
    Ok(())
}

// Marks the row as erased, if it is there, and says whether it was alive.
pub fn kill(runs: &mut BTreeMap<OpId, Run>, id: OpId) -> bool
    requires rising { fin.is_sorted id_cmp (rows_in runs.old.entries) ≡ true }
    requires filled { AreFilled runs.old.entries }
    ensures alive { result ≡ is_live (fin.find id_cmp id (rows_in runs.old.entries)) }
    ensures rows { rows_in runs.new.entries ≡ edited (rows_in runs.old.entries) id killed }
    ensures filled { AreFilled runs.new.entries }
    ensures starts { starts runs.new.entries ≡ starts runs.old.entries }
{
    match spot_of(runs, id) {
        Some(spot) => kill_at(runs, spot),
        None => false,
    }
}

// Marks the row at the spot as erased, and says whether it was alive.
fn kill_at(runs: &mut BTreeMap<OpId, Run>, spot: Spot) -> bool
    requires rising { fin.is_sorted id_cmp (rows_in runs.old.entries) ≡ true }
    requires filled { AreFilled runs.old.entries }
    requires there { IsIn runs.old.entries (id_plus spot.first spot.offset) spot.first spot.offset }
    ensures alive { result ≡ is_live (fin.find id_cmp (id_plus spot.first spot.offset) (rows_in runs.old.entries)) }
    ensures rows { rows_in runs.new.entries
        ≡ edited (rows_in runs.old.entries) (id_plus spot.first spot.offset) killed }
    ensures filled { AreFilled runs.new.entries }
    ensures starts { starts runs.new.entries ≡ starts runs.old.entries }
{
    match runs.get_mut(&spot.first) {
        Some(run) => run.kill(spot.offset),
        None => false,
    }
}

impl Run {
    // Marks a character as erased, and says whether it was alive.
    fn kill(&mut self, offset: usize) -> bool
        requires { offset < length self.old.letters.items }
        ensures alive { result ≡ not (get_or self.old.letters.items offset no_letter).dead }
        ensures letters { self.new.letters.items
            ≡ set self.old.letters.items offset (dead_letter (get_or self.old.letters.items offset no_letter)) }
        ensures anchor { run_anchor self.new ≡ run_anchor self.old }
    {
        let letter = &mut self.letters[offset];
        let was_alive = !letter.dead;
        letter.dead = true;
        was_alive
    }
}
