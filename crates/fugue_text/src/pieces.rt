// A text read in pieces of its runs.
ghost use Rattle.std.specs.Prelude.{◌≡◌, ◌+◌, ◌<◌, ◌≤◌, ◌^◌, ◌++◌, ◌∷◌, [], true, drop, filter, filter_map, length, map, option_to_list, string_bytes, take, IfOk, OnOk, List};
ghost use Rattle.std.specs.List.{AllByRecursion};
ghost use Rattle.std.specs.Str.{chars};
ghost use Rattle.std.specs.BTreeMap as tables;
ghost use Rattle.std.specs.BTreeSet as sets;
ghost use Rattle.std.specs.FinMap as fin;
ghost use Rattle.op_ids.specs.Order.{id_cmp};
ghost use Rattle.op_ids.specs.declared.OpId.{OpId};
ghost use Rattle.model.specs.View.{is_live};
ghost use Rattle.model.specs.Walk.{hanging, walk};
ghost use Rattle.walk_laws.specs.Insertion.{IsInsertionTree};
ghost use Rattle.fugue_tree.specs.Tree.{AreChildren, child_cmp, children_at};
ghost use Rattle.fugue_text.specs.Runs.{AreFilled, character_in, places, rows_in, starts};
ghost use Rattle.fugue_text.specs.Pieces.{AreLettersOf, IsBare, IsFree, IsPiece, IsVisited, alive_characters, alive_ids, ids_in, piece_steps, still_in};
ghost use Rattle.fugue_text.specs.declared.pieces.Step.TheVariants.{Visit};

use crate::run::{self, Letter, Run};
use fugue_tree::children::{Child, child_at};
use op_ids::{OpId, ROOT, Side};
use std::alloc::{AllocError, Global};
use std::collections::{BTreeMap, BTreeSet};

// Rows of a run whose ids follow one another: the first one's id, and how many.
#[derive(Clone, Copy)]
pub struct Piece {
    pub id: OpId,
    pub count: u32,
}

// To walk a row with those below it, or to give out a piece alone.
#[derive(Clone, Copy)]
pub enum Step {
    Visit(OpId),
    Give(Piece),
}

// The ids that are still to be taken of a list that is read: so many are skipped, and so many taken behind them.
#[derive(Drop)]
pub struct Window {
    skip: u32,
    left: u32,
    ids: Vec<OpId>,
}

// The rows in the order in which they are read.
pub fn pieces_of(
    alloc: Global,
    runs: &BTreeMap<OpId, Run>,
    children: &BTreeSet<Child>,
) -> Result<Vec<Piece>, AllocError>
    requires tree { IsInsertionTree (places (rows_in runs.now.entries)) }
    requires filled { AreFilled runs.now.entries }
    requires index { AreChildren (starts runs.now.entries) children.now }
    ensures walk { IfOk result (λ v. ids_in v.items ≡ walk (places (rows_in runs.now.entries))) }
    ensures pieces { IfOk result (λ v. AllByRecursion (IsPiece runs.now.entries) v.items) }
{
    let mut pieces = Vec::new(alloc);
    let mut stack = Vec::new(alloc);
    push_hanging(runs, children, ROOT, Side::Right, &mut stack)?;
    while let Some(step) = stack.pop() {
        match step {
            Step::Visit(id) => push_steps(runs, children, id, &mut stack)?,
            Step::Give(piece) => pieces.push(piece)?,
        }
    }
    pieces.reverse();
    Ok(pieces)
}

// The characters of the pieces that aren't erased.
pub fn text_of(
    alloc: Global,
    runs: &BTreeMap<OpId, Run>,
    pieces: &[Piece],
) -> Result<String, AllocError>
    requires rising { fin.is_sorted id_cmp (rows_in runs.now.entries) ≡ true }
    requires filled { AreFilled runs.now.entries }
    requires pieces { AllByRecursion (IsPiece runs.now.entries) pieces.now }
    ensures { IfOk result (λ t. chars (string_bytes t) ≡ filter_map (character_in (rows_in runs.now.entries))
        (filter (λ id. is_live (fin.find id_cmp id (rows_in runs.now.entries))) (ids_in pieces.now))) }
{
    let mut text = String::new(alloc);
    for piece in pieces {
        push_alive(letters_of(runs, *piece), &mut text)?;
    }
    Ok(text)
}

// Of the rows of the pieces that aren't erased so many from the one at this place on.
pub fn ids_from(
    alloc: Global,
    runs: &BTreeMap<OpId, Run>,
    pieces: &[Piece],
    at: u32,
    count: u32,
) -> Result<Vec<OpId>, AllocError>
    requires rising { fin.is_sorted id_cmp (rows_in runs.now.entries) ≡ true }
    requires filled { AreFilled runs.now.entries }
    requires pieces { AllByRecursion (IsPiece runs.now.entries) pieces.now }
    ensures { IfOk result (λ v. v.items ≡ take count (drop at
        (filter (λ id. is_live (fin.find id_cmp id (rows_in runs.now.entries))) (ids_in pieces.now)))) }
{
    let mut window = Window {
        skip: at,
        left: count,
        ids: Vec::new(alloc),
    };
    for piece in pieces {
        if window.left == 0 {
            break;
        }
        window.read(piece.id, letters_of(runs, *piece))?;
    }
    Ok(window.ids)
}

impl Window {
    // Reads those of the rows that aren't erased.
    fn read(&mut self, first: OpId, letters: &[Letter]) -> Result<(), AllocError>
        requires { first.index + length letters.now ≤ 2 ^ 32 }
        ensures { OnOk result ((rest : List OpId)
            → still_in self.new rest ≡ still_in self.old (alive_ids first letters.now ++ rest)) }
    {
        let mut count = 0usize;
        for letter in letters {
            self.pass(first.plus(count as u32), *letter)?;
            count += 1;
        }
        Ok(())
    }

    // Reads the row, unless it is erased.
    fn pass(&mut self, id: OpId, letter: Letter) -> Result<(), AllocError>
        ensures { OnOk result ((rest : List OpId)
            → still_in self.new rest ≡ still_in self.old (alive_ids id (letter ∷ []) ++ rest)) }
    {
        if letter.dead {
            return Ok(());
        }
        if self.skip > 0 {
            self.skip -= 1;
        } else if self.left > 0 {
            self.ids.push(id)?;
            self.left -= 1;
        }
        Ok(())
    }
}

// Adds the characters that aren't erased.
fn push_alive(letters: &[Letter], text: &mut String) -> Result<(), AllocError>
    ensures { OnOk result (chars (string_bytes text.new)
        ≡ chars (string_bytes text.old) ++ alive_characters letters.now) }
{
    for letter in letters {
        push_letter(*letter, text)?;
    }
    Ok(())
}

// Adds the character, unless it is erased.
fn push_letter(letter: Letter, text: &mut String) -> Result<(), AllocError>
    ensures { OnOk result (chars (string_bytes text.new)
        ≡ chars (string_bytes text.old) ++ alive_characters (letter ∷ [])) }
{
    if letter.dead {
        return Ok(());
    }
    text.push(letter.character)?;
    Ok(())
}

// The letters of the piece.
fn letters_of(runs: &BTreeMap<OpId, Run>, piece: Piece) -> &[Letter]
    requires rising { fin.is_sorted id_cmp (rows_in runs.now.entries) ≡ true }
    requires filled { AreFilled runs.now.entries }
    requires piece { IsPiece runs.now.entries piece }
    ensures letters { AreLettersOf runs.now.entries piece result.now }
    ensures fits { piece.id.index + length result.now ≤ 2 ^ 32 }
{
    let rest = run::letters_from(runs, piece.id);
    let count = rest.len().min(piece.count as usize);
    &rest[..count]
}

// Adds what is to be done for a row, in the order of the walk: the rows from it on that the walk reads one after the other,
// as a piece, and then what hangs on the row behind them and that row.
fn push_steps(
    runs: &BTreeMap<OpId, Run>,
    children: &BTreeSet<Child>,
    id: OpId,
    stack: &mut Vec<Step>,
) -> Result<(), AllocError>
    requires tree { IsInsertionTree (places (rows_in runs.now.entries)) }
    requires filled { AreFilled runs.now.entries }
    requires index { AreChildren (starts runs.now.entries) children.now }
    ensures { OnOk result (IsVisited runs.now.entries id stack.old.items stack.new.items) }
{
    let count = free_rows(runs, children, id);
    push_piece(id, count, stack)?;
    let next = id.plus(count);
    push_hanging(runs, children, next, Side::Left, stack)?;
    push_piece(next, 1, stack)?;
    push_hanging(runs, children, next, Side::Right, stack)
}

// Adds that a piece is to be given out, unless it is empty.
fn push_piece(id: OpId, count: u32, stack: &mut Vec<Step>) -> Result<(), AllocError>
    ensures { OnOk result (stack.new.items ≡ stack.old.items ++ piece_steps id count) }
{
    if count > 0 {
        stack.push(Step::Give(Piece { id, count }))?;
    }
    Ok(())
}

// Adds the visits of the rows that hang there.
fn push_hanging(
    runs: &BTreeMap<OpId, Run>,
    children: &BTreeSet<Child>,
    anchor: OpId,
    side: Side,
    stack: &mut Vec<Step>,
) -> Result<(), AllocError>
    requires tree { IsInsertionTree (places (rows_in runs.now.entries)) }
    requires filled { AreFilled runs.now.entries }
    requires index { AreChildren (starts runs.now.entries) children.now }
    ensures ok { OnOk result (stack.new.items
        ≡ stack.old.items ++ map Visit (hanging (places (rows_in runs.now.entries)) anchor side)) }
    ensures ordered { tables.IsOrdered id_cmp runs.now }
{
    let next = run::next_beside(runs, anchor, side);
    push_visit(next, stack)?;
    push_visits(children, anchor, side, stack)
}

// Adds the visit of the row, if there is one.
fn push_visit(row: Option<OpId>, stack: &mut Vec<Step>) -> Result<(), AllocError>
    ensures { OnOk result (stack.new.items ≡ stack.old.items ++ map Visit (option_to_list row)) }
{
    if let Some(row) = row {
        stack.push(Step::Visit(row))?;
    }
    Ok(())
}

// Adds the visits of the children that hang there, by rising ids.
fn push_visits(
    children: &BTreeSet<Child>,
    anchor: OpId,
    side: Side,
    stack: &mut Vec<Step>,
) -> Result<(), AllocError>
    ensures ok { OnOk result (stack.new.items
        ≡ stack.old.items ++ map Visit (children_at children.now anchor side)) }
    ensures ordered { sets.IsOrdered child_cmp children.now }
{
    let least = child_at(anchor, side, ROOT);
    for child in children.range(least..) {
        if !child.hangs(anchor, least.is_right) {
            break;
        }
        stack.push(Step::Visit(child.id))?;
    }
    Ok(())
}

// How many rows from this one on have a next row in their run, and nothing else that hangs on them.
fn free_rows(runs: &BTreeMap<OpId, Run>, children: &BTreeSet<Child>, id: OpId) -> u32
    requires rising { fin.is_sorted id_cmp (rows_in runs.now.entries) ≡ true }
    requires filled { AreFilled runs.now.entries }
    requires index { AreChildren (starts runs.now.entries) children.now }
    ensures free { IsFree runs.now.entries id result }
    ensures fits { id.index + result < 2 ^ 32 }
{
    let followed = run::letters_from(runs, id).len().saturating_sub(1) as u32;
    match bare_rows(children, id) {
        Some(bare) => followed.min(bare),
        None => followed,
    }
}

// How many rows of its change from this one on, at least, have no child; `None` where none of them has one.
fn bare_rows(children: &BTreeSet<Child>, id: OpId) -> Option<u32>
    ensures { IsBare children.now id result }
{
    let child = children.range(child_at(id, Side::Left, ROOT)..).next()?;
    if child.anchor.stamp() == id.stamp() {
        Some(child.anchor.index - id.index)
    } else {
        None
    }
}
