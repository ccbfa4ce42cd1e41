// The texts of all nodes.
ghost use Rattle.std.specs.Prelude.{◌≡◌, ◌≢◌, ◌+◌, ◌<◌, ◌≤◌, ◌^◌, true, None, OnOk, OnErr, IfOk, drop, false, is_some, length, map, slice_get, take};
ghost use Rattle.std.specs.Str.{chars};
ghost use Rattle.std.specs.List.{AllByRecursion};
ghost use Rattle.std.specs.List.Sorted.{IsStrictlySortedBy};
ghost use Rattle.std.specs.BTreeMap as tables;
ghost use Rattle.std.specs.FinMap as fin;
ghost use Rattle.op_ids.specs.Order.{id_cmp, id_lt, id_plus, root_id};
ghost use Rattle.model.specs.BaseItem.{keys};
ghost use Rattle.model.specs.Operation.{erase_text, type_text};
ghost use Rattle.model.specs.State.{edit_row, has_anchor, killed, right_of, row_cmp, text_step, typed};
ghost use Rattle.model.specs.View.{live_characters, text_of};
ghost use Rattle.model.specs.Walk.{place_after, rows_of};
ghost use Rattle.walk_laws.specs.Insertion.{PlacedAfter};
ghost use Rattle.move_list.specs.Kept.{all_rows};
ghost use Rattle.fugue_text.specs.Runs.{alive_letter, letter_at};
ghost use Rattle.fugue_text.specs.Texts.{AreNew, AreTexts, HangsIn, IsPartTyped, document_of, own_rows, text_entries};

use crate::node_text::NodeText;
use crate::run::Letter;
use cbor_det::OwnText;
use op_ids::{OpId, ROOT, Side};
use std::alloc::{AllocError, Global};
use std::collections::BTreeMap;
use std::marker::Model;

/// A character of a node's text: its id, what it hangs on and on which side, and whether it was erased.
#[derive(Clone, Copy, Debug, PartialEq, Eq)]
pub struct TextRow {
    pub node: OpId,
    pub id: OpId,
    pub anchor: OpId,
    pub side: Side,
    pub character: char,
    pub dead: bool,
}

/// The texts of all nodes: insertion trees of characters, which are erased for good, in whatever order that comes.
#[derive(Drop)]
pub struct Texts {
    alloc: Global,
    nodes: BTreeMap<OpId, NodeText>,
}

impl Model for Texts {
    ghost use Rattle.fugue_text.specs.Codes.{table_code};
    ghost use Rattle.fugue_text.specs.Texts.{AreTrees, Table, table_of};

    ghost Value = { Table };

    ghost coded = { table_code };

    ghost view = { λ t. table_of t.nodes.entries };

    ghost invariant = { λ t. AreTrees t.nodes.entries };
}

impl Texts {
    /// No node has a character.
    pub fn new(alloc: Global) -> Texts
        ensures { result ≡ fin.empty }
    {
        Texts {
            alloc,
            nodes: BTreeMap::new(alloc),
        }
    }

    /// New characters of the node, with ids that follow one another. The first hangs on the head, there on the right, or on a
    /// character of the node with a smaller id; each later one hangs right of the one before. Where memory is wanting some of
    /// them are there, from the first on. A node whose text has 4,294,967,295 characters that aren't erased counts as memory
    /// that is wanting.
    pub fn type_run(
        &mut self,
        node: OpId,
        first: OpId,
        anchor: OpId,
        side: Side,
        text: &str,
    ) -> Result<(), AllocError>
        requires new { AreNew self.old node first (length (chars text.now)) }
        requires no_head { first ≢ root_id }
        requires hangs { HangsIn self.old node first (record { on = anchor; side = side }) }
        requires in_range { first.index + length (chars text.now) < 2 ^ 32 }
        ensures ok { OnOk result (self.new ≡ text_step self.old first
            (type_text node (record { on = anchor; side = side }) (chars text.now))) }
        ensures err { OnErr result (IsPartTyped self.old self.new node first
            (record { on = anchor; side = side }) (chars text.now)) }
    {
        let letters = alive_letters(self.alloc, text)?;
        let letters = letters.as_slice();
        let Some(letter) = letters.first() else {
            return Ok(());
        };
        self.add(node, first, anchor, side, *letter)?;
        if letters.len() == 1 {
            return Ok(());
        }
        self.type_behind(node, first, &letters[1..])
    }

    /// Erases so many characters of the node from the first id on, those of them that are there. Takes no memory.
    pub fn erase(&mut self, node: OpId, first: OpId, count: u32)
        requires { first.index + count ≤ 2 ^ 32 }
        ensures { (id : OpId) → self.new ≡ text_step self.old id (erase_text node first count) }
    {
        for k in 0..count {
            self.kill(node, first.plus(k));
        }
    }

    /// Whether the node has a character with this id, erased or not.
    pub fn has(&self, node: OpId, id: OpId) -> bool
        ensures row { result ≡ is_some (fin.get self.now (node, id)) }
        ensures texts { AreTexts self.now }
    {
        let _ = self.nodes.len();
        match self.nodes.get(&node) {
            Some(text) => text.has(id),
            None => false,
        }
    }

    /// How many characters of the node aren't erased. Takes no memory.
    pub fn length(&self, node: OpId) -> u32
        ensures { result ≡ length (live_characters (document_of self.now) node) }
    {
        let _ = self.nodes.len();
        match self.nodes.get(&node) {
            Some(text) => text.live(),
            None => 0,
        }
    }

    /// The node's characters that aren't erased, in the order of the walk.
    pub fn text(&self, node: OpId) -> Result<OwnText, AllocError>
        ensures { IfOk result (λ t. chars t ≡ text_of (document_of self.now) node) }
    {
        let _ = self.nodes.len();
        match self.nodes.get(&node) {
            Some(text) => Ok(OwnText::from_string(text.text()?)),
            None => OwnText::of(self.alloc, ""),
        }
    }

    /// The id of the i-th of the node's characters that aren't erased, from 0, or `None` exactly where there are no more than i.
    pub fn id_at(&self, node: OpId, i: u32) -> Result<Option<OpId>, AllocError>
        ensures { IfOk result (λ id. id ≡ slice_get (live_characters (document_of self.now) node) i) }
    {
        let ids = self.ids_from(node, i, 1)?;
        Ok(ids.first().copied())
    }

    /// The ids of so many of the node's characters that aren't erased, from the one at this place on, from 0; fewer where
    /// there are no more.
    pub fn ids_from(&self, node: OpId, at: u32, count: u32) -> Result<Vec<OpId>, AllocError>
        ensures { IfOk result (λ v. v.items
            ≡ take count (drop at (live_characters (document_of self.now) node))) }
    {
        let _ = self.nodes.len();
        match self.nodes.get(&node) {
            Some(text) => text.ids_from(at, count),
            None => Ok(Vec::new(self.alloc)),
        }
    }

    /// Where a character of the node hangs that is to stand directly after `left`, which is the head (`ROOT`) or a character
    /// of the node, erased or not: right of it if nothing hangs there, else left of the one that follows it. Takes no memory.
    /// A new character that is put there stands directly after `left`.
    pub fn place_after(&self, node: OpId, left: OpId) -> (OpId, Side)
        requires { has_anchor self.now node left ≡ true }
        ensures place { let place = place_after (rows_of (λ c. c.at) self.now node) left in
            result ≡ (place.on, place.side) }
        ensures after { (row : OpId) → fin.get self.now (node, row) ≡ None
            → id_lt result.0 row ≡ true → PlacedAfter (rows_of (λ c. c.at) self.now node) left row }
        ensures texts { AreTexts self.now }
    {
        let _ = self.nodes.len();
        match self.nodes.get(&node) {
            Some(text) => text.place_after(left),
            None => (left, Side::Right),
        }
    }

    /// The texts of these rows, which stand by node and id.
    pub fn from_rows(alloc: Global, rows: &[TextRow]) -> Result<Texts, AllocError>
        requires rise { IsStrictlySortedBy row_cmp (keys (text_entries rows.now)) }
        requires texts { AreTexts (fin.from_entries (text_entries rows.now)) }
        ensures { IfOk result (λ t. t ≡ fin.from_entries (text_entries rows.now)) }
    {
        let mut texts = Texts::new(alloc);
        for row in rows {
            texts.add(
                row.node,
                row.id,
                row.anchor,
                row.side,
                Letter {
                    character: row.character,
                    dead: row.dead,
                },
            )?;
        }
        Ok(texts)
    }

    /// The characters of all nodes, erased ones too, by node and id.
    pub fn rows(&self) -> Result<Vec<TextRow>, AllocError>
        ensures rows { IfOk result (λ v. text_entries v.items ≡ fin.entries self.now) }
        ensures texts { AreTexts self.now }
    {
        rows_in(self.alloc, &self.nodes)
    }

    // A new character of the node.
    fn add(
        &mut self,
        node: OpId,
        id: OpId,
        anchor: OpId,
        side: Side,
        letter: Letter,
    ) -> Result<(), AllocError>
        requires new { fin.get self.old (node, id) ≡ None }
        requires no_head { id ≢ root_id }
        requires hangs { HangsIn self.old node id (record { on = anchor; side = side }) }
        ensures ok { OnOk result (self.new
            ≡ fin.insert self.old (node, id) (letter_at (record { on = anchor; side = side }) letter)) }
        ensures err { OnErr result (self.new ≡ self.old) }
        ensures texts { AreTexts self.new }
    {
        if let Some(text) = self.nodes.get_mut(&node) {
            return text.add(id, anchor, side, letter);
        }
        let mut text = NodeText::new(self.alloc);
        text.add(id, anchor, side, letter)?;
        self.nodes.insert(node, text)?;
        Ok(())
    }

    // New characters behind the last one of a run of the node, each right of the one before.
    fn type_behind(&mut self, node: OpId, id: OpId, letters: &[Letter]) -> Result<(), AllocError>
        requires there { is_some (fin.get self.old (node, id)) ≡ true }
        requires fresh { fin.get self.old (node, id_plus id 1) ≡ None }
        requires new { AreNew self.old node (id_plus id 1) (length letters.now) }
        requires alive { AllByRecursion (λ l. l.dead ≡ false) letters.now }
        requires fits { id.index + length letters.now < 2 ^ 32 }
        ensures ok { OnOk result (self.new
            ≡ typed self.old node (id_plus id 1) (right_of id) (map (λ l. l.character) letters.now)) }
        ensures err { OnErr result (self.new ≡ self.old) }
    {
        if let Some(text) = self.nodes.get_mut(&node) {
            return text.type_behind(id, letters);
        }
        Ok(())
    }

    // Erases a character of the node, if it is there.
    fn kill(&mut self, node: OpId, id: OpId)
        ensures now { self.new ≡ edit_row self.old (node, id) killed }
        ensures texts { AreTexts self.new }
    {
        if let Some(text) = self.nodes.get_mut(&node) {
            text.kill(id);
        }
    }
}

// The rows of each node in turn.
fn rows_in(alloc: Global, nodes: &BTreeMap<OpId, NodeText>) -> Result<Vec<TextRow>, AllocError>
    ensures rows { IfOk result (λ v. text_entries v.items ≡ all_rows own_rows nodes.now.entries) }
    ensures ordered { tables.IsOrdered id_cmp nodes.now }
{
    let mut rows = Vec::new(alloc);
    let _ = nodes.len();
    for (node, text) in nodes {
        text.push_rows(*node, &mut rows)?;
    }
    Ok(rows)
}

// The characters of a text as letters that aren't erased.
fn alive_letters(alloc: Global, text: &str) -> Result<Vec<Letter>, AllocError>
    ensures { IfOk result (λ v. v.items ≡ map alive_letter (chars text.now)) }
{
    let mut letters = Vec::with_capacity(alloc, text.len())?;
    for character in text.chars() {
        letters.push(Letter {
            character,
            dead: false,
        })?;
    }
    Ok(letters)
}
