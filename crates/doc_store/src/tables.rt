//! The tables of a document, in rows.

ghost use Rattle.std.specs.Prelude.{◌≡◌};

use fugue_text::TextRow;
use fugue_tree::PlaceRow;
use lww_map::RegisterRow;
use move_list::ElementRow;
use std::marker::Model;
use tree_move::NodeRow;

/// Rows of nodes.
#[derive(Drop)]
pub struct NodeRows {
    rows: Vec<NodeRow>,
}

impl Model for NodeRows {
    ghost use Rattle.std.specs.Prelude.{List};
    ghost use Rattle.tree_move.specs.declared.places.NodeRow.{NodeRow};

    ghost Value = { List NodeRow };

    ghost view = { λ r. r.rows.items };
}

/// Rows of positions, of nodes or of elements.
#[derive(Drop)]
pub struct PlaceRows {
    rows: Vec<PlaceRow>,
}

impl Model for PlaceRows {
    ghost use Rattle.std.specs.Prelude.{List};
    ghost use Rattle.fugue_tree.specs.declared.tree.PlaceRow.{PlaceRow};

    ghost Value = { List PlaceRow };

    ghost view = { λ r. r.rows.items };
}

/// Rows of registers.
#[derive(Drop)]
pub struct RegisterRows<'a> {
    rows: Vec<RegisterRow<'a>>,
}

impl<'a> Model for RegisterRows<'a> {
    ghost use Rattle.std.specs.Prelude.{List};
    ghost use Rattle.lww_map.specs.declared.registers.RegisterRow.{RegisterRow};

    ghost Value = { List RegisterRow };

    ghost view = { λ r. r.rows.items };
}

/// Rows of characters.
#[derive(Drop)]
pub struct TextRows {
    rows: Vec<TextRow>,
}

impl Model for TextRows {
    ghost use Rattle.std.specs.Prelude.{List};
    ghost use Rattle.fugue_text.specs.declared.texts.TextRow.{TextRow};

    ghost Value = { List TextRow };

    ghost view = { λ r. r.rows.items };
}

/// Rows of elements.
#[derive(Drop)]
pub struct ElementRows {
    rows: Vec<ElementRow>,
}

impl Model for ElementRows {
    ghost use Rattle.std.specs.Prelude.{List};
    ghost use Rattle.move_list.specs.declared.lists.ElementRow.{ElementRow};

    ghost Value = { List ElementRow };

    ghost view = { λ r. r.rows.items };
}

impl NodeRows {
    /// These rows.
    pub fn of(rows: Vec<NodeRow>) -> NodeRows
        ensures { result ≡ rows.items }
    {
        NodeRows { rows }
    }

    /// The rows.
    pub fn as_slice(&self) -> &[NodeRow]
        ensures { result.now ≡ self.now }
    {
        self.rows.as_slice()
    }

    /// The rows, given back.
    pub fn into_vec(self) -> Vec<NodeRow>
        ensures { result.items ≡ self }
    {
        self.rows
    }
}

impl PlaceRows {
    /// These rows.
    pub fn of(rows: Vec<PlaceRow>) -> PlaceRows
        ensures { result ≡ rows.items }
    {
        PlaceRows { rows }
    }

    /// The rows.
    pub fn as_slice(&self) -> &[PlaceRow]
        ensures { result.now ≡ self.now }
    {
        self.rows.as_slice()
    }

    /// The rows, given back.
    pub fn into_vec(self) -> Vec<PlaceRow>
        ensures { result.items ≡ self }
    {
        self.rows
    }
}

impl<'a> RegisterRows<'a> {
    /// These rows.
    pub fn of(rows: Vec<RegisterRow<'a>>) -> RegisterRows<'a>
        ensures { result ≡ rows.entry.items }
    {
        RegisterRows { rows }
    }

    /// The rows.
    pub fn as_slice(&self) -> &[RegisterRow<'a>]
        ensures { result.now ≡ self.now }
    {
        self.rows.as_slice()
    }

    /// The rows, given back.
    pub fn into_vec(self) -> Vec<RegisterRow<'a>>
        ensures { result.items ≡ self.entry }
    {
        self.rows
    }
}

impl TextRows {
    /// These rows.
    pub fn of(rows: Vec<TextRow>) -> TextRows
        ensures { result ≡ rows.items }
    {
        TextRows { rows }
    }

    /// The rows.
    pub fn as_slice(&self) -> &[TextRow]
        ensures { result.now ≡ self.now }
    {
        self.rows.as_slice()
    }

    /// The rows, given back.
    pub fn into_vec(self) -> Vec<TextRow>
        ensures { result.items ≡ self }
    {
        self.rows
    }
}

impl ElementRows {
    /// These rows.
    pub fn of(rows: Vec<ElementRow>) -> ElementRows
        ensures { result ≡ rows.items }
    {
        ElementRows { rows }
    }

    /// The rows.
    pub fn as_slice(&self) -> &[ElementRow]
        ensures { result.now ≡ self.now }
    {
        self.rows.as_slice()
    }

    /// The rows, given back.
    pub fn into_vec(self) -> Vec<ElementRow>
        ensures { result.items ≡ self }
    {
        self.rows
    }
}

/// The tables, each by its keys: nodes by id, positions by parent and id, registers by node and key, and characters, positions
/// of lists and elements by node and id.
#[derive(Drop)]
pub struct Tables<'a> {
    pub nodes: NodeRows,
    pub positions: PlaceRows,
    pub registers: RegisterRows<'a>,
    pub texts: TextRows,
    pub list_positions: PlaceRows,
    pub elements: ElementRows,
}
