// Where a node is.
ghost use Rattle.std.specs.Prelude.{◌≡◌};

use op_ids::OpId;

/// Where a node is: below a parent, at one of the parent's positions.
#[derive(Clone, Copy, Debug, PartialEq, Eq)]
pub struct Place {
    pub parent: OpId,
    pub position: OpId,
}

/// What undoes a move: the child, and the place that it had before, if any.
#[derive(Clone, Copy, Debug, PartialEq, Eq)]
pub struct Undo {
    pub child: OpId,
    pub before: Option<Place>,
}

/// A node and its place.
#[derive(Clone, Copy, Debug, PartialEq, Eq)]
pub struct NodeRow {
    pub id: OpId,
    pub parent: OpId,
    pub position: OpId,
}

impl NodeRow {
    /// The node's place.
    pub fn place(&self) -> Place
        ensures { result ≡ record { parent = self.now.parent; position = self.now.position } }
    {
        Place {
            parent: self.parent,
            position: self.position,
        }
    }
}
