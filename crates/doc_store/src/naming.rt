// The rows that operations name, and whether they are there.
ghost use Rattle.std.specs.Prelude.{◌≡◌, ◌+◌, ◌≤◌, ◌^◌, ◌∷◌, [], is_some, map, slice_get};
ghost use Rattle.std.specs.FinMap as fin;
ghost use Rattle.op_grammar.specs.Operations.{operation_of};
ghost use Rattle.model.specs.Held.{wrong_ids};
ghost use Rattle.model.specs.Operation.{IsOperation};
ghost use Rattle.model.specs.State.{State, has_anchor, has_node, run_of};
ghost use Rattle.doc_store.specs.Kept.{document_of, state_of};
ghost use Rattle.doc_store.specs.References.{HasMade, first_wrong_of};

use crate::draft::Draft;
use crate::made::Made;
use crate::references::first_wrong;
use op_grammar::OpRef;
use op_ids::{OpId, ROOT, TRASH};

impl<'a> Draft<'a> {
    // The first id that the operation names wrongly.
    pub(crate) fn wrong_id(&self, made: &Made, id: OpId, op: OpRef<'_>) -> Option<OpId>
        requires { IsOperation 32 (operation_of op) }
        ensures { (u : State) → HasMade (state_of (document_of self.now)) made.now u
            → result ≡ slice_get (wrong_ids u id (operation_of op.entry)) 0 }
    {
        match op {
            OpRef::NewNode { parent, anchor, .. } => {
                let anchor = (anchor, self.has_anchor(made, parent, anchor));
                first_wrong(id, &[(parent, self.has_node(made, parent)), anchor])
            }
            OpRef::MoveNode {
                child,
                parent,
                anchor,
                ..
            } => {
                let child = (child, self.is_placed(made, child));
                let anchor = (anchor, self.has_anchor(made, parent, anchor));
                first_wrong(id, &[child, (parent, self.has_node(made, parent)), anchor])
            }
            OpRef::PutKey { node, .. } => first_wrong(id, &[(node, self.has_node(made, node))]),
            OpRef::TypeText { node, anchor, .. } => {
                let anchor = (anchor, self.has_text_anchor(made, node, anchor));
                first_wrong(id, &[(node, self.has_node(made, node)), anchor])
            }
            OpRef::EraseText { node, first, count } => {
                if !(self.has_node(made, node) && node.is_before(id)) {
                    return Some(node);
                }
                self.wrong_character(made, id, node, first, count)
            }
            OpRef::AddItem { node, anchor, .. } => {
                let anchor = (anchor, self.has_list_anchor(made, node, anchor));
                first_wrong(id, &[(node, self.has_node(made, node)), anchor])
            }
            OpRef::ShiftItem {
                node,
                element,
                anchor,
                ..
            } => {
                let element = (element, self.has_element(made, node, element));
                let anchor = (anchor, self.has_list_anchor(made, node, anchor));
                first_wrong(id, &[(node, self.has_node(made, node)), element, anchor])
            }
            OpRef::SetItem { node, element, .. } => self.wrong_element(made, id, node, element),
            OpRef::DropItem { node, element } => self.wrong_element(made, id, node, element),
        }
    }

    // The first of a node and an element of its own that isn't there or isn't smaller than the id.
    fn wrong_element(&self, made: &Made, id: OpId, node: OpId, element: OpId) -> Option<OpId>
        ensures { (u : State) → HasMade (state_of (document_of self.now)) made.now u
            → result ≡ first_wrong_of id ((node, has_node u node)
            ∷ (element, is_some (fin.get u.elements (node, element))) ∷ []) }
    {
        let element = (element, self.has_element(made, node, element));
        first_wrong(id, &[(node, self.has_node(made, node)), element])
    }

    // The first of so many characters of a node that isn't there or isn't smaller than the id.
    fn wrong_character(
        &self,
        made: &Made,
        id: OpId,
        node: OpId,
        first: OpId,
        count: u32,
    ) -> Option<OpId>
        requires { first.index + count ≤ 2 ^ 32 }
        ensures { (u : State) → HasMade (state_of (document_of self.now)) made.now u
            → result ≡ first_wrong_of id
            (map (λ k. (k, is_some (fin.get u.texts (node, k)))) (run_of first count)) }
    {
        for k in 0..count {
            let name = first.plus(k);
            if !(self.has_character(made, node, name) && name.is_before(id)) {
                return Some(name);
            }
        }
        None
    }

    // Whether it is root, trash, a node or one that was made.
    fn has_node(&self, made: &Made, id: OpId) -> bool
        ensures { (u : State) → HasMade (state_of (document_of self.now)) made.now u
            → result ≡ has_node u id }
    {
        id == ROOT || id == TRASH || self.is_placed(made, id)
    }

    // Whether it is a node, or one that was made.
    fn is_placed(&self, made: &Made, id: OpId) -> bool
        ensures { (u : State) → HasMade (state_of (document_of self.now)) made.now u
            → result ≡ is_some (fin.get u.nodes id) }
    {
        self.log.has_place(id) || made.nodes.contains(&id)
    }

    // Whether it is the head, a position of the parent or one that was made.
    fn has_anchor(&self, made: &Made, parent: OpId, id: OpId) -> bool
        ensures { (u : State) → HasMade (state_of (document_of self.now)) made.now u
            → result ≡ has_anchor u.positions parent id }
    {
        id == ROOT || self.rows.positions.has(parent, id) || made.positions.contains(&(parent, id))
    }

    // Whether it is the head, a character of the node or one that was made.
    fn has_text_anchor(&self, made: &Made, node: OpId, id: OpId) -> bool
        ensures { (u : State) → HasMade (state_of (document_of self.now)) made.now u
            → result ≡ has_anchor u.texts node id }
    {
        id == ROOT || self.has_character(made, node, id)
    }

    // Whether it is a character of the node, or one that was made.
    fn has_character(&self, made: &Made, node: OpId, id: OpId) -> bool
        ensures { (u : State) → HasMade (state_of (document_of self.now)) made.now u
            → result ≡ is_some (fin.get u.texts (node, id)) }
    {
        self.rows.texts.has(node, id) || made.characters.contains(&(node, id))
    }

    // Whether it is the head, a position of the node's list or one that was made.
    fn has_list_anchor(&self, made: &Made, node: OpId, id: OpId) -> bool
        ensures { (u : State) → HasMade (state_of (document_of self.now)) made.now u
            → result ≡ has_anchor u.list_positions node id }
    {
        id == ROOT
            || self.rows.lists.has_position(node, id)
            || made.list_positions.contains(&(node, id))
    }

    // Whether it is an element of the node, or one that was made.
    fn has_element(&self, made: &Made, node: OpId, id: OpId) -> bool
        ensures { (u : State) → HasMade (state_of (document_of self.now)) made.now u
            → result ≡ is_some (fin.get u.elements (node, id)) }
    {
        self.rows.lists.has_element(node, id) || made.elements.contains(&(node, id))
    }
}
