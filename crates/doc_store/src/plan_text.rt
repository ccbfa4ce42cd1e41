// Plans of texts.
ghost use Rattle.std.specs.Prelude.{◌≡◌, ◌+◌, ◌<◌, ◌≤◌, ◌^◌, ◌∷◌, IfOk, drop, length, map, take};
ghost use Rattle.std.specs.Str.{chars};
ghost use Rattle.op_ids.specs.Order.{id_eq, id_plus};
ghost use Rattle.model.specs.Edit as model;
ghost use Rattle.model.specs.Edit.{character_place, faults, grouped, origin_at};
ghost use Rattle.model.specs.Operation.{erase_text};
ghost use Rattle.model.specs.View.{live_characters};
ghost use Rattle.op_grammar.specs.Operations.{anchor_of, operations_of};
ghost use Rattle.doc_store.specs.Edits.{Checks, Plans, PlansOne};
ghost use Rattle.doc_store.specs.Kept.{state_of};

use crate::doc::Doc;
use crate::edit::{EditFault, PlanFault, check_count, check_text, refuse_if};
use op_grammar::{OpPlan, OpRef};
use op_ids::{OpId, ROOT, Side};
use std::alloc::{AllocError, Global};

impl<'a> Doc<'a> {
    // A text that is typed.
    pub(crate) fn plan_typing<'w>(
        &self,
        node: OpId,
        at: u32,
        text: &'w str,
    ) -> Result<OpRef<'w>, PlanFault>
        ensures { PlansOne (state_of self.now) (model.type_at node at (chars text.now)) result }
    {
        self.check_typing(node, at, text)?;
        let (anchor, side) = self.place_character(node, at)?;
        Ok(OpRef::TypeText {
            node,
            anchor,
            side,
            text,
        })
    }

    // Characters that are erased.
    pub(crate) fn plan_erasure<'w>(
        &self,
        node: OpId,
        at: u32,
        count: u32,
    ) -> Result<OpPlan<'w>, PlanFault>
        ensures { Plans (state_of self.now) (model.erase_at node at count) result }
    {
        self.check_erasure(node, at, count)?;
        let ids = self.characters(node, at, count)?;
        Ok(erasures(self.alloc, node, &ids)?)
    }

    // Refuses a text behind the last place, or one that is empty or too long.
    fn check_typing(&self, node: OpId, at: u32, text: &str) -> Result<(), PlanFault>
        ensures { Checks (faults (state_of self.now) (model.type_at node at (chars text.now))) result }
    {
        self.check_in_view(node, 2)?;
        refuse_if(at > self.text_len(node), EditFault::NoIndex, 3)?;
        check_text(text)
    }

    // Refuses a part of a text that isn't there, is empty or too long.
    fn check_erasure(&self, node: OpId, at: u32, count: u32) -> Result<(), PlanFault>
        ensures { Checks (faults (state_of self.now) (model.erase_at node at count)) result }
    {
        let len = self.text_len(node);
        self.check_in_view(node, 2)?;
        refuse_if(at > len, EditFault::NoIndex, 3)?;
        check_count(count as usize)?;
        refuse_if(
            u64::from(at) + u64::from(count) > u64::from(len),
            EditFault::NoChars,
            4,
        )
    }

    // How many characters are shown.
    fn text_len(&self, node: OpId) -> u32
        ensures { result ≡ length (live_characters (state_of self.now) node) }
    {
        self.rows.texts.length(node)
    }

    // The ids of so many characters that are shown, from the at-th on.
    fn characters(&self, node: OpId, at: u32, count: u32) -> Result<Vec<OpId>, AllocError>
        ensures { IfOk result (λ v. v.items ≡ take count (drop at (live_characters (state_of self.now) node))) }
    {
        self.rows.texts.ids_from(node, at, count)
    }

    // Where a character hangs that comes to a place of the text.
    fn place_character(&self, node: OpId, at: u32) -> Result<(OpId, Side), AllocError>
        ensures { IfOk result (λ p. anchor_of p ≡ character_place (state_of self.now) node at) }
    {
        let left = self.character_before(node, at)?;
        Ok(self.rows.texts.place_after(node, left))
    }

    // The character before a place of the text, or the head.
    fn character_before(&self, node: OpId, at: u32) -> Result<OpId, AllocError>
        ensures { IfOk result (λ id. id ≡ origin_at (live_characters (state_of self.now) node) at) }
    {
        if at == 0 {
            return Ok(ROOT);
        }
        let id = self.rows.texts.id_at(node, at - 1)?;
        Ok(id.unwrap_or(ROOT))
    }
}

// The operations that erase these characters, one for each row of ids that follow one another.
fn erasures<'w>(alloc: Global, node: OpId, ids: &[OpId]) -> Result<OpPlan<'w>, AllocError>
    requires { length ids.now < 2 ^ 32 }
    ensures { IfOk result (λ p. operations_of p
        ≡ map (λ g. erase_text node g.first g.count) (grouped ids.now)) }
{
    let mut plan = OpPlan::new(alloc);
    let mut left = ids;
    while let Some((first, rest)) = left.split_first() {
        let more = followers(*first, rest);
        plan.push(OpRef::EraseText {
            node,
            first: *first,
            count: more as u32 + 1,
        })?;
        left = &rest[more..];
    }
    Ok(plan)
}

// How many of the ids follow on the first, each the next of the one before it.
fn followers(first: OpId, ids: &[OpId]) -> usize
    ensures within { result ≤ length ids.now }
    ensures group { grouped (first ∷ ids.now)
        ≡ record { first = first; count = result + 1 } ∷ grouped (drop result ids.now) }
{
    let mut last = first;
    let mut count = 0;
    for id in ids {
        if !is_next(last, *id) {
            return count;
        }
        last = *id;
        count += 1;
    }
    count
}

// Whether an id is the next one of the same change.
fn is_next(id: OpId, next: OpId) -> bool
    ensures { result ≡ id_eq next (id_plus id 1) }
{
    match id.index.checked_add(1) {
        Some(index) => next == OpId { index, ..id },
        None => false,
    }
}
