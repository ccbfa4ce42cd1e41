//! Acknowledgements.

ghost use Rattle.std.specs.Prelude.{◌≢◌, List, ℕ};
ghost use Rattle.model.specs.Command.{made_acks};
ghost use Rattle.model.specs.File.{bundle};
ghost use Rattle.model.specs.Held.{held_behind};
ghost use Rattle.model.specs.Reading.{base_in};
ghost use Rattle.model.specs.Stands.{IsStored};
ghost use Rattle.member_replica.specs.Making.{Makes};

use crate::made::{Made, MakeFault, Makings};
use op_grammar::OpPlan;
use replica::FileParts;
use std::alloc::Global;

/// The file with a change without operations of each of its members, one after the other: so each makes known what it knows. Of
/// the waiting changes those stay that still wait. Looks at heads alone.
pub fn ack(alloc: Global, parts: FileParts<'_>) -> Result<Made, MakeFault>
    requires kind { parts.kind ≢ bundle }
    requires stored { (bytes : List ℕ) × IsStored bytes parts }
    ensures { Makes parts.entry
        (made_acks parts.entry.members (held_behind (base_in parts.entry)) parts.entry.kept parts.entry.mine) result }
{
    let mine = &parts.head().mine;
    if mine.len() == 0 {
        return Err(MakeFault::Nobody);
    }
    let nothing = OpPlan::new(alloc);
    let mut makings = Makings::of(alloc, &parts);
    'mine: for i in 0..mine.len() {
        makings.make(*mine.at(i), &nothing)?;
    }
    Ok(makings.stored(alloc, parts)?)
}
