//! Printed lines: who holds a file, and what was made.

ghost use Rattle.std.specs.Prelude.{◌≡◌, ◌<◌, List, IfOk, flat_map, map};
ghost use Rattle.member_replica.specs.Making.{note_of};
ghost use Rattle.model.specs.Base.{members as members_of};
ghost use Rattle.model.specs.Change.{Change};
ghost use Rattle.model.specs.Text as printed;

use cbor_det::OwnText;
use member_replica::MadeNote;
use std::alloc::{AllocError, Global};

/// The line that says who holds a file: all of so many members.
#[tactic(auto, using(crate::proofs::HoldsLaws::holds_one, crate::proofs::HoldsLaws::holds_more, crate::proofs::HoldsLaws::holds_all))]
pub(crate) fn holds_text(alloc: Global, members: u8) -> Result<OwnText, AllocError>
    requires { 0 < members }
    ensures { IfOk result (λ text. text ≡ printed.holds_line (members_of members)) }
{
    let mut text = String::from_str(alloc, "holds 0")?;
    'members: for member in 1..members {
        write!(text, ",{member}")?;
    }
    text.push('\n')?;
    Ok(OwnText::from_string(text))
}

/// The lines that say what was made, one for each change.
pub(crate) fn made_text(alloc: Global, notes: &[MadeNote]) -> Result<OwnText, AllocError>
    ensures { (cs : List Change) → notes.now ≡ map note_of cs
        → IfOk result (λ text. text ≡ flat_map printed.made_line cs) }
{
    let mut text = String::new(alloc);
    for note in notes {
        writeln!(text, "made {} {} {}", note.member, note.number, note.time)?;
    }
    Ok(OwnText::from_string(text))
}
