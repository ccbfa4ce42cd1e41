//! Edits: the file with the change that a member makes, and what is printed of changes that are made.

ghost use Rattle.std.specs.Prelude.{◌≤◌, List, Result, Err, length};
ghost use Rattle.model.specs.Change.{Change};
ghost use Rattle.model.specs.Command.{Unmade, edit as edits_file};
ghost use Rattle.model.specs.Edit.{Edit as TheEdit};
ghost use Rattle.model.specs.File.{File, file_limit};
ghost use Rattle.member_replica.specs.Making.{Makes};
ghost use Rattle.outline_words.specs.Commands.{IsWordEdit};
ghost use Rattle.outline_words.specs.Table.{command};
ghost use Rattle.outline_meaning.specs.Meaning.{Loaded, exactly, reads};
ghost use Rattle.outline_meaning.specs.Outcome.{told};
ghost use Rattle.outline_cmd.specs.Made.{made_outcome};
ghost use Rattle.outline_meaning.specs.Follows.{Follows, Refuses};
ghost use Rattle.outline_cmd.specs.Stages.{answer_of};
ghost use Rattle.outline_cmd.specs.Tasks.{SaysEdit, answering, order_made_of, over};
ghost use Rattle.outline_meaning.specs.Works.{ReadsOne};

use crate::answer::{Answer, Store};
use crate::edit_words::EditWords;
use crate::lines::made_text;
use crate::opened::{open, replica_of};
use member_replica::{Made, MakeFault};
use outline_meaning::Status;
use outside::Tally;
use replica::{MEMBER_FILE, MemberFault};
use std::alloc::Global;

/// The status of a change that wasn't made.
fn unmade_status(fault: MakeFault) -> Status
    ensures { (f : File) (meant : Result (List Change) Unmade) → Makes f meant (Err fault)
        → Refuses (exactly (told meant)) result }
{
    match fault {
        MakeFault::Nobody => Status::Member(MemberFault::Nobody),
        MakeFault::Edit { fault, word } => Status::Edit { fault, word },
        MakeFault::ClockFull {
            time,
            member,
            number,
        } => Status::ClockFull {
            time,
            member,
            number,
        },
        MakeFault::NoMemory => Status::NoMemory,
    }
}

/// The answer of what members made of the file with this name, which the first word after the command gives.
pub(crate) fn made_answer<'w>(
    alloc: Global,
    name: &'w str,
    made: Result<Made, MakeFault>,
) -> Result<Answer<'w>, Status>
    ensures { (f : File) (meant : Result (List Change) Unmade) → Makes f meant made
        → Follows answer_of result (answering (reads name.now) (exactly (made_outcome f meant))) }
{
    match made {
        Ok(made) => {
            let text = made_text(alloc, &made.notes)?;
            Ok(Answer {
                text,
                store: Some(Store {
                    word: 1,
                    name,
                    bytes: made.bytes,
                }),
            })
        }
        Err(fault) => Err(unmade_status(fault)),
    }
}

/// The answer of an edit of the file that the bytes spell.
pub(crate) fn edit_file<'w>(
    alloc: Global,
    bytes: &[u8],
    name: &'w str,
    words: EditWords<'_>,
    tally: &mut Tally,
) -> Result<Answer<'w>, Status>
    requires short { length bytes.now ≤ file_limit }
    requires said { (e : TheEdit) × SaysEdit words e × IsWordEdit e }
    ensures meant { (e : TheEdit) (second : Loaded) → SaysEdit words.entry e → IsWordEdit e
        → Follows answer_of result (order_made_of (command (edits_file name.now e)) bytes.now second) }
    ensures works { (second : Loaded) → ReadsOne (over bytes.now second) tally.old tally.new }
{
    let parts = open(alloc, 1, bytes, &[MEMBER_FILE])?;
    if parts.head().mine.len() == 0 {
        return Err(Status::Member(MemberFault::Nobody));
    }
    let replica = replica_of(alloc, 1, parts, tally)?;
    let given = words.decode(alloc)?;
    let made = replica.edit(alloc, &words.edit(&given), tally);
    made_answer(alloc, name, made)
}
