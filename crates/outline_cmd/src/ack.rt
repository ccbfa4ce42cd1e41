//! Acknowledgements: a change without operations by each member that a file holds.

ghost use Rattle.std.specs.Prelude.{◌≤◌, length};
ghost use Rattle.model.specs.Command.{ack as acknowledges};
ghost use Rattle.model.specs.File.{file_limit};
ghost use Rattle.outline_words.specs.Table.{command};
ghost use Rattle.outline_meaning.specs.Meaning.{Loaded};
ghost use Rattle.outline_meaning.specs.Follows.{Follows};
ghost use Rattle.outline_cmd.specs.Stages.{answer_of};
ghost use Rattle.outline_cmd.specs.Tasks.{order_made_of};

use crate::answer::Answer;
use crate::edit::made_answer;
use crate::opened::open;
use member_replica::ack;
use outline_meaning::Status;
use replica::MEMBER_FILE;
use std::alloc::Global;

/// The answer of an acknowledgement of the file that the bytes spell.
pub(crate) fn ack_file<'w>(alloc: Global, bytes: &[u8], name: &'w str) -> Result<Answer<'w>, Status>
    requires { length bytes.now ≤ file_limit }
    ensures { (second : Loaded) → Follows answer_of result
        (order_made_of (command (acknowledges name.now)) bytes.now second) }
{
    let parts = open(alloc, 1, bytes, &[MEMBER_FILE])?;
    made_answer(alloc, name, ack(alloc, parts))
}
