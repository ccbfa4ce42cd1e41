//! The document of a file, shown.

ghost use Rattle.std.specs.Prelude.{◌≤◌, ℕ, List, length};
ghost use Rattle.model.specs.Command.{show as shows};
ghost use Rattle.model.specs.File.{file_limit};
ghost use Rattle.outline_words.specs.Table.{command};
ghost use Rattle.outline_meaning.specs.Meaning.{Loaded};
ghost use Rattle.outline_meaning.specs.Follows.{Follows};
ghost use Rattle.outline_cmd.specs.Stages.{answer_of};
ghost use Rattle.outline_cmd.specs.Tasks.{order_made_of, over};
ghost use Rattle.outline_meaning.specs.Works.{ReadsOne};

use crate::answer::Answer;
use crate::opened::{open, replica_of};
use outline_meaning::Status;
use outline_show::show_text;
use outside::Tally;
use replica::{MEMBER_FILE, SNAPSHOT};
use std::alloc::Global;

/// The kinds of files that have a base.
const BASED_FILES: [u8; 2] = [MEMBER_FILE, SNAPSHOT];

/// The answer of `show` over the bytes of a file.
pub(crate) fn show_file<'w>(
    alloc: Global,
    bytes: &[u8],
    tally: &mut Tally,
) -> Result<Answer<'w>, Status>
    requires { length bytes.now ≤ file_limit }
    ensures meant { (name : List ℕ) (second : Loaded)
        → Follows answer_of result (order_made_of (command (shows name)) bytes.now second) }
    ensures works { (second : Loaded) → ReadsOne (over bytes.now second) tally.old tally.new }
{
    let parts = open(alloc, 1, bytes, &BASED_FILES)?;
    let replica = replica_of(alloc, 1, parts, tally)?;
    let view = replica.into_doc(tally)?.view()?;
    let text = show_text(alloc, &view)?;
    Ok(Answer { text, store: None })
}
