//! Heads of changes in print.

ghost use Rattle.std.specs.Prelude.{◌≡◌, IfOk, codes, cond};
ghost use Rattle.model.specs.Change.{Change};
ghost use Rattle.model.specs.Text as printed;
ghost use Rattle.op_grammar.specs.Changes.{head_of};

use cbor_det::OwnText;
use op_grammar::Head;
use std::alloc::{AllocError, Global};

/// The line of a change in `log`: what its head says, behind `waits` where the change waits for others, and else behind
/// `change`. Fails only where memory runs out.
pub fn log_line(alloc: Global, head: &Head, waits: bool) -> Result<OwnText, AllocError>
    ensures { (c : Change) → head.now ≡ head_of c
        → IfOk result (λ text. text ≡ printed.head_line (cond waits (codes "waits") (codes "change")) c) }
{
    let word = first_word(waits);
    let causes = head.causes.text()?;
    let text = format!(in alloc;
        "{word} {} {} {} causes {causes} count {} width {}\n",
        head.member, head.number, head.time, head.count, head.width
    )?;
    Ok(OwnText::from_string(text))
}

// The word before the head of a change.
fn first_word(waits: bool) -> &'static str
    ensures { result.now ≡ cond waits (codes "waits") (codes "change") }
{
    if waits { "waits" } else { "change" }
}
