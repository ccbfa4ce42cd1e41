//! Which changes go on waiting.

ghost use Rattle.std.specs.Prelude.{◌≡◌, IfOk, filter, length, map};
ghost use Rattle.std.specs.List.{AllByRecursion};
ghost use Rattle.model.specs.Base.{members};
ghost use Rattle.model.specs.Change.{IsChange};
ghost use Rattle.model.specs.Held.{Held, waits};
ghost use Rattle.causal_inbox.specs.Counted.{counted};

use lazy_blocks::{Block, Shelf};
use std::alloc::{AllocError, Global};
use version_vector::Vector;

/// Those of the waiting changes that still wait where so many changes of each member are held.
pub(crate) fn still_waiting<'a>(
    alloc: Global,
    waiting: &Shelf<'a>,
    held: &Vector,
) -> Result<Shelf<'a>, AllocError>
    requires { AllByRecursion (IsChange (length held.now)) waiting.now }
    ensures { (past : Held) → held.now ≡ map (λ m. (past.row m).count) (members (length held.now))
        → IfOk result (λ still. still ≡ filter (waits (length held.now) past) waiting.now) }
{
    let mut still = Shelf::new(alloc);
    'waiting: for i in 0..waiting.len() {
        let block = waiting.at(i);
        if waits(block, held) {
            still.push(block.copy())?;
        }
    }
    Ok(still)
}

/// Whether a change waits where so many changes of each member are held: it isn't among them, and isn't the next of its member or
/// lacks a cause.
fn waits(block: &Block<'_>, held: &Vector) -> bool
    requires { IsChange (length held.now) block.now }
    ensures { result ≡ waits (length held.now) (counted held.now) block.now }
{
    let head = block.head();
    let count = held.get(head.member);
    if head.number <= count {
        return false;
    }
    head.number - 1 != count || !held.at_least(&head.causes)
}
