//! Changes in the order of a file.

ghost use Rattle.std.specs.Prelude.{◌≡◌, ◌↔◌, ◌++◌, ◌+◌, ◌∷◌, [], ◌<◌, ◌≤◌, ◌^◌, ◌&&◌, ◌||◌, ◌==◌, nat_lt, length, IsTrue, OnOk, IfErr, MatchOption, slice_index, Some, None};
ghost use Rattle.std.specs.List.{last_or};
ghost use Rattle.model.specs.Change.{Change, IsChange, change_item};
ghost use Rattle.model.specs.Rules.{BreaksFirst, change_rules, F4, F5};
ghost use Rattle.model.specs.File.{KeepsPlace, IsLater, IsNextName, IsNextBehind};
ghost use Rattle.op_grammar.specs.Changes.{head_of};
ghost use Rattle.op_grammar.specs.Rules.{rule_of};
ghost use Rattle.replica.specs.Counts.{IsCounted};
ghost use Rattle.replica.specs.Heads.{base_by};

use crate::head::{BUNDLE, FileHead};
use lazy_blocks::{Block, Shelf};
use op_grammar::{Head, Rule};
use op_ids::Stamp;
use version_vector::Vector;

/// The head of the last change, if there is one.
pub(crate) fn last_head<'s>(shelf: &'s Shelf<'_>) -> Option<&'s Head>
    ensures { MatchOption result (last_or None shelf.now ≡ None)
        (λ head. (last : Change) × (last_or None shelf.now ≡ Some last) × (head.now ≡ head_of last)) }
{
    let len = shelf.len();
    if len == 0 {
        return None;
    }
    Some(shelf.at(len - 1).head())
}

/// The place of a change in the order of time and member.
fn stamp_of(head: &Head) -> Stamp
    ensures { result ≡ record { time = head.now.time; member = head.now.member } }
{
    Stamp {
        time: head.time,
        member: head.member,
    }
}

/// Whether the first change comes before the other by member and number.
fn is_name_before(first: &Head, other: &Head) -> bool
    ensures { result ≡ (nat_lt first.now.member other.now.member
        || (first.now.member == other.now.member && nat_lt first.now.number other.now.number)) }
{
    first.member < other.member || (first.member == other.member && first.number < other.number)
}

/// Whether a change comes after the last of these by time and member, if there is one.
fn is_later(kept: &Shelf<'_>, block: &Block<'_>) -> bool
    ensures { IsTrue result ↔ IsLater kept.now block.now }
{
    match last_head(kept) {
        None => true,
        Some(last) => stamp_of(last).is_before(stamp_of(block.head())),
    }
}

/// Whether a change comes after the last of these by member and number, if there is one.
pub(crate) fn is_next_name(waiting: &Shelf<'_>, block: &Block<'_>) -> bool
    ensures { IsTrue result ↔ IsNextName waiting.now block.now }
{
    match last_head(waiting) {
        None => true,
        Some(last) => is_name_before(last, block.head()),
    }
}

/// Whether a change is the next of its member, of whom so many are counted.
fn is_next(counts: &Vector, block: &Block<'_>) -> bool
    requires { block.now.member < length counts.now }
    ensures { IsTrue result ↔ (block.now.number ≡ slice_index counts.now block.now.member + 1) }
{
    let head = block.head();
    u64::from(head.number) == u64::from(counts.get(head.member)) + 1
}

/// Looks at the place of a change behind the kept ones, whose counts are given: by time and member, and, where the file is no
/// bundle, as the next of its member.
pub(crate) fn check_kept(
    block: &Block<'_>,
    head: &FileHead,
    kept: &Shelf<'_>,
    counts: &Vector,
) -> Result<(), Rule>
    requires few { head.now.doc.n ≤ 32 }
    requires change { IsChange head.now.doc.n block.now }
    requires counts { IsCounted head.now kept.now counts.now }
    ensures ok { OnOk result (IsLater kept.now block.now × IsNextBehind (base_by head.now) kept.now block.now) }
    ensures err { IfErr result (λ rule. BreaksFirst (KeepsPlace head.now.doc.n (IsLater kept.now) (IsNextBehind (base_by head.now) kept.now))
        (change_rules ++ F4 ∷ F5 ∷ []) (change_item block.now) (rule_of rule)) }
{
    if !is_later(kept, block) {
        return Err(Rule::F4);
    }
    if head.kind == BUNDLE {
        return Ok(());
    }
    if !is_next(counts, block) {
        return Err(Rule::F5);
    }
    Ok(())
}
