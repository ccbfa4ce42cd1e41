//! Heads of changes, and what of a change they tell.

ghost use Rattle.std.specs.Prelude.{◌≡◌, ◌++◌, ◌<◌, ◌≤◌, ◌^◌, ℕ, List, length, OnOk, IfErr, Some, IfSome};
ghost use Rattle.cbor_det.specs.Item.{Item, IsItem, IsSpelled, spell};
ghost use Rattle.cbor_det.specs.Unread.{unread};
ghost use Rattle.model.specs.Value.{numbers_item};
ghost use Rattle.model.specs.Change.{ChangeParts, parts_item};
ghost use Rattle.model.specs.Rules.{BreaksFirst, KeepsChange};
ghost use Rattle.op_grammar.specs.Rules.{rule_of};
ghost use Rattle.op_grammar.specs.Changes.{HeadAnswer, head_rules};
ghost use Rattle.op_grammar.specs.Parts.{BeginsWith, CausesAnswer, ReadsCounts, PartsAnswer, SaidAnswer};

use crate::fields::{read_number, read_row};
use crate::parts::{Parts, read_parts};
use crate::rule::Rule;
use cbor_det::Cursor;
use op_ids::MAX_TIME;
use std::alloc::Global;
use version_vector::Vector;

/// What a change says but for its operations.
#[derive(Debug, Drop)]
pub struct Head {
    /// Who made it, from 0.
    pub member: u8,
    /// Which of its member's changes it is, from 1.
    pub number: u32,
    /// Its time, greater than those of all changes that its member knew.
    pub time: u64,
    /// How many changes of each member its member knew.
    pub causes: Vector,
    /// How many operations it has.
    pub count: u32,
    /// How many ids they take.
    pub width: u32,
}

/// A head as it is read, its count and width of any size, and the body behind it.
#[derive(Drop)]
pub(crate) struct Said<'a> {
    pub member: u8,
    pub number: u32,
    pub time: u64,
    pub causes: Vector,
    pub count: u64,
    pub width: u64,
    pub body: &'a [u8],
}

/// The greatest number of a change, and the greatest count.
const MAX_NUMBER: u64 = 4_294_967_295;

/// The head of a change of a document of n members, and its body, of which nothing is asked. Of a count that no head
/// holds it says that it breaks G6, and of a width that it breaks G7; else a rule is the first that the head breaks.
/// The allocator is for the causes, which take no memory.
pub fn read_head<'a>(alloc: Global, span: &'a [u8], n: u8) -> Result<(Head, &'a [u8]), Rule>
    requires some { 0 < n }
    requires few { n ≤ 32 }
    ensures { (x : Item) → IsSpelled x → span.now ≡ spell x → HeadAnswer n x result }
{
    let said = read_said(alloc, span, n)?;
    if said.count > MAX_NUMBER {
        return Err(Rule::G6);
    }
    if said.width > MAX_NUMBER {
        return Err(Rule::G7);
    }
    let body = said.body;
    Ok((head_of(said), body))
}

/// The head alone.
pub(crate) fn head_of(said: Said<'_>) -> Head
    requires count { said.count < 2 ^ 32 }
    requires width { said.width < 2 ^ 32 }
    ensures { result ≡ record { member = said.entry.member; number = said.entry.number; time = said.entry.time; causes = said.entry.causes; count = said.entry.count; width = said.entry.width } }
{
    Head {
        member: said.member,
        number: said.number,
        time: said.time,
        causes: said.causes,
        count: said.count as u32,
        width: said.width as u32,
    }
}

/// Reads a head and looks at its rules.
pub(crate) fn read_said<'a>(alloc: Global, span: &'a [u8], n: u8) -> Result<Said<'a>, Rule>
    requires some { 0 < n }
    requires few { n ≤ 32 }
    ensures { (x : Item) → IsSpelled x → span.now ≡ spell x → SaidAnswer n x result }
{
    let mut cursor = Cursor::new(span);
    match read_parts(&mut cursor) {
        Some(parts) => check_head(alloc, parts, n),
        None => Err(Rule::G1),
    }
}

/// What the parts of a change say as a head, or the first rule that it breaks.
pub(crate) fn check_head<'a>(alloc: Global, parts: Parts<'a>, n: u8) -> Result<Said<'a>, Rule>
    requires some { 0 < n }
    requires few { n ≤ 32 }
    ensures { (x : Item) → PartsAnswer (Some parts.entry) x → SaidAnswer n x result }
{
    check_numbers(parts.member, parts.number, parts.time, n)?;
    let member = parts.member as u8;
    let number = parts.number as u32;
    let Some(causes) = read_causes(alloc, parts.causes, n) else {
        return Err(Rule::G5);
    };
    if causes.get(member) != number - 1 {
        return Err(Rule::G5);
    }
    Ok(Said {
        member,
        number,
        time: parts.time,
        causes,
        count: parts.count,
        width: parts.width,
        body: parts.body,
    })
}

/// Looks at the member, the number and the time of a change.
#[tactic(auto, using(crate::proofs::HeadLaws::number_laws))]
fn check_numbers(member: u64, number: u64, time: u64, n: u8) -> Result<(), Rule>
    ensures ok { OnOk result ((member < n) × (1 ≤ number) × (number < 2 ^ 32) × (1 ≤ time) × (time < 2 ^ 48)) }
    ensures err { IfErr result (λ rule. (p : ChangeParts) → BeginsWith member number time p → BreaksFirst (KeepsChange n) head_rules (parts_item p) (rule_of rule)) }
{
    if member >= u64::from(n) {
        return Err(Rule::G2);
    }
    if number == 0 || number > MAX_NUMBER {
        return Err(Rule::G3);
    }
    if time == 0 || time > MAX_TIME {
        return Err(Rule::G4);
    }
    Ok(())
}

/// The causes, where they are n counts of 32 bits.
fn read_causes(alloc: Global, causes: Cursor<'_>, n: u8) -> Option<Vector>
    requires some { 0 < n }
    requires few { n ≤ 32 }
    ensures sizes { IfSome result (λ v. length v ≡ n) }
    ensures numbers { (ns more : List ℕ) → IsItem (numbers_item ns) → (unread causes.entry).rest ≡ spell (numbers_item ns) ++ more → CausesAnswer n ns result }
{
    let mut causes = causes;
    let count = read_row(&mut causes)?;
    if count != u64::from(n) {
        return None;
    }
    read_counts(alloc, &mut causes, n)
}

/// So many counts, where they have 32 bits.
fn read_counts(alloc: Global, causes: &mut Cursor<'_>, n: u8) -> Option<Vector>
    requires some { 0 < n }
    requires few { n ≤ 32 }
    ensures sizes { IfSome result (λ v. length v ≡ n) }
    ensures numbers { ReadsCounts n (unread causes.old) result }
{
    let mut counts = Vector::zero(alloc, n);
    for member in 0..n {
        let count = read_number(causes)?;
        if count > MAX_NUMBER {
            return None;
        }
        counts.raise(member, count as u32);
    }
    Some(counts)
}
