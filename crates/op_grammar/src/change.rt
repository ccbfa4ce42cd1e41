//! The writer of changes.

ghost use Rattle.std.specs.Prelude.{◌≡◌, ◌++◌, length, OnOk, OnErr, Err};
ghost use Rattle.cbor_det.specs.Item.{spell};
ghost use Rattle.model.specs.Change.{IsChange, change_item, parts_item, body as body_of};
ghost use Rattle.model.specs.Rules.{BreaksFirst, KeepsChange, change_rules};
ghost use Rattle.op_grammar.specs.Rules.{rule_of};
ghost use Rattle.op_grammar.specs.Operations.{operations_of};
ghost use Rattle.op_grammar.specs.Changes.{change_of, head_of, parts_by};
ghost use Rattle.op_grammar.specs.declared.rule.Rule.{Rule as TheRule};
ghost use Rattle.op_grammar.specs.declared.change.WriteFault.TheVariants as faults;

use crate::check::check_change;
use crate::head::Head;
use crate::operation::OpPlan;
use crate::rule::Rule;
use crate::spelling::{spell_body, spell_change};
use std::alloc::AllocError;

/// Why a change wasn't written.
#[derive(Clone, Copy, Debug, PartialEq, Eq)]
pub enum WriteFault {
    /// It breaks this rule, and none before it.
    Rule(Rule),
    /// There was no memory.
    NoMemory,
}

impl From<AllocError> for WriteFault {
    ghost from_gives = { λ _ e. e ≡ faults.NoMemory };

    fn from(_e: AllocError) -> WriteFault {
        WriteFault::NoMemory
    }
}

impl From<Rule> for WriteFault {
    ghost from_gives = { λ rule e. e ≡ faults.Rule rule };

    fn from(rule: Rule) -> WriteFault {
        WriteFault::Rule(rule)
    }
}

/// Appends the change that has this head and these operations, or nothing where its item breaks a rule or memory is
/// refused. The rules are those of `check_change`, in a document of as many members as the head has causes.
pub fn write_change(out: &mut Vec<u8>, head: &Head, ops: &OpPlan<'_>) -> Result<(), WriteFault>
    ensures ok { OnOk result (out.new.items ≡ out.old.items ++ spell (change_item (change_of head.now (operations_of ops.now)))) }
    ensures kept { OnOk result (IsChange (length head.now.causes) (change_of head.now (operations_of ops.now))) }
    ensures head { OnOk result (head.now ≡ head_of (change_of head.now (operations_of ops.now))) }
    ensures rule { (rule : TheRule) → result ≡ Err (faults.Rule rule)
        → BreaksFirst (KeepsChange (length head.now.causes)) change_rules (parts_item (parts_by head.now (body_of (operations_of ops.now)))) (rule_of rule) }
    ensures err { OnErr result (out.new.items ≡ out.old.items) }
{
    let alloc = *out.allocator();
    let body = spell_body(alloc, ops.as_slice())?;
    let change = spell_change(alloc, head, &body)?;
    check_change(alloc, &change, head.causes.len())?;
    out.extend_from_slice(&change)?;
    Ok(())
}
