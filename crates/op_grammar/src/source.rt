//! Operations one by one.

ghost use Rattle.std.specs.Prelude.{◌≡◌, List};
ghost use Rattle.model.specs.State.{Atom};
ghost use Rattle.op_grammar.specs.Sources.{HandsOut, work_after};

use crate::operation::OpRef;
use op_ids::OpId;
use outside::Tally;

/// Hands out operations with their ids, one after the other. It takes no memory.
pub trait OpSource<'a> {
    /// The operations that are left, each with its id.
    ghost left: { Self → List Atom };

    /// The next operation, which the tally counts as decoded, or `None` exactly where none is left.
    fn next_op(&mut self, tally: &mut Tally) -> Option<(OpId, OpRef<'a>)>
        ensures handed { HandsOut (left self.old) (left self.new) result }
        ensures counted { tally.new ≡ work_after tally.old result };
}
