//! How far a ledger may be trimmed.

ghost use Rattle.std.specs.Prelude.{◌≡◌, ◌<◌, ◌++◌, ◌∷◌, [], ℕ, List, length};
ghost use Rattle.model.specs.Change.{Change};
ghost use Rattle.model.specs.Held.{Held};
ghost use Rattle.op_grammar.specs.Changes.{head_of};
ghost use Rattle.stability.specs.Horizons.{IsHorizon};
ghost use Rattle.stability.specs.Rows.{rows_in};

use crate::fronts::Fronts;
use op_grammar::Head;
use version_vector::Vector;

/// How far a ledger may be trimmed, by those of its changes that were passed. Takes no memory.
#[derive(Debug, Drop)]
pub struct Horizon {
    /// How many changes of each member all members are known to know.
    pub stable: Vector,
    /// The greatest time that no member's last change is before, and up to which all of the changes that were passed are
    /// known to all members.
    pub time: u64,
}

impl Horizon {
    /// The horizon of members before any change was passed: the least of the times of their last changes.
    pub fn of(fronts: &Fronts) -> Horizon
        ensures { (past : Held) → fronts.now ≡ rows_in (length fronts.now) past → IsHorizon (length fronts.now) past [] result }
    {
        let members = fronts.len();
        let mut time = fronts.last(0);
        for member in 0..members {
            time = time.min(fronts.last(member));
        }
        Horizon {
            stable: fronts.stable(),
            time,
        }
    }

    /// Passes a change: one that isn't known to all members has to stay.
    pub fn pass(&mut self, head: &Head)
        requires { head.now.member < length self.old.stable }
        ensures { (n : ℕ) (past : Held) (h : List Change) (c : Change) → IsHorizon n past h self.old → head.now ≡ head_of c
            → IsHorizon n past (h ++ c ∷ []) self.new }
    {
        if head.number > self.stable.get(head.member) {
            self.time = self.time.min(head.time.saturating_sub(1));
        }
    }
}
