// Which calls of one kind are to fail, for what stands in for the outside in memory.
ghost use Rattle.std.specs.Prelude.{◌≡◌, ◌↔◌, IfOk, IsTrue};
ghost use Rattle.outside.specs.Plan.{new_plan, FailsNext, passed, failed};

use std::alloc::{AllocError, Global};
use std::marker::Model;

/// The numbers of the calls that are to fail, and a count of the calls and of the faults so far.
#[derive(Drop)]
pub struct FaultPlan {
    failing: Vec<u64>,
    next: u64,
    faults: u64,
}

impl Model for FaultPlan {
    ghost use Rattle.outside.specs.Plan.{Plan};

    ghost Value = { Plan };

    ghost view = { λ p. record { failing = p.failing.items; next = p.next; faults = p.faults } };
}

impl FaultPlan {
    /// A plan before its first call.
    pub fn new(alloc: Global, failing: &[u64]) -> Result<FaultPlan, AllocError>
        ensures { IfOk result (λ plan. plan ≡ new_plan failing.now) }
    {
        Ok(FaultPlan {
            failing: Vec::from_slice(alloc, failing)?,
            next: 0,
            faults: 0,
        })
    }

    /// Whether the next call is to fail.
    pub fn fails_next(&self) -> bool
        ensures { IsTrue result ↔ FailsNext self.now }
    {
        self.failing.contains(&self.next)
    }

    /// Counts a call that is no fault.
    pub fn pass(&mut self)
        ensures { self.new ≡ passed self.old }
    {
        self.next = self.next.saturating_add(1);
    }

    /// Counts a call that is a fault.
    pub fn fail(&mut self)
        ensures { self.new ≡ failed self.old }
    {
        self.next = self.next.saturating_add(1);
        self.faults = self.faults.saturating_add(1);
    }
}
