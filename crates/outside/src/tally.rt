// A tally of the work that a run does.
ghost use Rattle.std.specs.Prelude.{◌≡◌};
ghost use Rattle.outside.specs.Faults.{raised};
ghost use Rattle.outside.specs.Work.{no_work};

use std::marker::Model;

/// Counts the moves that were made or undone, and the operations that were decoded.
///
/// A count stands still at 2^64 - 1. There is no clone, so that no work is counted aside.
#[derive(Debug, Drop)]
pub struct Tally {
    moves: u64,
    decoded: u64,
}

impl Model for Tally {
    ghost use Rattle.outside.specs.Work.{Work};

    ghost Value = { Work };

    ghost view = { λ t. record { moves = t.moves; decoded = t.decoded } };
}

impl Tally {
    /// A tally with both counts 0.
    pub fn new() -> Tally
        ensures { result ≡ no_work }
    {
        Tally {
            moves: 0,
            decoded: 0,
        }
    }

    /// How many moves were made or undone.
    pub fn moves(&self) -> u64
        ensures { result ≡ self.now.moves }
    {
        self.moves
    }

    /// How many operations were decoded.
    pub fn decoded(&self) -> u64
        ensures { result ≡ self.now.decoded }
    {
        self.decoded
    }

    /// Counts one more move.
    pub fn tick_move(&mut self)
        ensures { self.new ≡ record self.old { moves = raised self.old.moves } }
    {
        self.moves = self.moves.saturating_add(1);
    }

    /// Counts one more decoded operation.
    pub fn tick_decoded(&mut self)
        ensures { self.new ≡ record self.old { decoded = raised self.old.decoded } }
    {
        self.decoded = self.decoded.saturating_add(1);
    }
}
