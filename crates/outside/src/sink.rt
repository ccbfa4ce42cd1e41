// Where text is printed.
ghost use Rattle.std.specs.Prelude.{◌≡◌, ℕ, List, ◌<◌, ◌≤◌, length, Option, IfOk};
ghost use Rattle.outside.specs.Faults.{HasCause};
ghost use Rattle.outside.specs.Sink.{written_after};

/// A put that wrote nothing.
#[derive(Clone, Copy, Debug, PartialEq, Eq)]
pub struct SinkFailed;

/// Takes bytes, one piece after another.
///
/// It may tell what it has taken, and always counts its faults.
pub trait Sink {
    /// The bytes that were put so far, where the sink tells them.
    ghost written: { Self → Option (List ℕ) };

    /// How often a put has failed.
    ghost faults: { Self → ℕ };

    /// Appends bytes from the front of the piece, at least one, and says how many. After an `Err` nothing was appended.
    fn put(&mut self, piece: &[u8]) -> Result<usize, SinkFailed>
        requires { 0 < length piece.now }
        ensures some { IfOk result (λ n. 0 < n) }
        ensures bound { IfOk result (λ n. n ≤ length piece.now) }
        ensures written { written self.new ≡ written_after (written self.old) piece.now result }
        ensures cause { HasCause (record {}) (faults self.old) (faults self.new) result };
}
