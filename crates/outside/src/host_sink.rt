// Standard output as a sink.
ghost use Rattle.std.specs.Prelude.{◌≡◌, ◌<◌, ◌≤◌, length, None, IfOk};
ghost use Rattle.outside.specs.Faults.{counted};

use crate::sink::{Sink, SinkFailed};
use std::marker::Model;

/// The standard output of a runtime. It tells nothing of what it wrote, and counts its faults.
pub struct HostSink<'r, R> {
    rt: &'r R,
    faults: u64,
}

impl<'r, R> Model for HostSink<'r, R> {
    ghost use Rattle.std.specs.Prelude.{ℕ};

    ghost Value = { ℕ };

    ghost view = { λ s. s.faults };
}

impl<R> Drop for HostSink<'_, R> {
    fn drop(self) {
        let HostSink { rt: _, faults: _ } = self;
    }
}

impl<'r, R: Print> HostSink<'r, R> {
    /// A sink that has not failed yet.
    pub fn new(rt: &'r R) -> HostSink<'r, R>
        ensures { result ≡ 0 }
    {
        HostSink { rt, faults: 0 }
    }
}

impl<R: Print> Sink for HostSink<'_, R> {
    ghost written = { λ _. None };

    ghost faults = { λ s. s };

    /// Writes once. A write that takes no byte is a fault, and so is one that the system refuses.
    fn put(&mut self, piece: &[u8]) -> Result<usize, SinkFailed>
        ensures some { IfOk result (λ n. 0 < n) }
        ensures bound { IfOk result (λ n. n ≤ length piece.now) }
        ensures faults { self.new ≡ counted self.old result }
    {
        match self.rt.write_some(piece) {
            Ok(count) if count > 0 => Ok(count),
            _ => {
                self.faults = self.faults.saturating_add(1);
                Err(SinkFailed)
            }
        }
    }
}
