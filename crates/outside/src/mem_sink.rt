// A sink in memory.
ghost use Rattle.std.specs.Prelude.{◌≡◌, ◌-◌, ◌↔◌, min, length, [], Some, IfOk, IsErr};
ghost use Rattle.outside.specs.Plan.{new_plan};
ghost use Rattle.outside.specs.Printed.{RefusesNext, after_put};

use crate::plan::FaultPlan;
use crate::sink::{Sink, SinkFailed};
use std::alloc::{AllocError, Global};
use std::marker::Model;

/// A sink that holds what it is given, up to a number of bytes, and fails where it is told to.
///
/// Its puts are numbered from 0. A put that is to fail raises the count of faults, and so does one that finds no room.
#[derive(Drop)]
pub struct MemSink {
    bytes: Vec<u8>,
    room: usize,
    puts: FaultPlan,
}

impl Model for MemSink {
    ghost use Rattle.std.specs.Prelude.{vec_len, vec_capacity, ◌≤◌};
    ghost use Rattle.outside.specs.Printed.{Printed};

    ghost Value = { Printed };

    ghost view = { λ s. record { bytes = s.bytes.items; room = s.room; puts = s.puts } };

    ghost invariant = { λ s. (vec_len s.bytes ≤ s.room) × (s.room ≤ vec_capacity s.bytes) };
}

impl MemSink {
    /// An empty sink for `room` bytes, whose puts with the numbers in `fail` are to fail.
    pub fn new(alloc: Global, room: usize, fail: &[u64]) -> Result<MemSink, AllocError>
        ensures { IfOk result (λ sink. sink ≡ record { bytes = []; room = room; puts = new_plan fail.now }) }
    {
        Ok(MemSink {
            bytes: Vec::with_capacity(alloc, room)?,
            room,
            puts: FaultPlan::new(alloc, fail)?,
        })
    }

    /// All that was put so far.
    pub fn bytes(&self) -> &[u8]
        ensures { result.now ≡ self.now.bytes }
    {
        &self.bytes
    }
}

impl Sink for MemSink {
    ghost written = { λ s. Some s.bytes };

    ghost faults = { λ s. s.puts.faults };

    /// Appends as much of the piece as there is room for. Takes no memory.
    fn put(&mut self, piece: &[u8]) -> Result<usize, SinkFailed>
        ensures fails { IsErr result ↔ RefusesNext self.old }
        ensures count { IfOk result (λ n. n ≡ min (length piece.now) (self.old.room - length self.old.bytes)) }
        ensures after { self.new ≡ after_put self.old piece.now result }
    {
        let room = self.room - self.bytes.len();
        if room == 0 || self.puts.fails_next() {
            self.puts.fail();
            return Err(SinkFailed);
        }
        let count = piece.len().min(room);
        match self.bytes.extend_from_slice(&piece[..count]) {
            Ok(()) => {
                self.puts.pass();
                Ok(count)
            }
            Err(_) => unreachable!(),
        }
    }
}
