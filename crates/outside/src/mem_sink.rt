ghost use Rattle.std.specs.Prelude.{◌≡◌, IfOk, IsOk, is_ok};

use crate::plan::FaultPlan;
use crate::prefix::prefix_of;
use crate::sink::{Sink, SinkFault};
use gfx_base::Memory;
use std::alloc::Global;
use std::marker::Model;

/// Bytes in memory. A write that is to fail and a byte past the greatest number are counted faults.
#[derive(Drop)]
pub struct MemSink {
    bytes: Vec<u8>,
    most: usize,
    plan: FaultPlan,
    faults: u64,
}

impl Model for MemSink {
    ghost use Rattle.std.specs.Prelude.{◌≤◌, vec_len, vec_capacity};
    ghost use Rattle.outside.specs.SinkContents.{SinkContents};

    ghost Value = { SinkContents };

    ghost view = { λ sink. record {
      bytes = sink.bytes.items;
      most = sink.most;
      plan = sink.plan;
      faults = sink.faults;
    } };

    ghost invariant = { λ sink. (vec_len sink.bytes ≤ sink.most)
        × (sink.most ≤ vec_capacity sink.bytes) };
}

impl MemSink {
    ghost use Rattle.outside.specs.SinkContents.{new_sink};

    /// A sink for `most` bytes, for which it takes the room. `failing` are the numbers, from 0 on,
    /// of the writes that are to fail.
    pub fn new(alloc: Global, most: usize, failing: Vec<u64>) -> Result<MemSink, Memory>
        ensures made { IfOk result (λ sink. sink ≡ new_sink most failing.items) }
        ensures nothing_to_take { most ≡ 0 → IsOk result }
    {
        let Ok(bytes) = Vec::with_capacity(alloc, most) else {
            return Err(Memory);
        };
        Ok(MemSink {
            bytes,
            most,
            plan: FaultPlan::new(failing),
            faults: 0,
        })
    }

    /// What was written.
    pub fn bytes(&self) -> &[u8]
        ensures { result.now ≡ self.now.bytes }
    {
        &self.bytes
    }
}

impl Sink for MemSink {
    ghost use Rattle.outside.specs.Logs.{Wrote};
    ghost use Rattle.outside.specs.SinkContents.{takes, after_write, log_of_sink};

    ghost log = { log_of_sink };

    fn write(&mut self, piece: &[u8]) -> Result<(), SinkFault>
        // What each sink promises.
        ensures wrote { Wrote result (log_of_sink self.old) (log_of_sink self.new) piece.now }

        // It is written whole just where the write isn't to fail and the piece fits.
        ensures whole { is_ok result ≡ takes self.old piece.now }
        ensures after { self.new ≡ after_write self.old piece.now }
    {
        let is_to_fail = self.plan.next_fails();
        let room = if is_to_fail {
            0
        } else {
            self.most - self.bytes.len()
        };
        // The room was taken when the sink was made, so this can't fail.
        let _ = self.bytes.extend_from_slice(prefix_of(piece, room));
        if is_to_fail || room < piece.len() {
            self.faults = self.faults.saturating_add(1);
            return Err(SinkFault);
        }
        Ok(())
    }

    fn faults(&self) -> u64 {
        self.faults
    }
}
