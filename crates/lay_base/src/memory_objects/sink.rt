//! `MemSink`: a sink into memory.

ghost use Rattle.std.specs.Prelude.{◌≡◌, ◌≤◌, ◌<◌, ◌+◌, ◌^◌, [], ◌++◌, length, take, IfOk, OnOk, is_err};

use crate::list::List;
use crate::memory_objects::plan::Plan;
use crate::no_memory::{NoMemory, with_capacity};
use crate::outside::{Sink, SinkFault};
use std::alloc::Global;
use std::marker::Model;

/// A sink that keeps what is written. Its room is taken when it is made, so `put` takes no memory.
#[derive(Drop)]
pub struct MemSink {
    bytes: Vec<u8>,
    room: usize,
    plan: Plan,
}

impl Model for MemSink {
    ghost use Rattle.std.specs.Prelude.{◌≤◌, vec_len, vec_capacity};
    ghost use Rattle.lay_base.specs.MemoryObjects.{MemorySink};

    ghost Value = { MemorySink };

    ghost view = { λ s. record { written = s.bytes.items; room = s.room; plan = s.plan } };

    ghost invariant = { λ s. (vec_len s.bytes ≤ s.room) × (s.room ≤ vec_capacity s.bytes) };
}

impl MemSink {
    ghost use Rattle.lay_base.specs.MemoryObjects.{plan_of};

    /// A sink with room for that many bytes, whose calls with these numbers fail. The first
    /// call is 1. A room that no vector can have is want of memory too.
    pub fn with_room(alloc: Global, room: u64, fails: List<u64>) -> Result<MemSink, NoMemory>
        ensures empty { IfOk result (λ sink. sink ≡ record { written = []; room = room; plan = plan_of fails }) }
        ensures small { OnOk result (room < 2 ^ 63) }
    {
        let room = room as usize;
        let bytes = with_capacity(alloc, room)?;
        Ok(MemSink {
            bytes,
            room,
            plan: Plan::new(fails),
        })
    }

    /// The bytes that were written.
    pub fn bytes(&self) -> &[u8]
        ensures { result.now ≡ self.now.written }
    {
        self.bytes.as_slice()
    }
}

impl Sink for MemSink {
    ghost use Rattle.std.specs.Prelude.{Some, nat_lt, ◌||◌};
    ghost use Rattle.lay_base.specs.Calls.{PutGives};
    ghost use Rattle.lay_base.specs.MemoryObjects.{called, fails_next, kept_of};

    ghost faults = { λ s. s.plan.faults };

    ghost written = { λ s. Some s.written };

    /// A call that is to fail keeps the first half of the piece, rounded down, and one past the
    /// room fails and keeps what fits.
    fn put(&mut self, piece: &[u8]) -> Result<(), SinkFault>
        ensures count { self.old.plan.faults ≤ self.new.plan.faults }
        ensures gives { PutGives self.old.plan.faults self.new.plan.faults (Some self.old.written) (Some self.new.written) piece.now result }
        ensures fails { is_err result ≡ (fails_next self.old.plan || nat_lt self.old.room (length self.old.written + length piece.now)) }
        ensures after { self.new ≡ record self.old {
          written = self.old.written ++ take (kept_of self.old piece.now) piece.now;
          plan = called self.old.plan (is_err result);
        } }
    {
        let to_fail = self.plan.call();
        let wanted = if to_fail {
            piece.len() / 2
        } else {
            piece.len()
        };
        let left = self.room - self.bytes.len();
        let stored = self.bytes.extend_from_slice(&piece[..wanted.min(left)]);
        if stored.is_err() || to_fail || left < piece.len() {
            self.plan.fail();
            return Err(SinkFault);
        }
        Ok(())
    }
}
