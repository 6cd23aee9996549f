//! `MemSource`: a source over bytes in memory.

ghost use Rattle.std.specs.Prelude.{◌≡◌, ◌≤◌, is_err};

use crate::bytes::Bytes;
use crate::list::List;
use crate::memory_objects::plan::Plan;
use crate::outside::{Source, SourceFault};
use std::marker::Model;

/// A source that gives the bytes it was made of. It takes no memory.
#[derive(Drop)]
pub struct MemSource {
    bytes: Bytes,
    at: usize,
    plan: Plan,
}

impl Model for MemSource {
    ghost use Rattle.std.specs.Prelude.{◌≤◌, drop, length};
    ghost use Rattle.lay_base.specs.MemoryObjects.{MemorySource};

    ghost Value = { MemorySource };

    ghost view = { λ s. record { left = drop s.at s.bytes; plan = s.plan } };

    ghost invariant = { λ s. s.at ≤ length s.bytes };
}

impl MemSource {
    ghost use Rattle.lay_base.specs.MemoryObjects.{plan_of};

    /// A source of these bytes, whose calls with these numbers fail. The first call is 1.
    pub fn new(bytes: Bytes, fails: List<u64>) -> MemSource
        ensures { result ≡ record { left = bytes; plan = plan_of fails } }
    {
        MemSource {
            bytes,
            at: 0,
            plan: Plan::new(fails),
        }
    }
}

impl Source for MemSource {
    ghost use Rattle.std.specs.Prelude.{Some};
    ghost use Rattle.lay_base.specs.Calls.{NextGives};
    ghost use Rattle.lay_base.specs.MemoryObjects.{called, fails_next};

    ghost faults = { λ s. s.plan.faults };

    ghost left = { λ s. Some s.left };

    fn next(&mut self) -> Result<Option<u8>, SourceFault>
        ensures count { self.old.plan.faults ≤ self.new.plan.faults }
        ensures gives { NextGives self.old.plan.faults self.new.plan.faults (Some self.old.left) (Some self.new.left) result }
        ensures fails { is_err result ≡ fails_next self.old.plan }
        ensures plan { self.new.plan ≡ called self.old.plan (is_err result) }
    {
        if self.plan.call() {
            self.plan.fail();
            return Err(SourceFault);
        }
        let next = self.bytes.as_slice().get(self.at).copied();
        if next.is_some() {
            self.at += 1;
        }
        Ok(next)
    }
}
