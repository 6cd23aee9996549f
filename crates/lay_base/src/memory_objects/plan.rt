//! Which calls of an object in memory fail.

use crate::list::List;

/// The calls of an object that are to fail, and counts of its calls and of those that failed.
/// A count stops at `u64::MAX`.
#[derive(Drop)]
pub struct Plan {
    /// The numbers of the calls that are to fail. The first call is 1.
    pub fails: List<u64>,
    /// How many calls there were.
    pub calls: u64,
    /// How many of them failed.
    pub faults: u64,
}

impl Plan {
    ghost use Rattle.std.specs.Prelude.{◌≡◌, ◌≤◌, false};
    ghost use Rattle.lay_base.specs.Known.{raised};
    ghost use Rattle.lay_base.specs.MemoryObjects.{called, fails_next, plan_of};

    /// A plan before the first call.
    pub fn new(fails: List<u64>) -> Plan
        ensures { result ≡ plan_of fails }
    {
        Plan {
            fails,
            calls: 0,
            faults: 0,
        }
    }

    /// Counts a call, and says whether it is to fail.
    pub fn call(&mut self) -> bool
        ensures to_fail { result ≡ fails_next self.old }
        ensures counted { self.new ≡ called self.old false }
    {
        self.calls = self.calls.saturating_add(1);
        self.fails.as_slice().contains(&self.calls)
    }

    /// Counts the call as failed.
    pub fn fail(&mut self)
        ensures counted { self.new ≡ record self.old { faults = raised self.old.faults } }
        ensures risen { self.old.faults ≤ self.new.faults }
    {
        self.faults = self.faults.saturating_add(1);
    }
}
