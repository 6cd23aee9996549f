//! Turns, and how functions are entered and left.

ghost use Rattle.std.specs.Prelude.{◌≡◌, IfOk};
ghost use Rattle.source_state.specs.RoomView.{core_of};
ghost use Rattle.source_state.specs.Steps.Calls.{begun, enter, leave, received};
ghost use Rattle.source_state.specs.Steps.Locals.{slot};

use crate::ends::Final;
use crate::room::Room;
use block_memory::{Access, Ptr, Value};
use c_meaning::Slot;
use lay_base::{NoMemory, Place, RoomKind};
use std::mem;

/// The greatest number of functions that are entered and not left.
const GREATEST_DEPTH: u64 = 100_000;

impl Room {
    /// The body of a loop begins.
    pub fn begin_body(&mut self, function: usize, number: u64) -> Result<(), Final>
        ensures { (result, core_of self.new) ≡ begun function number (core_of self.old) }
    {
        if self.turns == 0 {
            return Err(Final::TurnLimit);
        }
        self.turns -= 1;
        self.counts.begin(function, number);
        Ok(())
    }

    /// A function is entered.
    pub fn enter(&mut self, function: usize) -> Result<Result<(), Final>, NoMemory>
        ensures { IfOk result (λ r. (r, core_of self.new) ≡ enter function (core_of self.old)) }
    {
        if self.turns == 0 {
            return Ok(Err(Final::TurnLimit));
        }
        let depth = u64::from(self.depth) + 1;
        self.turns -= 1;
        if depth > GREATEST_DEPTH {
            return Ok(Err(Final::Room(RoomKind::Depth, depth)));
        }
        self.depth = depth as u32;
        self.counts.enter(function);
        Ok(Ok(()))
    }

    /// The locals of the function that runs become others; those that were there.
    pub fn exchange(&mut self, frame: Vec<Slot>) -> Vec<Slot>
        ensures was { result.items ≡ (core_of self.old).frame }
        ensures now { core_of self.new ≡ record (core_of self.old) { frame = frame.items } }
    {
        mem::replace(&mut self.frame, frame)
    }

    /// A function is left for its caller, with these locals.
    pub fn leave(&mut self, caller: Vec<Slot>)
        ensures { core_of self.new ≡ leave caller.items (core_of self.old) }
    {
        self.frame = caller;
        self.depth = self.depth.saturating_sub(1);
    }

    /// A parameter that has begun takes its argument.
    pub fn receive(
        &mut self,
        place: Place,
        local: u32,
        access: Access,
        v: Value,
    ) -> Result<(), Final>
        ensures { (result, core_of self.new) ≡ received place local access v (slot (core_of self.old) local) (core_of self.old) }
    {
        if let Some(Slot::InBlock(Some(block))) = self.slot(local) {
            match self.store(Ptr::Block(block, 0), access, v) {
                Ok(()) => Ok(()),
                Err(kind) => Err(Final::Undefined(kind, place)),
            }
        } else {
            self.set_slot(local, Slot::ByName(Some(v)));
            Ok(())
        }
    }
}
