//! What is kept, and the slots of the locals.

ghost use Rattle.std.specs.Prelude.{◌≡◌, ◌≤◌};
ghost use Rattle.block_memory.specs.RunWorlds.Worlds.{greatest_live, live_bytes};
ghost use Rattle.block_memory.specs.View.{memory_of};

use crate::counting::Counters;
use block_memory::Store;
use c_meaning::Slot;
use std::alloc::Global;

/// What a run keeps.
#[derive(Drop)]
pub struct Room {
    /// The locals of the function that runs.
    pub frame: Vec<Slot>,
    pub store: Store,
    /// The bytes of all blocks that live.
    pub live: u64,
    /// How many turns may still begin.
    pub turns: u64,
    /// How many functions were entered and not left.
    pub depth: u32,
    pub counts: Counters,
    ghost counted: { live ≡ live_bytes (memory_of store) },
    ghost few: { live ≤ greatest_live },
}

impl Room {
    ghost use Rattle.source_state.specs.CountsView.{counting_of};
    ghost use Rattle.source_state.specs.RoomView.{core_of, empty_core};
    ghost use Rattle.source_state.specs.Steps.Locals.{slot, with_slot};

    /// An empty room with these counts, where so many turns may begin.
    pub fn new(alloc: Global, turns: u64, counts: Counters) -> Room
        ensures { core_of result ≡ empty_core turns (counting_of counts) }
    {
        Room {
            frame: Vec::new(alloc),
            store: Store::new(alloc),
            live: 0,
            turns,
            depth: 0,
            counts,
        }
    }

    /// Takes a memory in place of what there was, with the bytes that live in it.
    pub fn take_store(&mut self, store: Store, live: u64)
        requires counted { live ≡ live_bytes (memory_of store) }
        requires few { live ≤ greatest_live }
        ensures { core_of self.new ≡ record (core_of self.old) { memory = memory_of store; live = live } }
    {
        self.store = store;
        self.live = live;
    }

    /// The slot of a local.
    pub fn slot(&self, local: u32) -> Option<Slot>
        ensures { result ≡ slot (core_of self.now) local }
    {
        self.frame.get(local as usize).copied()
    }

    /// Another slot of a local.
    pub fn set_slot(&mut self, local: u32, slot: Slot)
        ensures { core_of self.new ≡ with_slot local slot (core_of self.old) }
    {
        let local = local as usize;
        if local < self.frame.len() {
            self.frame[local] = slot;
        }
    }
}
