//! The slots of all blocks.

ghost use Rattle.std.specs.Prelude.{◌≡◌, ◌<◌, ◌^◌, [], ◌∷◌, ◌++◌, length, slice_set, MatchResult};
ghost use Rattle.block_memory.specs.Slots.{slot_at};

use crate::kinds::BlockKind;
use crate::slot::{CompactSlot, Slot, compact, expanded};
use lay_base::{NoMemory, push};
use std::alloc::Global;
use std::marker::Model;

/// What is kept of each block, in the order of their numbers.
#[derive(Drop)]
pub(crate) struct Slots {
    items: Vec<CompactSlot>,
}

impl Model for Slots {
    ghost use Rattle.std.specs.Prelude.{List, map};
    ghost use Rattle.block_memory.specs.declared.slot.Slot.{Slot};
    ghost use Rattle.block_memory.specs.Slots.{expanded};

    ghost Value = { List Slot };

    ghost view = { λ slots. map expanded slots.items.items };
}

impl Slots {
    /// None.
    pub(crate) fn new(alloc: Global) -> Slots
        ensures { result ≡ [] }
    {
        Slots {
            items: Vec::new(alloc),
        }
    }

    /// How many blocks there are.
    pub(crate) fn len(&self) -> usize
        ensures { result ≡ length self.now }
    {
        self.items.len()
    }

    /// What is kept of a block; past the last one it is as of one that has ended.
    #[tactic(auto, using(crate::proofs::Slotting::slot_is, crate::proofs::Slotting::slot_past))]
    #[inline(always)]
    pub(crate) fn slot(&self, block: u64) -> Slot
        ensures is { result ≡ slot_at self.now block }
        ensures small { result.start < 2 ^ 29 }
    {
        if block < self.items.len() as u64 {
            expanded(self.items[block as usize])
        } else {
            Slot {
                kind: BlockKind::Local,
                live: false,
                start: 0,
                size: 0,
            }
        }
    }

    /// Puts a slot in the place of another one.
    #[tactic(auto, using(crate::proofs::Slotting::slot_set))]
    pub(crate) fn set(&mut self, block: u64, slot: Slot)
        requires known { block < length self.old }
        requires small { slot.start < 2 ^ 29 }
        ensures { self.new ≡ slice_set self.old block slot }
    {
        self.items[block as usize] = compact(slot);
    }

    /// A slot behind all others.
    #[tactic(auto, using(crate::proofs::Slotting::slot_push))]
    pub(crate) fn push(&mut self, slot: Slot) -> Result<(), NoMemory>
        requires { slot.start < 2 ^ 29 }
        ensures { MatchResult result (λ _. self.new ≡ self.old ++ slot ∷ []) (λ refused. self.new ≡ self.old) }
    {
        push(&mut self.items, compact(slot))
    }
}
