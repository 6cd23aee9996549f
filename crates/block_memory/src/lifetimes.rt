//! When blocks begin and end.

ghost use Rattle.std.specs.Prelude.{◌≡◌, ◌∷◌, [], ◌+◌, ◌<◌, ◌^◌};
ghost use Rattle.memory_words.specs.declared.cell_words.cell.Cell.TheVariants.{Byte};
ghost use Rattle.block_memory.specs.Blocks.{size, with_cells};
ghost use Rattle.block_memory.specs.Lifetimes.{free, is_heap, with_end};
ghost use Rattle.block_memory.specs.RunWorlds.Worlds.{live_bytes};
ghost use Rattle.block_memory.specs.Stores.{AllocGives, Does};
ghost use Rattle.block_memory.specs.View.{memory_of};

use crate::kinds::BlockKind;
use crate::slot::{Slot, words_for};
use crate::store::Store;
use lay_base::{NoMemory, UndefinedKind};
use memory_words::{Cell, Content, Ptr};
use std::alloc::Global;

fn is_heap(kind: BlockKind) -> bool
    ensures { result ≡ is_heap kind }
{
    match kind {
        BlockKind::Heap => true,
        BlockKind::Global => false,
        BlockKind::Text => false,
        BlockKind::Local => false,
    }
}

impl Store {
    /// A new block that holds nothing: its number. Few bytes live with it, so that its cells have a place.
    pub fn alloc(&mut self, alloc: Global, size: u32, kind: BlockKind) -> Result<u64, NoMemory>
        requires { live_bytes (memory_of self.old) + size < 2 ^ 29 }
        ensures gives { AllocGives (memory_of self.old) (memory_of self.new) size kind result }
    {
        let number = self.slots.len();
        let count = words_for(size);
        self.make_room(count)?;
        let slot = Slot {
            kind,
            live: true,
            start: self.free as u32,
            size,
        };
        self.arena.fill(4 * self.free, Content::Empty, size);
        self.slots.push(slot)?;
        self.free += count;
        Ok(number as u64)
    }

    /// The lifetime of a block ends; what has ended stays as it is.
    pub fn end(&mut self, block: u64)
        ensures { memory_of self.new ≡ with_end (memory_of self.old) block }
    {
        let slot = self.slots.slot(block);
        if slot.live {
            let start = slot.start as usize;
            let count = words_for(slot.size);
            self.unsettle(block, slot);
            self.arena.fill(4 * start, Content::Empty, slot.size);
            self.slots.set(
                block,
                Slot {
                    kind: slot.kind,
                    live: false,
                    start: 0,
                    size: slot.size,
                },
            );
            if slot.size > 0 && start + count == self.free {
                self.free = start;
            } else {
                self.ended = self.ended.saturating_add(count);
            }
        }
    }

    /// Ends an allocation.
    #[tactic(auto, using(crate::proofs::Views::live_is, crate::proofs::Views::kind_is))]
    pub fn free(&mut self, p: Ptr) -> Result<(), UndefinedKind>
        ensures { Does result (memory_of self.old) (memory_of self.new) (free (memory_of self.old) p) }
    {
        match p {
            Ptr::Null => Ok(()),
            Ptr::Function(_) => Err(UndefinedKind::Free),
            Ptr::Block(block, at) => {
                let slot = self.slots.slot(block);
                if at != 0 || !slot.live || !is_heap(slot.kind) {
                    return Err(UndefinedKind::Free);
                }
                self.end(block);
                Ok(())
            }
        }
    }

    /// Makes one cell of a block a byte; of one that has ended there is none.
    pub fn set_text(&mut self, block: u64, at: u32, byte: u8)
        requires { at < size (memory_of self.old) block }
        ensures { memory_of self.new ≡ with_cells (memory_of self.old) block at (Byte byte ∷ []) }
    {
        let slot = self.slots.slot(block);
        if slot.live {
            self.arena
                .put(4 * slot.start as usize + at as usize, Cell::Byte(byte));
        }
    }
}
