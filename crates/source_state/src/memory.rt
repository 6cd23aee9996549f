//! What is done to memory.

ghost use Rattle.std.specs.Prelude.{◌≡◌, ◌<◌, ◌≤◌, ◌+◌, ◌-◌, ◌^◌, IfOk, length, replicate, true};
ghost use Rattle.memory_words.specs.declared.cell_words.cell.Cell.TheVariants.{Empty};
ghost use Rattle.block_memory.specs.Blocks.{size as size_in};
ghost use Rattle.block_memory.specs.RunWorlds.LibraryCalls.{is_same_place};
ghost use Rattle.source_state.specs.RoomView.{core_of};
ghost use Rattle.source_state.specs.Steps.Cores.{Changes};
ghost use Rattle.source_state.specs.Steps.Locals.{emptied, slot};
ghost use Rattle.source_state.specs.Steps.Memories.{allocate, compare, copy, copy_record, end, fill, free, freed_size, living_size, make, put_cells, with_text};
ghost use Rattle.source_state.specs.Steps.Memories.{zeroed};
ghost use Rattle.source_state.specs.Steps.Rooms.{HasRoom};

use crate::ends::Final;
use crate::room::Room;
use block_memory::{BlockKind, Ptr, Value};
use c_meaning::{Slot, Spot};
use lay_base::{NoMemory, RoomKind, UndefinedKind};
use std::alloc::Global;

/// The greatest number of bytes that live at a time.
const GREATEST_LIVE: u64 = 33_554_432;

/// Whether two places are one.
fn is_same_place(to: Ptr, from: Ptr) -> bool
    ensures { result ≡ is_same_place to from }
{
    match (to, from) {
        (Ptr::Block(b, at), Ptr::Block(c, other)) => b == c && at == other,
        _ => false,
    }
}

impl Room {
    /// A new block of so many bytes: its number, or the end of the run where there is no room for it. With those that live they are counted in
    /// 64 bits.
    #[tactic(auto, using(crate::proofs::Keeps::made))]
    pub fn make(
        &mut self,
        alloc: Global,
        size: u64,
        kind: BlockKind,
    ) -> Result<Result<u64, Final>, NoMemory>
        requires { size < 2 ^ 64 - 2 ^ 32 }
        ensures makes { IfOk result (λ r. (r, core_of self.new) ≡ make size kind (core_of self.old)) }
        ensures small { IfOk result (λ r. IfOk r (λ b. size < 2 ^ 32)) }
    {
        let counted = self.live + size;
        if counted > GREATEST_LIVE {
            return Ok(Err(Final::Room(RoomKind::Live, counted)));
        }
        let block = self.store.alloc(alloc, size as u32, kind)?;
        self.live = counted;
        Ok(Ok(block))
    }

    /// The bytes that live in a block.
    fn living_size(&self, block: u64) -> u64
        ensures { result ≡ living_size (core_of self.now).memory block }
    {
        if self.store.live(block) {
            u64::from(self.store.size(block))
        } else {
            0
        }
    }

    /// The lifetime of a block ends.
    #[tactic(auto, using(crate::proofs::Keeps::ended))]
    pub fn end(&mut self, block: u64)
        ensures { core_of self.new ≡ end block (core_of self.old) }
    {
        let size = self.living_size(block);
        self.store.end(block);
        self.live = self.live.saturating_sub(size);
    }

    /// The bytes that live in the block of a pointer.
    fn freed_size(&self, p: Ptr) -> u64
        ensures { result ≡ freed_size (core_of self.now).memory p }
    {
        match p {
            Ptr::Block(block, _) => self.living_size(block),
            Ptr::Null | Ptr::Function(_) => 0,
        }
    }

    /// Ends an allocation.
    #[tactic(auto, using(crate::proofs::Keeps::freed))]
    pub fn free(&mut self, p: Ptr) -> Result<(), UndefinedKind>
        ensures { Changes result (core_of self.old) (core_of self.new) (free p (core_of self.old)) }
    {
        let size = self.freed_size(p);
        match self.store.free(p) {
            Ok(()) => {
                self.live = self.live.saturating_sub(size);
                Ok(())
            }
            Err(kind) => Err(kind),
        }
    }

    /// Copies cells as they are. That the ranges overlap may be allowed.
    #[tactic(auto, using(crate::proofs::Keeps::copy_kept))]
    pub fn copy(
        &mut self,
        to: Ptr,
        from: Ptr,
        count: u32,
        overlap: bool,
    ) -> Result<(), UndefinedKind>
        ensures { Changes result (core_of self.old) (core_of self.new) (copy to from count overlap (core_of self.old)) }
    {
        self.store.copy(to, from, count, overlap)
    }

    /// Puts the low byte of a word into so many cells.
    #[tactic(auto, using(crate::proofs::Keeps::fill_kept))]
    pub fn fill(&mut self, to: Ptr, byte: u32, count: u32) -> Result<(), UndefinedKind>
        ensures { Changes result (core_of self.old) (core_of self.new) (fill to byte count (core_of self.old)) }
    {
        self.store.fill(to, (byte % 0x100) as u8, count)
    }

    /// Compares so many cells as bytes.
    pub fn compare(&self, p: Ptr, q: Ptr, count: u32) -> Result<Value, UndefinedKind>
        ensures { result ≡ compare p q count (core_of self.now) }
    {
        match self.store.compare(p, q, count) {
            Ok(order) => Ok(Value::Word(order.cast_unsigned())),
            Err(kind) => Err(kind),
        }
    }

    /// Assigns a whole record.
    pub fn copy_record(&mut self, size: u32, to: Spot, from: Spot) -> Result<(), UndefinedKind>
        ensures { Changes result (core_of self.old) (core_of self.new) (copy_record size to from (core_of self.old)) }
    {
        match (to, from) {
            (Spot::Placed(q), Spot::Placed(r)) => self.copy(q, r, size, is_same_place(q, r)),
            _ => Err(UndefinedKind::Dead),
        }
    }

    /// Makes so many cells of a block, from its first one on, bytes that are zero.
    #[tactic(auto, using(crate::proofs::Within::zeroed_within, crate::proofs::Keeps::zeros_kept))]
    pub fn zero(&mut self, block: u64, count: u32)
        requires { count ≤ size_in (core_of self.old).memory block }
        ensures { core_of self.new ≡ zeroed true block count (core_of self.old) }
    {
        self.store.set_zero(block, count);
    }

    /// Puts bytes into the cells of a block from an offset on.
    #[tactic(auto, using(crate::proofs::Within::text_within, crate::proofs::Keeps::text_kept))]
    pub fn write(&mut self, block: u64, at: u32, bytes: &[u8])
        requires { at + length bytes.now ≤ size_in (core_of self.old).memory block }
        ensures { core_of self.new ≡ with_text block at bytes.now (core_of self.old) }
    {
        self.store.set_bytes(block, at, bytes);
    }

    /// Makes so many cells of a block hold nothing.
    #[tactic(auto, using(crate::proofs::Within::empty_within, crate::proofs::Keeps::empty_kept))]
    fn empty(&mut self, block: u64, count: u32)
        requires { count ≤ size_in (core_of self.old).memory block }
        ensures { core_of self.new ≡ put_cells block 0 (replicate count Empty) (core_of self.old) }
    {
        self.store.set_empty(block, count);
    }

    /// The declaration of a local of so many bytes is reached, without an initializer.
    pub fn empty_local(&mut self, local: u32, count: u32)
        requires { HasRoom count (slot (core_of self.old) local) (core_of self.old).memory }
        ensures { core_of self.new ≡ emptied local count (slot (core_of self.old) local) (core_of self.old) }
    {
        match self.slot(local) {
            Some(Slot::InBlock(Some(block))) => self.empty(block, count),
            Some(Slot::ByName(_)) => self.set_slot(local, Slot::ByName(None)),
            Some(Slot::InBlock(None)) | None => {}
        }
    }

    /// An allocation of so many bytes, all zero or with nothing that was stored.
    #[tactic(auto, using(crate::proofs::Within::zeroed_within, crate::proofs::Within::new_size, crate::proofs::Keeps::zeros_kept))]
    pub fn allocate(
        &mut self,
        alloc: Global,
        size: u64,
        zero: bool,
    ) -> Result<Result<Value, Final>, NoMemory>
        requires { size < 2 ^ 64 - 2 ^ 32 }
        ensures { IfOk result (λ r. (r, core_of self.new) ≡ allocate size zero (core_of self.old)) }
    {
        match self.make(alloc, size, BlockKind::Heap)? {
            Ok(block) => {
                if zero {
                    self.store.set_zero(block, size as u32);
                }
                Ok(Ok(Value::Pointer(Ptr::Block(block, 0))))
            }
            Err(end) => Ok(Err(end)),
        }
    }
}
