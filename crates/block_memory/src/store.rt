//! The store: all blocks of a run.

ghost use Rattle.block_memory.specs.Moves.{IsSettled};
ghost use Rattle.block_memory.specs.Slots.{IsSound};

use crate::arena::Arena;
use crate::place::{Place, tested};
use crate::slot::Slot;
use crate::slots::Slots;
use lay_base::UndefinedKind;
use memory_words::Ptr;
use std::alloc::Global;

/// Memory as blocks.
#[derive(Drop)]
pub struct Store {
    pub(crate) slots: Slots,
    pub(crate) arena: Arena,
    // The first word behind those of all live blocks.
    pub(crate) free: usize,
    // How many of the words before it are of blocks that have ended.
    pub(crate) ended: usize,
    // Of the blocks before this one, none that has cells has ended since blocks were moved together.
    pub(crate) settled: u64,
    // The first word behind those of the blocks before it.
    pub(crate) settled_words: usize,
    ghost sound: { IsSound slots arena free },
    ghost settles: { IsSettled slots free settled settled_words },
}

impl Store {
    ghost use Rattle.std.specs.Prelude.{◌≡◌, ◌<◌, []};
    ghost use Rattle.memory_words.specs.declared.cell_words.pointer.Ptr.TheVariants as P;
    ghost use Rattle.block_memory.specs.Blocks.{is_live, size};
    ghost use Rattle.block_memory.specs.Places.{PlaceGives};
    ghost use Rattle.block_memory.specs.View.{memory_of};

    /// The memory of no block, which takes no memory.
    #[tactic(auto, using(crate::proofs::Sound::sound_none, crate::proofs::Gathering::settled_none))]
    pub fn new(alloc: Global) -> Store
        ensures { memory_of result ≡ [] }
    {
        Store {
            slots: Slots::new(alloc),
            arena: Arena::new(alloc),
            free: 0,
            ended: 0,
            settled: 0,
            settled_words: 0,
        }
    }

    /// Whether a block is live.
    #[tactic(auto, using(crate::proofs::Views::live_is))]
    pub fn live(&self, block: u64) -> bool
        ensures { result ≡ is_live (memory_of self.now) block }
    {
        self.slots.slot(block).live
    }

    /// The size of a block in bytes; that of one that has ended is what it was.
    #[tactic(auto, using(crate::proofs::Views::size_is))]
    pub fn size(&self, block: u64) -> u32
        ensures { result ≡ size (memory_of self.now) block }
    {
        self.slots.slot(block).size
    }

    /// The place of an access in a block.
    fn place_in(
        &self,
        block: u64,
        at: u32,
        count: u32,
        width: u32,
        stores: bool,
    ) -> Result<Place, UndefinedKind>
        requires { 0 < width }
        ensures { PlaceGives self.now.slots self.now.arena (P.Block block at) count width stores result }
    {
        let slot = self.slots.slot(block);
        if slot.live {
            match tested(slot, at, count, width, stores) {
                Ok(()) => Ok(Place {
                    block,
                    cell: 4 * slot.start as usize + at as usize,
                    at,
                }),
                Err(kind) => Err(kind),
            }
        } else {
            Err(UndefinedKind::Dead)
        }
    }

    /// The place of an access: so many bytes at a multiple of a width, to be stored or only to be read.
    pub(crate) fn place(
        &self,
        p: Ptr,
        count: u32,
        width: u32,
        stores: bool,
    ) -> Result<Place, UndefinedKind>
        requires { 0 < width }
        ensures { PlaceGives self.now.slots self.now.arena p count width stores result }
    {
        match p {
            Ptr::Null => Err(UndefinedKind::Null),
            Ptr::Function(_) => Err(UndefinedKind::Dead),
            Ptr::Block(block, at) => self.place_in(block, at, count, width, stores),
        }
    }
}
