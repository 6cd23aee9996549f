//! Room for new blocks: live ones are moved together where much of what lies between them is of blocks that have ended.

ghost use Rattle.std.specs.Prelude.{◌≡◌, ◌<◌, ◌≤◌, ◌+◌, ◌*◌, ◌^◌, true, length, OnOk};
ghost use Rattle.block_memory.specs.Blocks.{block as block_at};
ghost use Rattle.block_memory.specs.Moves.{IsGathered};
ghost use Rattle.block_memory.specs.RunWorlds.Worlds.{live_bytes, live_in};
ghost use Rattle.block_memory.specs.Slots.{holds, slot_at, words_for};
ghost use Rattle.block_memory.specs.View.{memory_of};

use crate::slot::{Slot, WORDS, holds, words_for};
use crate::store::Store;
use lay_base::NoMemory;

impl Store {
    /// Moves the cells of a live block down to a word behind which no block before it has any: the word behind them.
    fn lower(&mut self, block: u64, to: usize) -> usize
        requires holds { holds (slot_at self.old.slots block) ≡ true }
        requires gathered { IsGathered self.old.slots block to }
        requires down { to < (slot_at self.old.slots block).start }
        requires settled { self.old.settled ≤ block }
        requires behind { self.old.settled_words ≤ to }
        ensures memory { memory_of self.new ≡ memory_of self.old }
        ensures gathered { IsGathered self.new.slots (block + 1) result }
        ensures many { length self.new.slots ≡ length self.old.slots }
        ensures free { self.new.free ≡ self.old.free }
        ensures within { result ≤ self.new.free }
        ensures further { result ≡ to + words_for (slot_at self.old.slots block).size }
        ensures settled { self.new.settled ≡ self.old.settled }
        ensures words { self.new.settled_words ≡ self.old.settled_words }
    {
        let slot = self.slots.slot(block);
        let count = words_for(slot.size);
        self.arena.shift(slot.start as usize, to, count);
        self.slots.set(
            block,
            Slot {
                kind: slot.kind,
                live: slot.live,
                start: to as u32,
                size: slot.size,
            },
        );
        to + count
    }

    /// Moves a block down to the first word behind the blocks before it, if it has cells: the word behind it.
    fn lower_one(&mut self, block: u64, to: usize) -> usize
        requires gathered { IsGathered self.old.slots block to }
        requires within { to ≤ self.old.free }
        requires settled { self.old.settled ≤ block }
        requires behind { self.old.settled_words ≤ to }
        ensures memory { memory_of self.new ≡ memory_of self.old }
        ensures gathered { IsGathered self.new.slots (block + 1) result }
        ensures many { length self.new.slots ≡ length self.old.slots }
        ensures free { self.new.free ≡ self.old.free }
        ensures within { result ≤ self.new.free }
        ensures further { to ≤ result }
        ensures near { result ≤ to + live_in (block_at (memory_of self.old) block).contents }
        ensures settled { self.new.settled ≡ self.old.settled }
        ensures words { self.new.settled_words ≡ self.old.settled_words }
    {
        let slot = self.slots.slot(block);
        if !holds(slot) {
            to
        } else if to < slot.start as usize {
            self.lower(block, to)
        } else {
            to + words_for(slot.size)
        }
    }

    /// Moves the cells of all live blocks together. Those before the first one that has ended since the last time lie so.
    fn gather(&mut self)
        ensures memory { memory_of self.new ≡ memory_of self.old }
        ensures many { length self.new.slots ≡ length self.old.slots }
        ensures less { self.new.free ≤ self.old.free }
        ensures near { self.new.free ≤ self.old.settled_words + live_bytes (memory_of self.old) }
    {
        let many = self.slots.len() as u64;
        let mut to = self.settled_words;
        for block in self.settled..many {
            to = self.lower_one(block, to);
        }
        self.free = to;
        self.ended = 0;
        self.settled = many;
        self.settled_words = to;
    }

    /// Moves the cells of all live blocks together, whatever lies so: they take no more words than bytes live.
    fn gather_all(&mut self)
        ensures memory { memory_of self.new ≡ memory_of self.old }
        ensures many { length self.new.slots ≡ length self.old.slots }
        ensures near { self.new.free ≤ live_bytes (memory_of self.old) }
    {
        self.settled = 0;
        self.settled_words = 0;
        self.gather();
    }

    /// Whether so much lies unused between live blocks that moving them together takes no more time than was taken to make what has ended.
    fn is_sparse(&self) -> bool {
        let blocks = self.slots.len() - self.settled as usize;
        self.ended >= self.free / 2 && self.ended >= blocks / 16
    }

    /// A block is to end: from it on blocks are looked at when they are moved together.
    pub(crate) fn unsettle(&mut self, block: u64, slot: Slot)
        requires { slot ≡ slot_at self.old.slots block }
        ensures memory { memory_of self.new ≡ memory_of self.old }
        ensures slot { slot ≡ slot_at self.new.slots block }
        ensures settled { holds slot ≡ true → self.new.settled ≤ block }
    {
        if holds(slot) && block < self.settled {
            self.settled = block;
            self.settled_words = slot.start as usize;
        }
    }

    /// So many words behind all live blocks, which stay where they are.
    fn extend(&mut self, count: usize) -> Result<(), NoMemory>
        requires { self.old.free + count < 2 ^ 29 }
        ensures memory { memory_of self.new ≡ memory_of self.old }
        ensures many { length self.new.slots ≡ length self.old.slots }
        ensures enough { OnOk result ((4 * (self.new.free + count) ≤ length self.new.arena) × (self.new.free + count < 2 ^ 29)) }
    {
        let end = self.free + count;
        let words = self.arena.words();
        if end <= words {
            return Ok(());
        }
        self.arena.grow(end - words)
    }

    /// So many words behind all live blocks.
    pub(crate) fn make_room(&mut self, count: usize) -> Result<(), NoMemory>
        requires { live_bytes (memory_of self.old) + count < 2 ^ 29 }
        ensures memory { memory_of self.new ≡ memory_of self.old }
        ensures many { length self.new.slots ≡ length self.old.slots }
        ensures enough { OnOk result ((4 * (self.new.free + count) ≤ length self.new.arena) × (self.new.free + count < 2 ^ 29)) }
    {
        let end = self.free + count;
        if end >= WORDS {
            self.gather_all();
        } else if end > self.arena.words() && self.is_sparse() {
            self.gather();
        }
        self.extend(count)
    }
}
