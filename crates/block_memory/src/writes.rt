//! Writes without a test, of what the machine itself puts into blocks. Into a block that has ended nothing is put.

ghost use Rattle.std.specs.Prelude.{◌≡◌, ◌≤◌, ◌+◌, length, map, replicate};
ghost use Rattle.memory_words.specs.CellWords.Words.{cell_of};
ghost use Rattle.memory_words.specs.declared.cell_words.cell.Cell.TheVariants.{Byte, Empty};
ghost use Rattle.block_memory.specs.Blocks.{size, with_cells};
ghost use Rattle.block_memory.specs.View.{memory_of};

use crate::store::Store;
use memory_words::Content;

impl Store {
    /// Puts bytes into the cells of a block from an offset on.
    pub fn set_bytes(&mut self, block: u64, at: u32, bytes: &[u8])
        requires { at + length bytes.now ≤ size (memory_of self.old) block }
        ensures { memory_of self.new ≡ with_cells (memory_of self.old) block at (map Byte bytes.now) }
    {
        let slot = self.slots.slot(block);
        if slot.live {
            self.arena
                .put_bytes(4 * slot.start as usize + at as usize, bytes);
        }
    }

    /// Makes so many cells of a block, from its first one on, hold one content.
    fn set_content(&mut self, block: u64, content: Content, count: u32)
        requires { count ≤ size (memory_of self.old) block }
        ensures { memory_of self.new ≡ with_cells (memory_of self.old) block 0 (replicate count (cell_of content)) }
    {
        let slot = self.slots.slot(block);
        if slot.live {
            self.arena.fill(4 * slot.start as usize, content, count);
        }
    }

    /// Makes so many cells of a block, from its first one on, bytes that are zero.
    pub fn set_zero(&mut self, block: u64, count: u32)
        requires { count ≤ size (memory_of self.old) block }
        ensures { memory_of self.new ≡ with_cells (memory_of self.old) block 0 (replicate count (Byte 0)) }
    {
        self.set_content(block, Content::Byte(0), count);
    }

    /// Makes so many cells of a block, from its first one on, hold nothing.
    pub fn set_empty(&mut self, block: u64, count: u32)
        requires { count ≤ size (memory_of self.old) block }
        ensures { memory_of self.new ≡ with_cells (memory_of self.old) block 0 (replicate count Empty) }
    {
        self.set_content(block, Content::Empty, count);
    }
}
