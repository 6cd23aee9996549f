//! Ranges of bytes: copied, filled and compared.

ghost use Rattle.std.specs.Prelude.{◌≡◌};
ghost use Rattle.block_memory.specs.Places.{CopyGives, IsPlaceOf};
ghost use Rattle.block_memory.specs.Ranges.{compare, copy, do_overlap, fill};
ghost use Rattle.block_memory.specs.Stores.{Does};
ghost use Rattle.block_memory.specs.View.{memory_of};

use crate::place::Place;
use crate::store::Store;
use lay_base::UndefinedKind;
use memory_words::{Content, Ptr};

/// Whether two ranges of one length have a byte in common.
fn do_overlap(a: Place, b: Place, count: u32) -> bool
    ensures { result ≡ do_overlap (a.block, a.at) (b.block, b.at) count }
{
    let count = u64::from(count);
    let first = u64::from(a.at);
    let second = u64::from(b.at);
    a.block == b.block && first < second + count && second < first + count
}

impl Store {
    /// Copies between places that are known.
    #[tactic(auto, using(crate::proofs::Reached::copied_apart, crate::proofs::Reached::copied_over))]
    fn copy_places(
        &mut self,
        a: Place,
        b: Place,
        count: u32,
        overlap: bool,
    ) -> Result<(), UndefinedKind>
        requires to { IsPlaceOf self.old.slots a count }
        requires from { IsPlaceOf self.old.slots b count }
        ensures { CopyGives self.old.slots self.old.arena a b count overlap result self.new.slots self.new.arena }
    {
        if !overlap && do_overlap(a, b, count) {
            return Err(UndefinedKind::Overlap);
        }
        self.arena.copy(a.cell, b.cell, count);
        Ok(())
    }

    /// Copies cells as they are. That the ranges overlap may be allowed.
    pub fn copy(
        &mut self,
        to: Ptr,
        from: Ptr,
        count: u32,
        overlap: bool,
    ) -> Result<(), UndefinedKind>
        ensures { Does result (memory_of self.old) (memory_of self.new) (copy (memory_of self.old) to from count overlap) }
    {
        if count == 0 {
            return Ok(());
        }
        match self.place(to, count, 1, true) {
            Ok(a) => match self.place(from, count, 1, false) {
                Ok(b) => self.copy_places(a, b, count, overlap),
                Err(fault) => Err(fault),
            },
            Err(fault) => Err(fault),
        }
    }

    /// Puts a byte into so many cells.
    pub fn fill(&mut self, to: Ptr, byte: u8, count: u32) -> Result<(), UndefinedKind>
        ensures { Does result (memory_of self.old) (memory_of self.new) (fill (memory_of self.old) to byte count) }
    {
        if count == 0 {
            return Ok(());
        }
        match self.place(to, count, 1, true) {
            Ok(place) => {
                self.arena.fill(place.cell, Content::Byte(byte), count);
                Ok(())
            }
            Err(fault) => Err(fault),
        }
    }

    /// Compares so many cells as bytes: minus one, zero or one.
    pub fn compare(&self, p: Ptr, q: Ptr, count: u32) -> Result<i32, UndefinedKind>
        ensures { result ≡ compare (memory_of self.now) p q count }
    {
        if count == 0 {
            return Ok(0);
        }
        match self.place(p, count, 1, false) {
            Ok(a) => match self.place(q, count, 1, false) {
                Ok(b) => self.arena.compare(a.cell, b.cell, count),
                Err(fault) => Err(fault),
            },
            Err(fault) => Err(fault),
        }
    }
}
