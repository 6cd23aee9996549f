//! What moves between memory and the streams of the environment: the calls write and read.

use crate::memory::{Memory, READ};
use lay_base::{Sink, SinkFault, Source, SourceFault};

impl Memory {
    ghost use Rattle.std.specs.Prelude.{◌≡◌, ◌<◌, ◌≤◌, IsOk, length, true};
    ghost use Rattle.lay_base.specs.Calls.{PutGives};
    ghost use Rattle.rv_isa.specs.Memory.{are_mapped, bytes_at, readable, writable};
    ghost use Rattle.rv_machine.specs.Streams.{ReadsIn};
    ghost use Rattle.rv_machine.specs.View.{content_of, segments_in};

    /// The bytes from an address on that stand one after the other, at most so many; all that were
    /// asked for may be read.
    fn piece_at(&self, address: u64, count: u64) -> &[u8]
        requires some { 0 < count }
        requires mapped { are_mapped (segments_in self.now) readable address count ≡ true }
        ensures some { 0 < length result.now }
        ensures within { length result.now ≤ count }
        ensures bytes { result.now ≡ bytes_at (content_of self.now) address (length result.now) }
    {
        match self.stretch(READ, address, count) {
            Some(stretch) => &self.bytes[stretch.place..stretch.place + stretch.count as usize],
            None => unreachable!(),
        }
    }

    /// Writes bytes of memory, from an address on, to a sink, piece by piece as they stand together.
    /// Where the sink fails, a first part of them may have been written.
    pub(crate) fn write_out<O: Sink>(
        &self,
        out: &mut O,
        address: u32,
        count: u32,
    ) -> Result<(), SinkFault>
        requires { are_mapped (segments_in self.now) readable address count ≡ true }
        ensures kept { IsOk result → O.faults out.new ≡ O.faults out.old }
        ensures gives { PutGives (O.faults out.old) (O.faults out.new) (O.written out.old) (O.written out.new)
            (bytes_at (content_of self.now) address count) result }
    {
        let mut next = address as u64;
        let mut left = count as u64;
        while left > 0 {
            let piece = self.piece_at(next, left);
            out.put(piece)?;
            next += piece.len() as u64;
            left -= piece.len() as u64;
        }
        Ok(())
    }

    /// Reads at most so many bytes of a source into memory, from an address on; how many there were,
    /// fewer than were asked for only at the source's end. Where the source fails, memory has the bytes
    /// that came before.
    pub(crate) fn read_in<I: Source>(
        &mut self,
        input: &mut I,
        address: u32,
        count: u32,
    ) -> Result<u32, SourceFault>
        requires { are_mapped (segments_in self.old) writable address count ≡ true }
        ensures rows { self.new.rows ≡ self.old.rows }
        ensures kept { IsOk result → I.faults input.new ≡ I.faults input.old }
        ensures gives { ReadsIn (I.faults input.old) (I.faults input.new) (I.left input.old) (I.left input.new) (content_of self.old)
            (content_of self.new) address count result }
    {
        for i in 0..count {
            match input.next()? {
                Some(byte) => {
                    let _ = self.put(address as u64 + i as u64, byte as u32);
                }
                None => return Ok(i),
            }
        }
        Ok(count)
    }
}
