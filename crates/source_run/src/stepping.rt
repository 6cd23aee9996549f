//! One step of a run, with the byte that it writes or reads.

ghost use Rattle.std.specs.Prelude.{◌≡◌, [], ◌∷◌, MatchResult};
ghost use Rattle.lay_base.specs.Known.{Appends, Rose};
ghost use Rattle.source_run.specs.Advances.{AdvanceGives, Reads, WritesNone};
ghost use Rattle.source_run.specs.Streams.{streams};
ghost use Rattle.tac_engine.specs.Rooms.{NextHasRoom};
ghost use Rattle.tac_engine.specs.View.{state_of};

use block_memory::Value;
use lay_base::{NoMemory, Sink, SinkFault, Source, SourceFault};
use source_state::{Final, Moved};
use std::alloc::Global;
use tac_engine::Engine;

/// What a step came to, with the byte that it wrote or read.
#[derive(Clone, Copy)]
pub(crate) enum Advance {
    Goes,
    /// A byte was written.
    Wrote(u8),
    /// A byte was read, or the end of the input was found.
    Read,
    Over(Final),
    /// The input failed.
    ReadFails,
    /// The output failed at that byte.
    WriteFails(u8),
    /// No memory was left.
    Memory(NoMemory),
}

/// The next byte of the input as the value of `getchar` (C99 7.19.7.6), which is minus one at its end.
fn next_value<I: Source>(input: &mut I) -> Result<Value, SourceFault>
    ensures { MatchResult result
        (λ v. (I.faults input.new ≡ I.faults input.old) × Reads (I.left input.old) (I.left input.new) v)
        (λ fault. Rose (I.faults input.old) (I.faults input.new) × (I.left input.new ≡ I.left input.old)) }
{
    match input.next() {
        Ok(Some(byte)) => Ok(Value::Word(u32::from(byte))),
        Ok(None) => Ok(Value::Word(0xFFFF_FFFF)),
        Err(fault) => Err(fault),
    }
}

/// Writes a byte.
fn put_byte<O: Sink>(byte: u8, out: &mut O) -> Result<(), SinkFault>
    ensures { MatchResult result
        (λ done. (O.faults out.new ≡ O.faults out.old) × Appends (O.written out.old) (O.written out.new) (byte ∷ []))
        (λ fault. Rose (O.faults out.old) (O.faults out.new) × WritesNone byte (O.written out.old) (O.written out.new)) }
{
    out.put(&[byte])
}

/// One step.
#[inline(always)]
pub(crate) fn make_step<I: Source, O: Sink>(
    alloc: Global,
    engine: &mut Engine<'_>,
    input: &mut I,
    out: &mut O,
) -> Advance
    requires { NextHasRoom (state_of engine.old).more (state_of engine.old) }
    ensures { AdvanceGives (state_of engine.old) (state_of engine.new)
        (streams (I.left input.old) (I.faults input.old) (O.written out.old) (O.faults out.old))
        (streams (I.left input.new) (I.faults input.new) (O.written out.new) (O.faults out.new)) result }
{
    match engine.step(alloc) {
        Ok(Moved::Goes) => Advance::Goes,
        Ok(Moved::Puts(byte)) => match put_byte(byte, out) {
            Ok(()) => Advance::Wrote(byte),
            Err(_) => Advance::WriteFails(byte),
        },
        Ok(Moved::Gets) => match next_value(input) {
            Ok(v) => match engine.give(v) {
                Ok(_) => Advance::Read,
                Err(want) => Advance::Memory(want),
            },
            Err(_) => Advance::ReadFails,
        },
        Ok(Moved::Over(end)) => Advance::Over(end),
        Err(want) => Advance::Memory(want),
    }
}
