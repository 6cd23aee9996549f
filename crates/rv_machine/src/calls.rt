//! The calls of the environment, by their numbers on Linux: exit (93), write (64) and read (63).

use crate::hart::Hart;
use crate::machine::Advance;
use crate::memory::{READ, WRITE};
use lay_base::{Sink, Source, TrapKind};

/// The registers of a call: its arguments, of which the first takes the answer, and its number.
const A0: u8 = 10;

const A1: u8 = 11;

const A2: u8 = 12;

const A7: u8 = 17;

impl Hart {
    ghost use Rattle.std.specs.Prelude.{◌≡◌, Some};
    ghost use Rattle.rv_isa.specs.declared.instruction.Inst.TheVariants.{Ecall};
    ghost use Rattle.rv_isa.specs.Decoding.{decoded};
    ghost use Rattle.rv_isa.specs.Memory.{word_at};
    ghost use Rattle.rv_isa.specs.Step.{calls, read_call, write_call, IsAtCall};
    ghost use Rattle.rv_machine.specs.View.{content_of};
    ghost use Rattle.rv_machine.specs.Harts.{LeavesUnwritten, places_of, state_of};
    ghost use Rattle.rv_machine.specs.Advances.{AdvanceGives, streams};

    /// Bytes of memory go to the output: as many as the third argument says, from the second on.
    fn write_bytes<I: Source, O: Sink>(&mut self, input: &I, out: &mut O) -> Advance
        requires { IsAtCall 64 (state_of self.old) }
        ensures places { places_of self.new ≡ places_of self.old }
        ensures unwritten { LeavesUnwritten self.old self.new }
        ensures gives { AdvanceGives (write_call (places_of self.old)) (state_of self.old) (state_of self.new)
            (streams (I.left input.now) (I.faults input.now) (O.written out.old) (O.faults out.old))
            (streams (I.left input.now) (I.faults input.now) (O.written out.new) (O.faults out.new)) result }
    {
        let _ = input;
        let count = self.registers.get(A2);
        if !self.memory.may_use(READ, self.registers.get(A1), count) {
            return Advance::Traps(TrapKind::Unmapped);
        }
        match self.memory.write_out(out, self.registers.get(A1), count) {
            Ok(()) => {
                self.registers.put(A0, count);
                self.pc = self.pc.wrapping_add(4);
                Advance::Goes
            }
            Err(_) => Advance::WriteFails,
        }
    }

    /// The next bytes of the input come into memory: at most as many as the third argument says, from
    /// the second on.
    fn read_bytes<I: Source, O: Sink>(&mut self, input: &mut I, out: &O) -> Advance
        requires { IsAtCall 63 (state_of self.old) }
        ensures places { places_of self.new ≡ places_of self.old }
        ensures unwritten { LeavesUnwritten self.old self.new }
        ensures gives { AdvanceGives (read_call (places_of self.old)) (state_of self.old) (state_of self.new)
            (streams (I.left input.old) (I.faults input.old) (O.written out.now) (O.faults out.now))
            (streams (I.left input.new) (I.faults input.new) (O.written out.now) (O.faults out.now)) result }
    {
        let _ = out;
        let address = self.registers.get(A1);
        let count = self.registers.get(A2);
        if !self.memory.may_use(WRITE, address, count) {
            return Advance::Traps(TrapKind::Unmapped);
        }
        match self.memory.read_in(input, address, count) {
            Ok(n) => {
                self.registers.put(A0, n);
                self.pc = self.pc.wrapping_add(4);
                Advance::Goes
            }
            Err(_) => Advance::ReadFails,
        }
    }

    /// Does what the call of the environment asks for.
    pub(crate) fn call<I: Source, O: Sink>(&mut self, input: &mut I, out: &mut O) -> Advance
        requires { decoded (word_at (content_of self.old.memory) self.old.pc) ≡ Some Ecall }
        ensures places { places_of self.new ≡ places_of self.old }
        ensures unwritten { LeavesUnwritten self.old self.new }
        ensures gives { AdvanceGives (calls (places_of self.old)) (state_of self.old) (state_of self.new)
            (streams (I.left input.old) (I.faults input.old) (O.written out.old) (O.faults out.old))
            (streams (I.left input.new) (I.faults input.new) (O.written out.new) (O.faults out.new)) result }
    {
        let descriptor = self.registers.get(A0);
        match self.registers.get(A7) {
            93 => Advance::Exits((descriptor % 256) as u8),
            64 if descriptor == 1 => self.write_bytes(input, out),
            63 if descriptor == 0 => self.read_bytes(input, out),
            _ => Advance::Traps(TrapKind::Call),
        }
    }
}
