//! A hart: the registers, the program counter and the memory, and what each instruction does to them.

ghost use Rattle.std.specs.Prelude.{◌≡◌, ◌%◌, ◌==◌, ◌<◌, slice_index};
ghost use Rattle.rv_isa.specs.Arithmetic.{plus as plus_word};

use crate::arithmetic::{extended, extended_byte, extended_half, plus};
use crate::memory::Memory;
use crate::registers::Registers;
use lay_base::TrapKind;

/// What an instruction did.
#[derive(Clone, Copy)]
pub enum Moved {
    /// The next instruction follows.
    Goes,
    /// The program ended with a status.
    Exits(u8),
    /// Nothing was done, for this reason.
    Traps(TrapKind),
    /// The program stopped at an EBREAK.
    Breaks,
    /// The environment is called, which is left to the caller.
    Calls,
}

/// Whether the address at a distance is a multiple of 4. It is told without that address, so that one register of the processor holds the program
/// counter, and then the target.
#[inline(always)]
fn is_whole(pc: u32, distance: i32) -> bool
    ensures { result ≡ (plus_word pc distance % 4 == 0) }
{
    pc.wrapping_neg() % 4 == extended(distance) % 4
}

/// Registers, program counter and memory. While the machine runs, the program counter is apart from the hart (`pc`), so that the loop over the steps has it
/// in a register of the processor; here it is as it was when the loop began, or when another function asked for it.
#[derive(Drop)]
pub struct Hart {
    pub(crate) memory: Memory,
    pub(crate) registers: Registers,
    pub(crate) pc: u32,
}

impl Hart {
    ghost use Rattle.std.specs.Prelude.{◌≡◌, ◌<◌, if◌then◌else◌, slice_index};
    ghost use Rattle.rv_isa.specs.declared.instruction.Inst.TheVariants as I;
    ghost use Rattle.rv_isa.specs.Arithmetic.{plus as plus_word};
    ghost use Rattle.rv_isa.specs.Step.{branches, jumps, writes};
    ghost use Rattle.rv_machine.specs.Harts.{Does, Executes, passes, places_of, state_at};

    /// What a register holds.
    #[inline(always)]
    pub(crate) fn get(&self, r: u8) -> u32
        requires { r < 32 }
        ensures { result ≡ slice_index self.now.registers r }
    {
        self.registers.get(r)
    }

    /// The register gets the value, and the next instruction follows.
    #[inline(always)]
    pub(crate) fn write(&mut self, pc: &mut u32, rd: u8, value: u32) -> Moved
        requires { rd < 32 }
        ensures places { places_of self.new ≡ places_of self.old }
        ensures moved { Executes (state_at self.old pc.old) (state_at self.new pc.new) (writes (state_at self.old pc.old) rd value) result }
    {
        *pc = pc.wrapping_add(4);
        self.registers.put(rd, value);
        Moved::Goes
    }

    /// The same of a register and its value.
    #[inline(always)]
    pub(crate) fn give(&mut self, pc: &mut u32, given: (u8, u32)) -> Moved
        requires { given.0 < 32 }
        ensures places { places_of self.new ≡ places_of self.old }
        ensures moved { Executes (state_at self.old pc.old) (state_at self.new pc.new) (writes (state_at self.old pc.old) given.0 given.1) result }
    {
        self.write(pc, given.0, given.1)
    }

    /// Nothing is done, and the next instruction follows.
    #[inline(always)]
    pub(crate) fn pass(&mut self, pc: &mut u32) -> Moved
        ensures places { places_of self.new ≡ places_of self.old }
        ensures moved { Executes (state_at self.old pc.old) (state_at self.new pc.new) (passes (state_at self.old pc.old)) result }
    {
        *pc = pc.wrapping_add(4);
        Moved::Goes
    }

    /// A jump, whose target is to be a multiple of 4; the register gets the place after it.
    #[inline(always)]
    pub(crate) fn jump(&mut self, pc: &mut u32, rd: u8, target: u32) -> Moved
        requires { rd < 32 }
        ensures places { places_of self.new ≡ places_of self.old }
        ensures moved { Executes (state_at self.old pc.old) (state_at self.new pc.new) (jumps (state_at self.old pc.old) rd target) result }
    {
        if target % 4 != 0 {
            return Moved::Traps(TrapKind::Jump);
        }
        let next = pc.wrapping_add(4);
        *pc = target;
        self.registers.put(rd, next);
        Moved::Goes
    }

    /// A jump over a distance; the register gets the place after it.
    #[inline(always)]
    pub(crate) fn jump_over(&mut self, pc: &mut u32, rd: u8, distance: i32) -> Moved
        requires { rd < 32 }
        ensures places { places_of self.new ≡ places_of self.old }
        ensures moved { Executes (state_at self.old pc.old) (state_at self.new pc.new) (jumps (state_at self.old pc.old) rd (plus_word pc.old distance)) result }
    {
        if !is_whole(*pc, distance) {
            return Moved::Traps(TrapKind::Jump);
        }
        let next = pc.wrapping_add(4);
        *pc = plus(*pc, distance);
        self.registers.put(rd, next);
        Moved::Goes
    }

    /// A jump over a distance where the test holds, else the next instruction follows.
    #[inline(always)]
    pub(crate) fn branch(&mut self, pc: &mut u32, test: bool, distance: i32) -> Moved
        ensures places { places_of self.new ≡ places_of self.old }
        ensures moved { Executes (state_at self.old pc.old) (state_at self.new pc.new) (branches (state_at self.old pc.old) test distance) result }
    {
        if !test {
            *pc = pc.wrapping_add(4);
            return Moved::Goes;
        }
        if !is_whole(*pc, distance) {
            return Moved::Traps(TrapKind::Jump);
        }
        *pc = plus(*pc, distance);
        Moved::Goes
    }

    /// The address that a load or a store speaks of.
    #[inline(always)]
    fn address(&self, rs1: u8, imm: i32) -> u32
        requires { rs1 < 32 }
        ensures { result ≡ plus_word (slice_index self.now.registers rs1) imm }
    {
        plus(self.get(rs1), imm)
    }

    /// A byte, with its sign or with zeros before it.
    #[inline(always)]
    pub(crate) fn load_byte(
        &mut self,
        pc: &mut u32,
        rd: u8,
        rs1: u8,
        imm: i32,
        signed: bool,
    ) -> Moved
        requires rd { rd < 32 }
        requires rs1 { rs1 < 32 }
        ensures places { places_of self.new ≡ places_of self.old }
        ensures moved { Does (places_of self.old) (state_at self.old pc.old) (state_at self.new pc.new) (if signed then I.Lb rd rs1 imm else I.Lbu rd rs1 imm) result }
    {
        let address = self.address(rs1, imm);
        match self.memory.load_byte(rs1, address) {
            Some(byte) if signed => self.write(pc, rd, extended_byte(byte)),
            Some(byte) => self.write(pc, rd, byte as u32),
            None => Moved::Traps(TrapKind::Unmapped),
        }
    }

    /// A half word, with its sign or with zeros before it.
    #[inline(always)]
    pub(crate) fn load_half(
        &mut self,
        pc: &mut u32,
        rd: u8,
        rs1: u8,
        imm: i32,
        signed: bool,
    ) -> Moved
        requires rd { rd < 32 }
        requires rs1 { rs1 < 32 }
        ensures places { places_of self.new ≡ places_of self.old }
        ensures moved { Does (places_of self.old) (state_at self.old pc.old) (state_at self.new pc.new) (if signed then I.Lh rd rs1 imm else I.Lhu rd rs1 imm) result }
    {
        let address = self.address(rs1, imm);
        if address % 2 != 0 {
            return Moved::Traps(TrapKind::Misaligned);
        }
        match self.memory.load_half(rs1, address) {
            Some(half) if signed => self.write(pc, rd, extended_half(half)),
            Some(half) => self.write(pc, rd, half as u32),
            None => Moved::Traps(TrapKind::Unmapped),
        }
    }

    /// A word.
    #[inline(always)]
    pub(crate) fn load_word(&mut self, pc: &mut u32, rd: u8, rs1: u8, imm: i32) -> Moved
        requires rd { rd < 32 }
        requires rs1 { rs1 < 32 }
        ensures places { places_of self.new ≡ places_of self.old }
        ensures moved { Does (places_of self.old) (state_at self.old pc.old) (state_at self.new pc.new) (I.Lw rd rs1 imm) result }
    {
        let address = self.address(rs1, imm);
        if address % 4 != 0 {
            return Moved::Traps(TrapKind::Misaligned);
        }
        match self.memory.load_word(rs1, address) {
            Some(word) => self.write(pc, rd, word),
            None => Moved::Traps(TrapKind::Unmapped),
        }
    }

    /// The low byte of a register.
    #[inline(always)]
    pub(crate) fn store_byte(&mut self, pc: &mut u32, rs1: u8, rs2: u8, imm: i32) -> Moved
        requires rs1 { rs1 < 32 }
        requires rs2 { rs2 < 32 }
        ensures places { places_of self.new ≡ places_of self.old }
        ensures moved { Does (places_of self.old) (state_at self.old pc.old) (state_at self.new pc.new) (I.Sb rs1 rs2 imm) result }
    {
        let address = self.address(rs1, imm);
        let value = self.get(rs2);
        if self.memory.store_byte(rs1, address, value) {
            *pc = pc.wrapping_add(4);
            Moved::Goes
        } else {
            Moved::Traps(TrapKind::Unmapped)
        }
    }

    /// The low half word of a register.
    #[inline(always)]
    pub(crate) fn store_half(&mut self, pc: &mut u32, rs1: u8, rs2: u8, imm: i32) -> Moved
        requires rs1 { rs1 < 32 }
        requires rs2 { rs2 < 32 }
        ensures places { places_of self.new ≡ places_of self.old }
        ensures moved { Does (places_of self.old) (state_at self.old pc.old) (state_at self.new pc.new) (I.Sh rs1 rs2 imm) result }
    {
        let address = self.address(rs1, imm);
        if address % 2 != 0 {
            return Moved::Traps(TrapKind::Misaligned);
        }
        let value = self.get(rs2);
        if self.memory.store_half(rs1, address, value) {
            *pc = pc.wrapping_add(4);
            Moved::Goes
        } else {
            Moved::Traps(TrapKind::Unmapped)
        }
    }

    /// A register.
    #[inline(always)]
    pub(crate) fn store_word(&mut self, pc: &mut u32, rs1: u8, rs2: u8, imm: i32) -> Moved
        requires rs1 { rs1 < 32 }
        requires rs2 { rs2 < 32 }
        ensures places { places_of self.new ≡ places_of self.old }
        ensures moved { Does (places_of self.old) (state_at self.old pc.old) (state_at self.new pc.new) (I.Sw rs1 rs2 imm) result }
    {
        let address = self.address(rs1, imm);
        if address % 4 != 0 {
            return Moved::Traps(TrapKind::Misaligned);
        }
        let value = self.get(rs2);
        if self.memory.store_word(rs1, address, value) {
            *pc = pc.wrapping_add(4);
            Moved::Goes
        } else {
            Moved::Traps(TrapKind::Unmapped)
        }
    }
}
