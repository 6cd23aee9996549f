//! What each instruction does to a hart.

use crate::arithmetic::{
    extended, high_mixed, high_signed, high_unsigned, is_less, plus, quotient, quotient_unsigned,
    remainder, remainder_unsigned, shifted_left, shifted_right, shifted_right_signed, word_if,
};
use crate::hart::{Hart, Moved};
use rv_isa::Inst;

impl Hart {
    ghost use Rattle.std.specs.Prelude.{◌≡◌, ◌<◌};
    ghost use Rattle.rv_isa.specs.Encoding.{IsInRange};
    ghost use Rattle.rv_machine.specs.Harts.{Computes, HasOpcode, IsBasic, IsOfM, Performs, places_of, state_at};

    /// Executes an instruction, one arm for each here and in the functions below (RISC-V
    /// unprivileged specification, RV32I and M).
    #[inline(always)]
    pub(crate) fn execute(&mut self, pc: &mut u32, inst: &Inst) -> Moved
        requires { IsInRange inst.now }
        ensures places { places_of self.new ≡ places_of self.old }
        ensures moved { Performs (places_of self.old) (state_at self.old pc.old) (state_at self.new pc.new) inst.now result }
    {
        let here = *pc;
        match *inst {
            Inst::Lui { rd, imm } => self.write(pc, rd, imm * 4096),
            Inst::Auipc { rd, imm } => self.write(pc, rd, here.wrapping_add(imm * 4096)),
            Inst::Jal { rd, imm } => self.jump_over(pc, rd, imm),
            Inst::Jalr { rd, rs1, imm } => self.jump(pc, rd, plus(self.get(rs1), imm) / 2 * 2),
            Inst::Beq { rs1, rs2, imm } => self.branch(pc, self.get(rs1) == self.get(rs2), imm),
            Inst::Bne { rs1, rs2, imm } => self.branch(pc, self.get(rs1) != self.get(rs2), imm),
            Inst::Blt { rs1, rs2, imm } => self.branch(
                pc,
                is_less(self.get(rs1), self.get(rs2)),
                imm,
            ),
            Inst::Bge { rs1, rs2, imm } => self.branch(
                pc,
                !is_less(self.get(rs1), self.get(rs2)),
                imm,
            ),
            Inst::Bltu { rs1, rs2, imm } => self.branch(pc, self.get(rs1) < self.get(rs2), imm),
            Inst::Bgeu { rs1, rs2, imm } => self.branch(pc, self.get(rs1) >= self.get(rs2), imm),
            Inst::Lb { rd, rs1, imm } => self.load_byte(pc, rd, rs1, imm, true),
            Inst::Lh { rd, rs1, imm } => self.load_half(pc, rd, rs1, imm, true),
            Inst::Lw { rd, rs1, imm } => self.load_word(pc, rd, rs1, imm),
            Inst::Lbu { rd, rs1, imm } => self.load_byte(pc, rd, rs1, imm, false),
            Inst::Lhu { rd, rs1, imm } => self.load_half(pc, rd, rs1, imm, false),
            Inst::Sb { rs1, rs2, imm } => self.store_byte(pc, rs1, rs2, imm),
            Inst::Sh { rs1, rs2, imm } => self.store_half(pc, rs1, rs2, imm),
            Inst::Sw { rs1, rs2, imm } => self.store_word(pc, rs1, rs2, imm),
            Inst::Fence { .. } => self.pass(pc),
            Inst::Ecall => Moved::Calls,
            Inst::Ebreak => Moved::Breaks,
            Inst::Addi { .. }
            | Inst::Slti { .. }
            | Inst::Sltiu { .. }
            | Inst::Xori { .. }
            | Inst::Ori { .. }
            | Inst::Andi { .. }
            | Inst::Slli { .. }
            | Inst::Srli { .. }
            | Inst::Srai { .. } => self.give(pc, self.with_immediate(inst)),
            Inst::Mul { .. }
            | Inst::Mulh { .. }
            | Inst::Mulhsu { .. }
            | Inst::Mulhu { .. }
            | Inst::Div { .. }
            | Inst::Divu { .. }
            | Inst::Rem { .. }
            | Inst::Remu { .. } => self.give(pc, self.multiplied_or_divided(inst)),
            _ => self.give(pc, self.with_registers(inst)),
        }
    }

    /// The register that gets a word by a register and an immediate, and the word (RV32I, opcode OP-IMM).
    #[inline(always)]
    fn with_immediate(&self, inst: &Inst) -> (u8, u32)
        requires range { IsInRange inst.now }
        requires opcode { HasOpcode 0x13 inst.now }
        ensures register { result.0 < 32 }
        ensures word { Computes self.now.registers inst.now result.0 result.1 }
    {
        match *inst {
            Inst::Addi { rd, rs1, imm } => (rd, plus(self.get(rs1), imm)),
            Inst::Slti { rd, rs1, imm } => (rd, word_if(is_less(self.get(rs1), extended(imm)))),
            Inst::Sltiu { rd, rs1, imm } => (rd, word_if(self.get(rs1) < extended(imm))),
            Inst::Xori { rd, rs1, imm } => (rd, self.get(rs1) ^ extended(imm)),
            Inst::Ori { rd, rs1, imm } => (rd, self.get(rs1) | extended(imm)),
            Inst::Andi { rd, rs1, imm } => (rd, self.get(rs1) & extended(imm)),
            Inst::Slli { rd, rs1, imm } => (rd, shifted_left(self.get(rs1), extended(imm))),
            Inst::Srli { rd, rs1, imm } => (rd, shifted_right(self.get(rs1), extended(imm))),
            Inst::Srai { rd, rs1, imm } => (rd, shifted_right_signed(self.get(rs1), extended(imm))),
            _ => unreachable!(),
        }
    }

    /// The same by two registers (RV32I, opcode OP).
    #[inline(always)]
    fn with_registers(&self, inst: &Inst) -> (u8, u32)
        requires range { IsInRange inst.now }
        requires basic { IsBasic inst.now }
        ensures register { result.0 < 32 }
        ensures word { Computes self.now.registers inst.now result.0 result.1 }
    {
        match *inst {
            Inst::Add { rd, rs1, rs2 } => (rd, self.get(rs1).wrapping_add(self.get(rs2))),
            Inst::Sub { rd, rs1, rs2 } => (rd, self.get(rs1).wrapping_sub(self.get(rs2))),
            Inst::Sll { rd, rs1, rs2 } => (rd, shifted_left(self.get(rs1), self.get(rs2))),
            Inst::Slt { rd, rs1, rs2 } => (rd, word_if(is_less(self.get(rs1), self.get(rs2)))),
            Inst::Sltu { rd, rs1, rs2 } => (rd, word_if(self.get(rs1) < self.get(rs2))),
            Inst::Xor { rd, rs1, rs2 } => (rd, self.get(rs1) ^ self.get(rs2)),
            Inst::Srl { rd, rs1, rs2 } => (rd, shifted_right(self.get(rs1), self.get(rs2))),
            Inst::Sra { rd, rs1, rs2 } => (rd, shifted_right_signed(self.get(rs1), self.get(rs2))),
            Inst::Or { rd, rs1, rs2 } => (rd, self.get(rs1) | self.get(rs2)),
            Inst::And { rd, rs1, rs2 } => (rd, self.get(rs1) & self.get(rs2)),
            _ => unreachable!(),
        }
    }

    /// The same of the extension M.
    #[inline(always)]
    fn multiplied_or_divided(&self, inst: &Inst) -> (u8, u32)
        requires range { IsInRange inst.now }
        requires extension { IsOfM inst.now }
        ensures register { result.0 < 32 }
        ensures word { Computes self.now.registers inst.now result.0 result.1 }
    {
        match *inst {
            Inst::Mul { rd, rs1, rs2 } => (rd, self.get(rs1).wrapping_mul(self.get(rs2))),
            Inst::Mulh { rd, rs1, rs2 } => (rd, high_signed(self.get(rs1), self.get(rs2))),
            Inst::Mulhsu { rd, rs1, rs2 } => (rd, high_mixed(self.get(rs1), self.get(rs2))),
            Inst::Mulhu { rd, rs1, rs2 } => (rd, high_unsigned(self.get(rs1), self.get(rs2))),
            Inst::Div { rd, rs1, rs2 } => (rd, quotient(self.get(rs1), self.get(rs2))),
            Inst::Divu { rd, rs1, rs2 } => (rd, quotient_unsigned(self.get(rs1), self.get(rs2))),
            Inst::Rem { rd, rs1, rs2 } => (rd, remainder(self.get(rs1), self.get(rs2))),
            Inst::Remu { rd, rs1, rs2 } => (rd, remainder_unsigned(self.get(rs1), self.get(rs2))),
            _ => unreachable!(),
        }
    }
}
