//! The word of an instruction.

ghost use Rattle.std.specs.Prelude.{◌≡◌, ℕ, ◌^◌, ◌<◌, ◌%◌, Some};
ghost use Rattle.rv_isa.specs.declared.instruction.Inst.{Inst};
ghost use Rattle.rv_isa.specs.Encoding.{IsInRange, encoding, row, format_r, format_i, format_s, format_b, format_u, format_j};
ghost use Rattle.rv_isa.specs.TwosComplement.{low_bits};
ghost use Rattle.rv_isa.specs.Decoding.{decoded};

use crate::fields::{Fields, joined};
use crate::instruction::Inst;

fn low_5(imm: i32) -> u8
    ensures { result ≡ low_bits 5 imm }
{
    (imm.cast_unsigned() % 32) as u8
}

fn low_12(imm: i32) -> u32
    ensures { result ≡ low_bits 12 imm }
{
    imm.cast_unsigned() % 4096
}

fn low_13(imm: i32) -> u32
    ensures { result ≡ low_bits 13 imm }
{
    imm.cast_unsigned() % 8192
}

fn low_21(imm: i32) -> u32
    ensures { result ≡ low_bits 21 imm }
{
    imm.cast_unsigned() % 2097152
}

fn in_format_r(funct7: u32, rs2: u8, rs1: u8, funct3: u32, rd: u8, opcode: u32) -> Fields
    ensures { result ≡ format_r funct7 rs2 rs1 funct3 rd opcode }
{
    Fields {
        funct7,
        rs2: rs2 as u32,
        rs1: rs1 as u32,
        funct3,
        rd: rd as u32,
        opcode,
    }
}

fn in_format_i(imm: u32, rs1: u8, funct3: u32, rd: u8, opcode: u32) -> Fields
    ensures { result ≡ format_i imm rs1 funct3 rd opcode }
{
    Fields {
        funct7: imm / 32,
        rs2: imm % 32,
        rs1: rs1 as u32,
        funct3,
        rd: rd as u32,
        opcode,
    }
}

fn in_format_s(imm: u32, rs2: u8, rs1: u8, funct3: u32, opcode: u32) -> Fields
    ensures { result ≡ format_s imm rs2 rs1 funct3 opcode }
{
    Fields {
        funct7: imm / 32,
        rs2: rs2 as u32,
        rs1: rs1 as u32,
        funct3,
        rd: imm % 32,
        opcode,
    }
}

fn in_format_b(imm: u32, rs2: u8, rs1: u8, funct3: u32, opcode: u32) -> Fields
    ensures { result ≡ format_b imm rs2 rs1 funct3 opcode }
{
    Fields {
        funct7: imm / 4096 * 64 + imm / 32 % 64,
        rs2: rs2 as u32,
        rs1: rs1 as u32,
        funct3,
        rd: imm / 2 % 16 * 2 + imm / 2048 % 2,
        opcode,
    }
}

fn in_format_u(imm: u32, rd: u8, opcode: u32) -> Fields
    ensures { result ≡ format_u imm rd opcode }
{
    Fields {
        funct7: imm / 8192,
        rs2: imm / 256 % 32,
        rs1: imm / 8 % 32,
        funct3: imm % 8,
        rd: rd as u32,
        opcode,
    }
}

fn in_format_j(imm: u32, rd: u8, opcode: u32) -> Fields
    ensures { result ≡ format_j imm rd opcode }
{
    Fields {
        funct7: imm / 1048576 * 64 + imm / 32 % 64,
        rs2: imm / 2 % 16 * 2 + imm / 2048 % 2,
        rs1: imm / 32768 % 32,
        funct3: imm / 4096 % 8,
        rd: rd as u32,
        opcode,
    }
}

/// The table: one row for each instruction.
fn row_of(i: Inst) -> Fields
    ensures { result ≡ row i }
{
    match i {
        Inst::Lui { rd, imm } => in_format_u(imm, rd, 0x37),
        Inst::Auipc { rd, imm } => in_format_u(imm, rd, 0x17),
        Inst::Jal { rd, imm } => in_format_j(low_21(imm), rd, 0x6F),
        Inst::Jalr { rd, rs1, imm } => in_format_i(low_12(imm), rs1, 0, rd, 0x67),
        Inst::Beq { rs1, rs2, imm } => in_format_b(low_13(imm), rs2, rs1, 0, 0x63),
        Inst::Bne { rs1, rs2, imm } => in_format_b(low_13(imm), rs2, rs1, 1, 0x63),
        Inst::Blt { rs1, rs2, imm } => in_format_b(low_13(imm), rs2, rs1, 4, 0x63),
        Inst::Bge { rs1, rs2, imm } => in_format_b(low_13(imm), rs2, rs1, 5, 0x63),
        Inst::Bltu { rs1, rs2, imm } => in_format_b(low_13(imm), rs2, rs1, 6, 0x63),
        Inst::Bgeu { rs1, rs2, imm } => in_format_b(low_13(imm), rs2, rs1, 7, 0x63),
        Inst::Lb { rd, rs1, imm } => in_format_i(low_12(imm), rs1, 0, rd, 0x03),
        Inst::Lh { rd, rs1, imm } => in_format_i(low_12(imm), rs1, 1, rd, 0x03),
        Inst::Lw { rd, rs1, imm } => in_format_i(low_12(imm), rs1, 2, rd, 0x03),
        Inst::Lbu { rd, rs1, imm } => in_format_i(low_12(imm), rs1, 4, rd, 0x03),
        Inst::Lhu { rd, rs1, imm } => in_format_i(low_12(imm), rs1, 5, rd, 0x03),
        Inst::Sb { rs1, rs2, imm } => in_format_s(low_12(imm), rs2, rs1, 0, 0x23),
        Inst::Sh { rs1, rs2, imm } => in_format_s(low_12(imm), rs2, rs1, 1, 0x23),
        Inst::Sw { rs1, rs2, imm } => in_format_s(low_12(imm), rs2, rs1, 2, 0x23),
        Inst::Addi { rd, rs1, imm } => in_format_i(low_12(imm), rs1, 0, rd, 0x13),
        Inst::Slti { rd, rs1, imm } => in_format_i(low_12(imm), rs1, 2, rd, 0x13),
        Inst::Sltiu { rd, rs1, imm } => in_format_i(low_12(imm), rs1, 3, rd, 0x13),
        Inst::Xori { rd, rs1, imm } => in_format_i(low_12(imm), rs1, 4, rd, 0x13),
        Inst::Ori { rd, rs1, imm } => in_format_i(low_12(imm), rs1, 6, rd, 0x13),
        Inst::Andi { rd, rs1, imm } => in_format_i(low_12(imm), rs1, 7, rd, 0x13),
        Inst::Slli { rd, rs1, imm } => in_format_r(0, low_5(imm), rs1, 1, rd, 0x13),
        Inst::Srli { rd, rs1, imm } => in_format_r(0, low_5(imm), rs1, 5, rd, 0x13),
        Inst::Srai { rd, rs1, imm } => in_format_r(0x20, low_5(imm), rs1, 5, rd, 0x13),
        Inst::Add { rd, rs1, rs2 } => in_format_r(0, rs2, rs1, 0, rd, 0x33),
        Inst::Sub { rd, rs1, rs2 } => in_format_r(0x20, rs2, rs1, 0, rd, 0x33),
        Inst::Sll { rd, rs1, rs2 } => in_format_r(0, rs2, rs1, 1, rd, 0x33),
        Inst::Slt { rd, rs1, rs2 } => in_format_r(0, rs2, rs1, 2, rd, 0x33),
        Inst::Sltu { rd, rs1, rs2 } => in_format_r(0, rs2, rs1, 3, rd, 0x33),
        Inst::Xor { rd, rs1, rs2 } => in_format_r(0, rs2, rs1, 4, rd, 0x33),
        Inst::Srl { rd, rs1, rs2 } => in_format_r(0, rs2, rs1, 5, rd, 0x33),
        Inst::Sra { rd, rs1, rs2 } => in_format_r(0x20, rs2, rs1, 5, rd, 0x33),
        Inst::Or { rd, rs1, rs2 } => in_format_r(0, rs2, rs1, 6, rd, 0x33),
        Inst::And { rd, rs1, rs2 } => in_format_r(0, rs2, rs1, 7, rd, 0x33),
        Inst::Mul { rd, rs1, rs2 } => in_format_r(1, rs2, rs1, 0, rd, 0x33),
        Inst::Mulh { rd, rs1, rs2 } => in_format_r(1, rs2, rs1, 1, rd, 0x33),
        Inst::Mulhsu { rd, rs1, rs2 } => in_format_r(1, rs2, rs1, 2, rd, 0x33),
        Inst::Mulhu { rd, rs1, rs2 } => in_format_r(1, rs2, rs1, 3, rd, 0x33),
        Inst::Div { rd, rs1, rs2 } => in_format_r(1, rs2, rs1, 4, rd, 0x33),
        Inst::Divu { rd, rs1, rs2 } => in_format_r(1, rs2, rs1, 5, rd, 0x33),
        Inst::Rem { rd, rs1, rs2 } => in_format_r(1, rs2, rs1, 6, rd, 0x33),
        Inst::Remu { rd, rs1, rs2 } => in_format_r(1, rs2, rs1, 7, rd, 0x33),
        Inst::Fence { rd, rs1, imm } => in_format_i(low_12(imm), rs1, 0, rd, 0x0F),
        Inst::Ecall => in_format_r(0, 0, 0, 0, 0, 0x73),
        Inst::Ebreak => in_format_r(0, 1, 0, 0, 0, 0x73),
    }
}

/// The word of an instruction (RISC-V unprivileged specification, instruction set listings).
pub fn encode(i: Inst) -> u32
    requires { IsInRange i }
    ensures { result ≡ encoding i }
{
    joined(row_of(i))
}

/// The table and the step's decoder agree: the word of an instruction is read as that instruction,
/// and what a word is read as has that word.
pub fn words_are_read_back()
    ensures read { (i : Inst) → IsInRange i → decoded (encoding i) ≡ Some i }
    ensures only { (w : ℕ) (i : Inst) → w < 2 ^ 32 → decoded w ≡ Some i → IsInRange i × (encoding i ≡ w) }
{}
