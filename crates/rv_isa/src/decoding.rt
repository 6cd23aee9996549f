//! The instruction of a word.

ghost use Rattle.std.specs.Prelude.{◌≡◌, ◌^◌, ◌<◌, ℕ, MatchOption, Some};
ghost use Rattle.rv_isa.specs.declared.instruction.Inst.{Inst};
ghost use Rattle.rv_isa.specs.Fields.{InRange};
ghost use Rattle.rv_isa.specs.TwosComplement.{signed};
ghost use Rattle.rv_isa.specs.Encoding.{IsInRange, encoding};
ghost use Rattle.rv_isa.specs.Decoding.{by_opcode, branch_of, decoded, fence_of, immediate_of, imm_b, imm_i, imm_j, imm_s, imm_u, indirect_jump_of};
ghost use Rattle.rv_isa.specs.Decoding.{load_of, register_of, store_of, system_of};

use crate::fields::{Fields, split};
use crate::instruction::Inst;

fn signed_12(n: u32) -> i32
    requires { n < 2 ^ 12 }
    ensures { result ≡ signed 12 n }
{
    if n < 2048 { n as i32 } else { n as i32 - 4096 }
}

fn signed_13(n: u32) -> i32
    requires { n < 2 ^ 13 }
    ensures { result ≡ signed 13 n }
{
    if n < 4096 { n as i32 } else { n as i32 - 8192 }
}

fn signed_21(n: u32) -> i32
    requires { n < 2 ^ 21 }
    ensures { result ≡ signed 21 n }
{
    if n < 1048576 {
        n as i32
    } else {
        n as i32 - 2097152
    }
}

// ---- the immediates of the formats

fn immediate_i(f: Fields) -> i32
    requires { InRange f }
    ensures { result ≡ imm_i f }
{
    signed_12(f.rs2 + 32 * f.funct7)
}

fn immediate_s(f: Fields) -> i32
    requires { InRange f }
    ensures { result ≡ imm_s f }
{
    signed_12(f.rd + 32 * f.funct7)
}

fn immediate_b(f: Fields) -> i32
    requires { InRange f }
    ensures { result ≡ imm_b f }
{
    signed_13(f.rd / 2 * 2 + 32 * (f.funct7 % 64) + 2048 * (f.rd % 2) + 4096 * (f.funct7 / 64))
}

fn immediate_u(f: Fields) -> u32
    requires { InRange f }
    ensures { result ≡ imm_u f }
{
    f.funct3 + 8 * f.rs1 + 256 * f.rs2 + 8192 * f.funct7
}

fn immediate_j(f: Fields) -> i32
    requires { InRange f }
    ensures { result ≡ imm_j f }
{
    signed_21(
        f.rs2 / 2 * 2
            + 32 * (f.funct7 % 64)
            + 2048 * (f.rs2 % 2)
            + 4096 * f.funct3
            + 32768 * f.rs1
            + 1048576 * (f.funct7 / 64),
    )
}

// ---- by opcode

fn read_indirect_jump(f: Fields) -> Option<Inst>
    requires { InRange f }
    ensures { result ≡ indirect_jump_of f }
{
    if f.funct3 == 0 {
        Some(Inst::Jalr {
            rd: f.rd as u8,
            rs1: f.rs1 as u8,
            imm: immediate_i(f),
        })
    } else {
        None
    }
}

fn read_branch(f: Fields) -> Option<Inst>
    requires { InRange f }
    ensures { result ≡ branch_of f }
{
    let (rs1, rs2, imm) = (f.rs1 as u8, f.rs2 as u8, immediate_b(f));
    match f.funct3 {
        0 => Some(Inst::Beq { rs1, rs2, imm }),
        1 => Some(Inst::Bne { rs1, rs2, imm }),
        4 => Some(Inst::Blt { rs1, rs2, imm }),
        5 => Some(Inst::Bge { rs1, rs2, imm }),
        6 => Some(Inst::Bltu { rs1, rs2, imm }),
        7 => Some(Inst::Bgeu { rs1, rs2, imm }),
        _ => None,
    }
}

fn read_load(f: Fields) -> Option<Inst>
    requires { InRange f }
    ensures { result ≡ load_of f }
{
    let (rd, rs1, imm) = (f.rd as u8, f.rs1 as u8, immediate_i(f));
    match f.funct3 {
        0 => Some(Inst::Lb { rd, rs1, imm }),
        1 => Some(Inst::Lh { rd, rs1, imm }),
        2 => Some(Inst::Lw { rd, rs1, imm }),
        4 => Some(Inst::Lbu { rd, rs1, imm }),
        5 => Some(Inst::Lhu { rd, rs1, imm }),
        _ => None,
    }
}

fn read_store(f: Fields) -> Option<Inst>
    requires { InRange f }
    ensures { result ≡ store_of f }
{
    let (rs1, rs2, imm) = (f.rs1 as u8, f.rs2 as u8, immediate_s(f));
    match f.funct3 {
        0 => Some(Inst::Sb { rs1, rs2, imm }),
        1 => Some(Inst::Sh { rs1, rs2, imm }),
        2 => Some(Inst::Sw { rs1, rs2, imm }),
        _ => None,
    }
}

fn read_immediate(f: Fields) -> Option<Inst>
    requires { InRange f }
    ensures { result ≡ immediate_of f }
{
    let (rd, rs1, imm) = (f.rd as u8, f.rs1 as u8, immediate_i(f));
    let amount = f.rs2 as i32;
    match (f.funct3, f.funct7) {
        (0, _) => Some(Inst::Addi { rd, rs1, imm }),
        (1, 0) => Some(Inst::Slli {
            rd,
            rs1,
            imm: amount,
        }),
        (2, _) => Some(Inst::Slti { rd, rs1, imm }),
        (3, _) => Some(Inst::Sltiu { rd, rs1, imm }),
        (4, _) => Some(Inst::Xori { rd, rs1, imm }),
        (5, 0) => Some(Inst::Srli {
            rd,
            rs1,
            imm: amount,
        }),
        (5, 0x20) => Some(Inst::Srai {
            rd,
            rs1,
            imm: amount,
        }),
        (6, _) => Some(Inst::Ori { rd, rs1, imm }),
        (7, _) => Some(Inst::Andi { rd, rs1, imm }),
        _ => None,
    }
}

fn read_register(f: Fields) -> Option<Inst>
    requires { InRange f }
    ensures { result ≡ register_of f }
{
    let (rd, rs1, rs2) = (f.rd as u8, f.rs1 as u8, f.rs2 as u8);
    match (f.funct7, f.funct3) {
        (0, 0) => Some(Inst::Add { rd, rs1, rs2 }),
        (0x20, 0) => Some(Inst::Sub { rd, rs1, rs2 }),
        (0, 1) => Some(Inst::Sll { rd, rs1, rs2 }),
        (0, 2) => Some(Inst::Slt { rd, rs1, rs2 }),
        (0, 3) => Some(Inst::Sltu { rd, rs1, rs2 }),
        (0, 4) => Some(Inst::Xor { rd, rs1, rs2 }),
        (0, 5) => Some(Inst::Srl { rd, rs1, rs2 }),
        (0x20, 5) => Some(Inst::Sra { rd, rs1, rs2 }),
        (0, 6) => Some(Inst::Or { rd, rs1, rs2 }),
        (0, 7) => Some(Inst::And { rd, rs1, rs2 }),
        (1, 0) => Some(Inst::Mul { rd, rs1, rs2 }),
        (1, 1) => Some(Inst::Mulh { rd, rs1, rs2 }),
        (1, 2) => Some(Inst::Mulhsu { rd, rs1, rs2 }),
        (1, 3) => Some(Inst::Mulhu { rd, rs1, rs2 }),
        (1, 4) => Some(Inst::Div { rd, rs1, rs2 }),
        (1, 5) => Some(Inst::Divu { rd, rs1, rs2 }),
        (1, 6) => Some(Inst::Rem { rd, rs1, rs2 }),
        (1, 7) => Some(Inst::Remu { rd, rs1, rs2 }),
        _ => None,
    }
}

fn read_fence(f: Fields) -> Option<Inst>
    requires { InRange f }
    ensures { result ≡ fence_of f }
{
    if f.funct3 == 0 {
        Some(Inst::Fence {
            rd: f.rd as u8,
            rs1: f.rs1 as u8,
            imm: immediate_i(f),
        })
    } else {
        None
    }
}

fn read_system(f: Fields) -> Option<Inst>
    ensures { result ≡ system_of f }
{
    if f.funct7 == 0 && f.rs1 == 0 && f.funct3 == 0 && f.rd == 0 {
        match f.rs2 {
            0 => Some(Inst::Ecall),
            1 => Some(Inst::Ebreak),
            _ => None,
        }
    } else {
        None
    }
}

fn instruction_of(f: Fields) -> Option<Inst>
    requires { InRange f }
    ensures { result ≡ by_opcode f }
{
    match f.opcode {
        0x37 => Some(Inst::Lui {
            rd: f.rd as u8,
            imm: immediate_u(f),
        }),
        0x17 => Some(Inst::Auipc {
            rd: f.rd as u8,
            imm: immediate_u(f),
        }),
        0x6F => Some(Inst::Jal {
            rd: f.rd as u8,
            imm: immediate_j(f),
        }),
        0x67 => read_indirect_jump(f),
        0x63 => read_branch(f),
        0x03 => read_load(f),
        0x23 => read_store(f),
        0x13 => read_immediate(f),
        0x33 => read_register(f),
        0x0F => read_fence(f),
        0x73 => read_system(f),
        _ => None,
    }
}

/// The instruction of a word as the step reads it.
#[tactic(auto, unfolding(crate::specs::Decoding::decoded))]
fn instruction_in(word: u32) -> Option<Inst>
    ensures { result ≡ decoded word }
{
    instruction_of(split(word))
}

/// The instruction whose word this is; `None` exactly where no instruction has the word (RISC-V
/// unprivileged specification, instruction set listings).
pub fn decode(word: u32) -> Option<Inst>
    ensures value { result ≡ decoded word }
    ensures of_table { MatchOption result
        ((i : Inst) → IsInRange i → encoding i ≡ word → ⊥)
        (λ i. IsInRange i × (encoding i ≡ word)) }
{
    instruction_in(word)
}
