//! Numbers, words of memory and jumps.

ghost use Rattle.std.specs.Prelude.{◌≡◌, ◌++◌, ◌∷◌, [], OnOk};
ghost use Rattle.rv_isa.specs.declared.instruction.Inst.TheVariants.{Addi};
ghost use Rattle.rv_code.specs.Words.{address_code, call_code, fetch_code, jump_code, keep_code, load_by, load_number, lower, number_code, place_code, store_by, store_number, upper};

use block_memory::Access;
use c_types::IntKind;
use lay_base::{NoMemory, append};
use rv_isa::Inst;

/// The sum of a register and a number.
pub(crate) fn addi(rd: u8, rs1: u8, imm: i32) -> Inst
    ensures { result ≡ Addi rd rs1 imm }
{
    Inst::Addi { rd, rs1, imm }
}

/// The low 12 bits of a number as a signed one.
fn lower(n: u64) -> i32
    ensures { result ≡ lower n }
{
    let low = (n % 4096) as i32;
    if low < 2048 { low } else { low - 4096 }
}

/// The upper 20 of 32 bits, one more where the lower 12 are read as negative.
fn upper(n: u64) -> u32
    ensures { result ≡ upper n }
{
    ((n / 4096 + n % 4096 / 2048) % 1_048_576) as u32
}

/// A number comes into a register.
pub(crate) fn number(code: &mut Vec<Inst>, rd: u8, n: u64) -> Result<(), NoMemory>
    ensures { OnOk result (code.new.items ≡ code.old.items ++ number_code rd n) }
{
    let low = lower(n);
    let high = upper(n);
    if high == 0 {
        append(code, &[addi(rd, 0, low)])
    } else {
        append(code, &[Inst::Lui { rd, imm: high }, addi(rd, rd, low)])
    }
}

/// A place comes into a register.
pub(crate) fn place(code: &mut Vec<Inst>, rd: u8, n: u64) -> Result<(), NoMemory>
    ensures { OnOk result (code.new.items ≡ code.old.items ++ place_code rd n) }
{
    append(
        code,
        &[Inst::Lui { rd, imm: upper(n) }, addi(rd, rd, lower(n))],
    )
}

fn load_number(kind: IntKind, rd: u8, base: u8, by: i32) -> Inst
    ensures { result ≡ load_number kind rd base by }
{
    match kind {
        IntKind::Char => Inst::Lbu {
            rd,
            rs1: base,
            imm: by,
        },
        IntKind::SChar => Inst::Lb {
            rd,
            rs1: base,
            imm: by,
        },
        IntKind::UChar => Inst::Lbu {
            rd,
            rs1: base,
            imm: by,
        },
        IntKind::Short => Inst::Lh {
            rd,
            rs1: base,
            imm: by,
        },
        IntKind::UShort => Inst::Lhu {
            rd,
            rs1: base,
            imm: by,
        },
        _ => Inst::Lw {
            rd,
            rs1: base,
            imm: by,
        },
    }
}

fn store_number(kind: IntKind, base: u8, rs: u8, by: i32) -> Inst
    ensures { result ≡ store_number kind base rs by }
{
    match kind {
        IntKind::Char => Inst::Sb {
            rs1: base,
            rs2: rs,
            imm: by,
        },
        IntKind::SChar => Inst::Sb {
            rs1: base,
            rs2: rs,
            imm: by,
        },
        IntKind::UChar => Inst::Sb {
            rs1: base,
            rs2: rs,
            imm: by,
        },
        IntKind::Short => Inst::Sh {
            rs1: base,
            rs2: rs,
            imm: by,
        },
        IntKind::UShort => Inst::Sh {
            rs1: base,
            rs2: rs,
            imm: by,
        },
        _ => Inst::Sw {
            rs1: base,
            rs2: rs,
            imm: by,
        },
    }
}

/// The load of an access.
pub(crate) fn load_by(access: Access, rd: u8, base: u8, by: i32) -> Inst
    ensures { result ≡ load_by access rd base by }
{
    match access {
        Access::Number(kind) => load_number(kind, rd, base, by),
        Access::Pointer(_) => Inst::Lw {
            rd,
            rs1: base,
            imm: by,
        },
    }
}

/// The store of an access.
pub(crate) fn store_by(access: Access, base: u8, rs: u8, by: i32) -> Inst
    ensures { result ≡ store_by access base rs by }
{
    match access {
        Access::Number(kind) => store_number(kind, base, rs, by),
        Access::Pointer(_) => Inst::Sw {
            rs1: base,
            rs2: rs,
            imm: by,
        },
    }
}

/// A word behind an address comes into a register, which is not the one of the address.
pub(crate) fn fetch(code: &mut Vec<Inst>, rd: u8, base: u8, offset: u64) -> Result<(), NoMemory>
    ensures { OnOk result (code.new.items ≡ code.old.items ++ fetch_code rd base offset) }
{
    if offset < 2048 {
        append(
            code,
            &[Inst::Lw {
                rd,
                rs1: base,
                imm: offset as i32,
            }],
        )
    } else {
        append(
            code,
            &[
                Inst::Lui {
                    rd,
                    imm: upper(offset),
                },
                Inst::Add {
                    rd,
                    rs1: rd,
                    rs2: base,
                },
                Inst::Lw {
                    rd,
                    rs1: rd,
                    imm: lower(offset),
                },
            ],
        )
    }
}

/// A register is stored behind an address.
pub(crate) fn keep(
    code: &mut Vec<Inst>,
    access: Access,
    rs: u8,
    base: u8,
    offset: u64,
) -> Result<(), NoMemory>
    ensures { OnOk result (code.new.items ≡ code.old.items ++ keep_code access rs base offset) }
{
    if offset < 2048 {
        append(code, &[store_by(access, base, rs, offset as i32)])
    } else {
        append(
            code,
            &[
                Inst::Lui {
                    rd: 7,
                    imm: upper(offset),
                },
                Inst::Add {
                    rd: 7,
                    rs1: 7,
                    rs2: base,
                },
                store_by(access, 7, rs, lower(offset)),
            ],
        )
    }
}

/// An address so many bytes behind another one comes into a register, which is not the one of the other.
pub(crate) fn address(code: &mut Vec<Inst>, rd: u8, base: u8, offset: u64) -> Result<(), NoMemory>
    ensures { OnOk result (code.new.items ≡ code.old.items ++ address_code rd base offset) }
{
    if offset < 2048 {
        append(code, &[addi(rd, base, offset as i32)])
    } else {
        append(
            code,
            &[
                Inst::Lui {
                    rd,
                    imm: upper(offset),
                },
                addi(rd, rd, lower(offset)),
                Inst::Add {
                    rd,
                    rs1: rd,
                    rs2: base,
                },
            ],
        )
    }
}

/// A jump to a place.
pub(crate) fn jump(code: &mut Vec<Inst>, place: u64) -> Result<(), NoMemory>
    ensures { OnOk result (code.new.items ≡ code.old.items ++ jump_code place) }
{
    append(
        code,
        &[
            Inst::Lui {
                rd: 5,
                imm: upper(place),
            },
            Inst::Jalr {
                rd: 0,
                rs1: 5,
                imm: lower(place),
            },
        ],
    )
}

/// A call of a place.
pub(crate) fn call(code: &mut Vec<Inst>, place: u64) -> Result<(), NoMemory>
    ensures { OnOk result (code.new.items ≡ code.old.items ++ call_code place) }
{
    append(
        code,
        &[
            Inst::Lui {
                rd: 1,
                imm: upper(place),
            },
            Inst::Jalr {
                rd: 1,
                rs1: 1,
                imm: lower(place),
            },
        ],
    )
}
