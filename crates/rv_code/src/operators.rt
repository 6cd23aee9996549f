//! The operators of C.

ghost use Rattle.std.specs.Prelude.{◌≡◌, ◌++◌, ◌∷◌, [], OnOk};
ghost use Rattle.rv_code.specs.Operators.{binary_code, compare_code, convert_code, distance_code, less_code, move_code, not_code, offset_code, opposite, pointer_code, scale_code, skip_if, skip_less, skip_not_less, skip_unless, skip_unless_true, unary_code};

use crate::words::{addi, number};
use c_typed::{BinaryOp, CompareOp, PointerOp, UnaryOp, is_signed};
use c_types::IntKind;
use lay_base::{NoMemory, append};
use rv_isa::Inst;

pub(crate) fn unary(code: &mut Vec<Inst>, op: UnaryOp) -> Result<(), NoMemory>
    ensures { OnOk result (code.new.items ≡ code.old.items ++ unary_code op) }
{
    match op {
        UnaryOp::Plus => Ok(()),
        UnaryOp::Minus => append(
            code,
            &[Inst::Sub {
                rd: 5,
                rs1: 0,
                rs2: 5,
            }],
        ),
        UnaryOp::Complement => append(
            code,
            &[Inst::Xori {
                rd: 5,
                rs1: 5,
                imm: -1,
            }],
        ),
    }
}

pub(crate) fn not(code: &mut Vec<Inst>) -> Result<(), NoMemory>
    ensures { OnOk result (code.new.items ≡ code.old.items ++ not_code) }
{
    append(
        code,
        &[Inst::Sltiu {
            rd: 5,
            rs1: 5,
            imm: 1,
        }],
    )
}

/// The conversion to a kind of numbers.
pub(crate) fn convert(code: &mut Vec<Inst>, kind: IntKind) -> Result<(), NoMemory>
    ensures { OnOk result (code.new.items ≡ code.old.items ++ convert_code kind) }
{
    match kind {
        IntKind::Char => append(
            code,
            &[Inst::Andi {
                rd: 5,
                rs1: 5,
                imm: 255,
            }],
        ),
        IntKind::SChar => append(
            code,
            &[
                Inst::Slli {
                    rd: 5,
                    rs1: 5,
                    imm: 24,
                },
                Inst::Srai {
                    rd: 5,
                    rs1: 5,
                    imm: 24,
                },
            ],
        ),
        IntKind::UChar => append(
            code,
            &[Inst::Andi {
                rd: 5,
                rs1: 5,
                imm: 255,
            }],
        ),
        IntKind::Short => append(
            code,
            &[
                Inst::Slli {
                    rd: 5,
                    rs1: 5,
                    imm: 16,
                },
                Inst::Srai {
                    rd: 5,
                    rs1: 5,
                    imm: 16,
                },
            ],
        ),
        IntKind::UShort => append(
            code,
            &[
                Inst::Slli {
                    rd: 5,
                    rs1: 5,
                    imm: 16,
                },
                Inst::Srli {
                    rd: 5,
                    rs1: 5,
                    imm: 16,
                },
            ],
        ),
        _ => Ok(()),
    }
}

pub(crate) fn binary(op: BinaryOp, kind: IntKind) -> Inst
    ensures { result ≡ binary_code op kind }
{
    match op {
        BinaryOp::Multiply => Inst::Mul {
            rd: 5,
            rs1: 5,
            rs2: 6,
        },
        BinaryOp::Divide => {
            if is_signed(kind) {
                Inst::Div {
                    rd: 5,
                    rs1: 5,
                    rs2: 6,
                }
            } else {
                Inst::Divu {
                    rd: 5,
                    rs1: 5,
                    rs2: 6,
                }
            }
        }
        BinaryOp::Remainder => {
            if is_signed(kind) {
                Inst::Rem {
                    rd: 5,
                    rs1: 5,
                    rs2: 6,
                }
            } else {
                Inst::Remu {
                    rd: 5,
                    rs1: 5,
                    rs2: 6,
                }
            }
        }
        BinaryOp::Add => Inst::Add {
            rd: 5,
            rs1: 5,
            rs2: 6,
        },
        BinaryOp::Subtract => Inst::Sub {
            rd: 5,
            rs1: 5,
            rs2: 6,
        },
        BinaryOp::ShiftLeft => Inst::Sll {
            rd: 5,
            rs1: 5,
            rs2: 6,
        },
        BinaryOp::ShiftRight => {
            if is_signed(kind) {
                Inst::Sra {
                    rd: 5,
                    rs1: 5,
                    rs2: 6,
                }
            } else {
                Inst::Srl {
                    rd: 5,
                    rs1: 5,
                    rs2: 6,
                }
            }
        }
        BinaryOp::BitAnd => Inst::And {
            rd: 5,
            rs1: 5,
            rs2: 6,
        },
        BinaryOp::BitXor => Inst::Xor {
            rd: 5,
            rs1: 5,
            rs2: 6,
        },
        BinaryOp::BitOr => Inst::Or {
            rd: 5,
            rs1: 5,
            rs2: 6,
        },
    }
}

/// Whether one register is less than another.
fn less(kind: IntKind, left: u8, right: u8) -> Inst
    ensures { result ≡ less_code kind left right }
{
    if is_signed(kind) {
        Inst::Slt {
            rd: 5,
            rs1: left,
            rs2: right,
        }
    } else {
        Inst::Sltu {
            rd: 5,
            rs1: left,
            rs2: right,
        }
    }
}

pub(crate) fn compare(code: &mut Vec<Inst>, op: CompareOp, kind: IntKind) -> Result<(), NoMemory>
    ensures { OnOk result (code.new.items ≡ code.old.items ++ compare_code op kind) }
{
    let difference = Inst::Sub {
        rd: 5,
        rs1: 5,
        rs2: 6,
    };
    let none = Inst::Sltiu {
        rd: 5,
        rs1: 5,
        imm: 1,
    };
    let some = Inst::Sltu {
        rd: 5,
        rs1: 0,
        rs2: 5,
    };
    let opposite = Inst::Xori {
        rd: 5,
        rs1: 5,
        imm: 1,
    };
    match op {
        CompareOp::Equal => append(code, &[difference, none]),
        CompareOp::NotEqual => append(code, &[difference, some]),
        CompareOp::Less => append(code, &[less(kind, 5, 6)]),
        CompareOp::Greater => append(code, &[less(kind, 6, 5)]),
        CompareOp::LessEqual => append(code, &[less(kind, 6, 5), opposite]),
        CompareOp::GreaterEqual => append(code, &[less(kind, 5, 6), opposite]),
    }
}

fn opposite(op: CompareOp) -> CompareOp
    ensures { result ≡ opposite op }
{
    match op {
        CompareOp::Equal => CompareOp::NotEqual,
        CompareOp::NotEqual => CompareOp::Equal,
        CompareOp::Less => CompareOp::GreaterEqual,
        CompareOp::Greater => CompareOp::LessEqual,
        CompareOp::LessEqual => CompareOp::Greater,
        CompareOp::GreaterEqual => CompareOp::Less,
    }
}

fn skip_less(kind: IntKind, left: u8, right: u8) -> Inst
    ensures { result ≡ skip_less kind left right }
{
    if is_signed(kind) {
        Inst::Blt {
            rs1: left,
            rs2: right,
            imm: 12,
        }
    } else {
        Inst::Bltu {
            rs1: left,
            rs2: right,
            imm: 12,
        }
    }
}

fn skip_not_less(kind: IntKind, left: u8, right: u8) -> Inst
    ensures { result ≡ skip_not_less kind left right }
{
    if is_signed(kind) {
        Inst::Bge {
            rs1: left,
            rs2: right,
            imm: 12,
        }
    } else {
        Inst::Bgeu {
            rs1: left,
            rs2: right,
            imm: 12,
        }
    }
}

fn skip_if(op: CompareOp, kind: IntKind) -> Inst
    ensures { result ≡ skip_if op kind }
{
    match op {
        CompareOp::Equal => Inst::Beq {
            rs1: 5,
            rs2: 6,
            imm: 12,
        },
        CompareOp::NotEqual => Inst::Bne {
            rs1: 5,
            rs2: 6,
            imm: 12,
        },
        CompareOp::Less => skip_less(kind, 5, 6),
        CompareOp::Greater => skip_less(kind, 6, 5),
        CompareOp::LessEqual => skip_not_less(kind, 6, 5),
        CompareOp::GreaterEqual => skip_not_less(kind, 5, 6),
    }
}

/// A branch over the two instructions that follow, where a comparison is not as asked.
pub(crate) fn skip_unless(when: bool, op: CompareOp, kind: IntKind) -> Inst
    ensures { result ≡ skip_unless when op kind }
{
    if when {
        skip_if(opposite(op), kind)
    } else {
        skip_if(op, kind)
    }
}

/// A branch over the two instructions that follow, where a word is not as asked.
pub(crate) fn skip_unless_true(when: bool) -> Inst
    ensures { result ≡ skip_unless_true when }
{
    if when {
        Inst::Beq {
            rs1: 5,
            rs2: 0,
            imm: 12,
        }
    } else {
        Inst::Bne {
            rs1: 5,
            rs2: 0,
            imm: 12,
        }
    }
}

/// A number of elements as one of bytes.
pub(crate) fn scale(code: &mut Vec<Inst>, size: u32) -> Result<(), NoMemory>
    ensures { OnOk result (code.new.items ≡ code.old.items ++ scale_code size) }
{
    if size == 1 {
        Ok(())
    } else if size == 4 {
        append(
            code,
            &[Inst::Slli {
                rd: 6,
                rs1: 6,
                imm: 2,
            }],
        )
    } else {
        number(code, 7, u64::from(size))?;
        append(
            code,
            &[Inst::Mul {
                rd: 6,
                rs1: 6,
                rs2: 7,
            }],
        )
    }
}

fn pointer_step(op: PointerOp) -> Inst
    ensures { result ≡ pointer_code op }
{
    match op {
        PointerOp::Add => Inst::Add {
            rd: 5,
            rs1: 5,
            rs2: 6,
        },
        PointerOp::Subtract => Inst::Sub {
            rd: 5,
            rs1: 5,
            rs2: 6,
        },
    }
}

/// A pointer moves by elements.
pub(crate) fn move_by(code: &mut Vec<Inst>, op: PointerOp, size: u32) -> Result<(), NoMemory>
    ensures { OnOk result (code.new.items ≡ code.old.items ++ move_code op size) }
{
    scale(code, size)?;
    append(code, &[pointer_step(op)])
}

/// A pointer moves on by bytes.
pub(crate) fn offset(code: &mut Vec<Inst>, by: u32) -> Result<(), NoMemory>
    ensures { OnOk result (code.new.items ≡ code.old.items ++ offset_code by) }
{
    if by == 0 {
        Ok(())
    } else if by < 2048 {
        append(code, &[addi(5, 5, by as i32)])
    } else {
        number(code, 6, u64::from(by))?;
        append(
            code,
            &[Inst::Add {
                rd: 5,
                rs1: 5,
                rs2: 6,
            }],
        )
    }
}

/// The number of elements between two pointers.
pub(crate) fn distance(code: &mut Vec<Inst>, size: u32) -> Result<(), NoMemory>
    ensures { OnOk result (code.new.items ≡ code.old.items ++ distance_code size) }
{
    append(
        code,
        &[Inst::Sub {
            rd: 5,
            rs1: 5,
            rs2: 6,
        }],
    )?;
    number(code, 6, u64::from(size))?;
    append(
        code,
        &[Inst::Div {
            rd: 5,
            rs1: 5,
            rs2: 6,
        }],
    )
}
