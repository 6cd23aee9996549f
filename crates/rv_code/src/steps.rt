//! The instructions of steps.

ghost use Rattle.std.specs.Prelude.{◌≡◌, ◌<◌, ◌≤◌, ◌^◌, ◌++◌, ◌∷◌, [], OnOk, get_or, if◌then◌else◌, length, slice_index};
ghost use Rattle.rv_code.specs.Code.{allocate_code, answer_code, block_code, both_code, get_code, get_if_any, give_code, is_block, library_code, place_led, place_left, one_code, read_code, return_code, row_code, step_code, text_code, three_code, two_code, temporary_code, update_code, write_code};
ghost use Rattle.rv_code.specs.Frames.{slot_at};
ghost use Rattle.rv_code.specs.Words.{call_code, jump_code, number_code};
ghost use Rattle.block_memory.specs.RunWorlds.Operators.{common_kind, pointer_op};
ghost use Rattle.tac_ir.specs.Code.{data_of};

use crate::layout::{Layout, Places};
use crate::operators::{
    binary, compare, convert, distance, move_by, not, offset, scale, skip_unless, skip_unless_true,
    unary,
};
use crate::words::{addi, address, call, fetch, jump, keep, load_by, number, place, store_by};
use block_memory::Access;
use c_typed::{BinaryOp, LibraryFunction, PointerOp, is_shift, promoted_kind};
use c_types::IntKind;
use lay_base::{NoMemory, append};
use rv_isa::Inst;
use tac_ir::{Operand, Routine, Row, Sort, Step, Target};

/// The runtime's routines (each at a place of its own).
const EXIT: u64 = 0x0001_0200;

const MALLOC: u64 = 0x0001_0400;

const CALLOC: u64 = 0x0001_0600;

const FREE: u64 = 0x0001_0800;

const COPY: u64 = 0x0001_0A00;

const FILL: u64 = 0x0001_0C00;

const COMPARE: u64 = 0x0001_0E00;

/// Where the slot of a temporary is in the frame.
pub(crate) fn slot_at(t: u64) -> u64
    requires { t < 2 ^ 40 }
    ensures { result ≡ slot_at t }
{
    4 + 4 * t
}

/// The number at a place of a table, or 0.
pub(crate) fn entry_at(table: &[u32], n: usize) -> u64
    ensures value { result ≡ slice_index table.now n }
    ensures small { result < 2 ^ 32 }
{
    match table.get(n) {
        Some(place) => u64::from(*place),
        None => 0,
    }
}

fn is_block(g: &Routine, t: u32) -> bool
    ensures { result ≡ is_block (data_of g.now) t }
{
    match g.locals.get(t as usize) {
        Some(in_block) => *in_block,
        None => false,
    }
}

/// A temporary comes into a register; a local that lies in a block as the block's address.
fn temporary(code: &mut Vec<Inst>, g: &Routine, l: &Layout, rd: u8, t: u32) -> Result<(), NoMemory>
    ensures { OnOk result (code.new.items ≡ code.old.items ++ temporary_code (data_of g.now) l.now rd t) }
{
    if is_block(g, t) {
        address(code, rd, 2, entry_at(l.blocks.as_slice(), t as usize))
    } else {
        fetch(code, rd, 2, slot_at(u64::from(t)))
    }
}

/// An operand comes into a register.
fn get(
    code: &mut Vec<Inst>,
    p: &Places,
    g: &Routine,
    l: &Layout,
    rd: u8,
    a: Operand,
) -> Result<(), NoMemory>
    ensures { OnOk result (code.new.items ≡ code.old.items ++ get_code p.now (data_of g.now) l.now rd a) }
{
    match a {
        Operand::Word(n) => number(code, rd, u64::from(n)),
        Operand::Null => number(code, rd, 0),
        Operand::Function(f) => place(code, rd, entry_at(p.entries.as_slice(), f)),
        Operand::Object(n) => place(code, rd, entry_at(p.objects.as_slice(), n)),
        Operand::Temp(_, t, _) => temporary(code, g, l, rd, t),
    }
}

/// Two operands come into x5 and x6.
fn both(
    code: &mut Vec<Inst>,
    p: &Places,
    g: &Routine,
    l: &Layout,
    a: Operand,
    b: Operand,
) -> Result<(), NoMemory>
    ensures { OnOk result (code.new.items ≡ code.old.items ++ both_code p.now (data_of g.now) l.now a b) }
{
    get(code, p, g, l, 5, a)?;
    get(code, p, g, l, 6, b)
}

/// A temporary gets what is in a register.
pub(crate) fn give(code: &mut Vec<Inst>, t: u32, rs: u8) -> Result<(), NoMemory>
    ensures { OnOk result (code.new.items ≡ code.old.items ++ give_code t rs) }
{
    keep(
        code,
        Access::Number(IntKind::Int),
        rs,
        2,
        slot_at(u64::from(t)),
    )
}

/// The address of a row of temporaries comes into x10.
fn row(code: &mut Vec<Inst>, all: Row) -> Result<(), NoMemory>
    ensures { OnOk result (code.new.items ≡ code.old.items ++ row_code all) }
{
    address(code, 10, 2, slot_at(u64::from(all.first)))
}

/// The first temporary of a row comes into x10.
fn one(code: &mut Vec<Inst>, first: u64) -> Result<(), NoMemory>
    requires { first < 2 ^ 32 }
    ensures { OnOk result (code.new.items ≡ code.old.items ++ one_code first) }
{
    fetch(code, 10, 2, slot_at(first))
}

/// The first two come into x10 and x11.
fn two(code: &mut Vec<Inst>, first: u64) -> Result<(), NoMemory>
    requires { first < 2 ^ 32 }
    ensures { OnOk result (code.new.items ≡ code.old.items ++ two_code first) }
{
    one(code, first)?;
    fetch(code, 11, 2, slot_at(first + 1))
}

/// The first three come into x10 to x12.
fn three(code: &mut Vec<Inst>, first: u64) -> Result<(), NoMemory>
    requires { first < 2 ^ 32 }
    ensures { OnOk result (code.new.items ≡ code.old.items ++ three_code first) }
{
    two(code, first)?;
    fetch(code, 12, 2, slot_at(first + 2))
}

/// In front of the code of which so many steps are left.
fn place_left(l: &Layout, left: usize) -> u64
    ensures { result ≡ place_left l.now left }
{
    u64::from(l.end).saturating_sub(4 * entry_at(l.behind.as_slice(), left))
}

/// Where a jump leads.
#[tactic(auto, using(crate::proofs::Lists::label_missing))]
fn place_led(g: &Routine, l: &Layout, to: Target) -> u64
    ensures { result ≡ place_led (data_of g.now) l.now to }
{
    match to {
        Target::Left(n) => place_left(l, n),
        Target::Label(k) => match g.labels.get(k) {
            Some(n) => place_left(l, *n),
            None => place_left(l, 0),
        },
    }
}

/// A call of a routine, whose answer a temporary gets.
fn answer(code: &mut Vec<Inst>, place: u64, t: u32) -> Result<(), NoMemory>
    ensures { OnOk result (code.new.items ≡ code.old.items ++ answer_code place t) }
{
    call(code, place)?;
    give(code, t, 10)
}

/// The low byte of x10 is written, and comes into x5.
fn write(code: &mut Vec<Inst>) -> Result<(), NoMemory>
    ensures { OnOk result (code.new.items ≡ code.old.items ++ write_code) }
{
    append(
        code,
        &[
            Inst::Lui {
                rd: 11,
                imm: 0x8000,
            },
            Inst::Sb {
                rs1: 11,
                rs2: 10,
                imm: 64,
            },
            addi(11, 11, 64),
            addi(10, 0, 1),
            addi(12, 0, 1),
            addi(17, 0, 64),
            Inst::Ecall,
            Inst::Lbu {
                rd: 5,
                rs1: 11,
                imm: 0,
            },
        ],
    )
}

/// The next byte of the input comes into x5, or -1.
fn read(code: &mut Vec<Inst>) -> Result<(), NoMemory>
    ensures { OnOk result (code.new.items ≡ code.old.items ++ read_code) }
{
    append(
        code,
        &[
            addi(10, 0, 0),
            Inst::Lui {
                rd: 11,
                imm: 0x8000,
            },
            addi(11, 11, 64),
            addi(12, 0, 1),
            addi(17, 0, 63),
            Inst::Ecall,
            Inst::Beq {
                rs1: 10,
                rs2: 0,
                imm: 12,
            },
            Inst::Lbu {
                rd: 5,
                rs1: 11,
                imm: 0,
            },
            Inst::Jal { rd: 0, imm: 8 },
            addi(5, 0, -1),
        ],
    )
}

/// What the library does with the temporaries from the first on.
fn library(code: &mut Vec<Inst>, which: LibraryFunction, first: u32, t: u32) -> Result<(), NoMemory>
    ensures { OnOk result (code.new.items ≡ code.old.items ++ library_code which first t) }
{
    let first = u64::from(first);
    match which {
        LibraryFunction::Malloc => {
            one(code, first)?;
            answer(code, MALLOC, t)
        }
        LibraryFunction::Calloc => {
            two(code, first)?;
            answer(code, CALLOC, t)
        }
        LibraryFunction::Free => {
            one(code, first)?;
            call(code, FREE)
        }
        LibraryFunction::Memcpy | LibraryFunction::Memmove => {
            three(code, first)?;
            answer(code, COPY, t)
        }
        LibraryFunction::Memset => {
            three(code, first)?;
            answer(code, FILL, t)
        }
        LibraryFunction::Memcmp => {
            three(code, first)?;
            answer(code, COMPARE, t)
        }
        LibraryFunction::Putchar => {
            one(code, first)?;
            write(code)?;
            give(code, t, 5)
        }
        LibraryFunction::Getchar => {
            read(code)?;
            give(code, t, 5)
        }
        LibraryFunction::Exit => {
            one(code, first)?;
            jump(code, EXIT)
        }
    }
}

/// So many records as x10 says.
fn allocate(code: &mut Vec<Inst>, size: u32, zeroed: bool) -> Result<(), NoMemory>
    ensures { OnOk result (code.new.items ≡ code.old.items ++ allocate_code size zeroed) }
{
    number(code, 11, u64::from(size))?;
    if zeroed {
        return call(code, CALLOC);
    }
    append(
        code,
        &[Inst::Mul {
            rd: 10,
            rs1: 10,
            rs2: 11,
        }],
    )?;
    call(code, MALLOC)
}

/// The kind in which a number is updated.
fn common_kind(op: BinaryOp, left: IntKind, right: IntKind) -> IntKind
    ensures { result ≡ common_kind op left right }
{
    if is_shift(op) {
        promoted_kind(left)
    } else {
        right
    }
}

/// What `op=` makes of x5 and x6.
fn update(
    code: &mut Vec<Inst>,
    op: BinaryOp,
    size: u32,
    sort: Sort,
    right: IntKind,
) -> Result<(), NoMemory>
    ensures { OnOk result (code.new.items ≡ code.old.items ++ update_code op size sort right) }
{
    match sort {
        Sort::Number(kind) => {
            let common = common_kind(op, kind, right);
            convert(code, common)?;
            append(code, &[binary(op, common)])?;
            convert(code, kind)
        }
        Sort::Pointer => move_by(code, pointer_op(op), size),
    }
}

fn pointer_op(op: BinaryOp) -> PointerOp
    ensures { result ≡ pointer_op op }
{
    match op {
        BinaryOp::Subtract => PointerOp::Subtract,
        _ => PointerOp::Add,
    }
}

/// The address of a byte of a local's block.
fn block(code: &mut Vec<Inst>, l: &Layout, rd: u8, x: u32, by: u32) -> Result<(), NoMemory>
    ensures { OnOk result (code.new.items ≡ code.old.items ++ block_code l.now rd x by) }
{
    address(
        code,
        rd,
        2,
        entry_at(l.blocks.as_slice(), x as usize) + u64::from(by),
    )
}

/// How many bytes a text has.
#[tactic(auto, using(crate::proofs::Lists::text_found, crate::proofs::Lists::text_missing))]
fn text_length(g: &Routine, n: usize) -> u64
    ensures { result ≡ length (get_or g.now.texts n []) }
{
    match g.texts.get(n) {
        Some(bytes) => bytes.len() as u64,
        None => 0,
    }
}

/// Bytes of a text come to a local's block.
fn text(
    code: &mut Vec<Inst>,
    g: &Routine,
    l: &Layout,
    x: u32,
    by: u32,
    n: usize,
) -> Result<(), NoMemory>
    ensures { OnOk result (code.new.items ≡ code.old.items ++ text_code (data_of g.now) l.now x by n) }
{
    block(code, l, 10, x, by)?;
    place(code, 11, entry_at(l.texts.as_slice(), n))?;
    number(code, 12, text_length(g, n))?;
    call(code, COPY)
}

/// The end of a function.
fn leave(code: &mut Vec<Inst>, l: &Layout) -> Result<(), NoMemory>
    ensures { OnOk result (code.new.items ≡ code.old.items ++ return_code l.now) }
{
    fetch(code, 1, 2, 0)?;
    number(code, 5, u64::from(l.size))?;
    append(
        code,
        &[
            Inst::Add {
                rd: 2,
                rs1: 2,
                rs2: 5,
            },
            Inst::Jalr {
                rd: 0,
                rs1: 1,
                imm: 0,
            },
        ],
    )
}

/// The operand of `return`, where it has one.
fn get_if_any(
    code: &mut Vec<Inst>,
    p: &Places,
    g: &Routine,
    l: &Layout,
    a: Option<Operand>,
) -> Result<(), NoMemory>
    ensures { OnOk result (code.new.items ≡ code.old.items ++ get_if_any p.now (data_of g.now) l.now a) }
{
    match a {
        None => Ok(()),
        Some(a) => get(code, p, g, l, 10, a),
    }
}

/// The instructions of a step, after what is there.
pub(crate) fn step(
    code: &mut Vec<Inst>,
    p: &Places,
    g: &Routine,
    l: &Layout,
    s: Step,
) -> Result<(), NoMemory>
    ensures { OnOk result (code.new.items ≡ code.old.items ++ step_code p.now (data_of g.now) l.now s) }
{
    match s {
        Step::Set(t, a) => {
            get(code, p, g, l, 5, a)?;
            give(code, t, 5)
        }
        Step::Clear(_) => Ok(()),
        Step::Unary(t, _, op, a) => {
            get(code, p, g, l, 5, a)?;
            unary(code, op)?;
            give(code, t, 5)
        }
        Step::Not(t, a) => {
            get(code, p, g, l, 5, a)?;
            not(code)?;
            give(code, t, 5)
        }
        Step::Convert(t, _, kind, a) => {
            get(code, p, g, l, 5, a)?;
            convert(code, kind)?;
            give(code, t, 5)
        }
        Step::AsPointer(t, _, a) | Step::Number(t, _, a) => {
            get(code, p, g, l, 5, a)?;
            give(code, t, 5)
        }
        Step::Binary(t, _, op, kind, _, a, b) => {
            both(code, p, g, l, a, b)?;
            append(code, &[binary(op, kind)])?;
            give(code, t, 5)
        }
        Step::Compare(t, _, op, kind, a, b) => {
            both(code, p, g, l, a, b)?;
            compare(code, op, kind)?;
            give(code, t, 5)
        }
        Step::Move(t, _, op, size, left, _, a, b) => {
            if left {
                both(code, p, g, l, a, b)?;
            } else {
                both(code, p, g, l, b, a)?;
            }
            move_by(code, op, size)?;
            give(code, t, 5)
        }
        Step::Distance(t, _, size, a, b) => {
            both(code, p, g, l, a, b)?;
            distance(code, size)?;
            give(code, t, 5)
        }
        Step::Update(t, _, op, size, sort, right, a, b) => {
            both(code, p, g, l, a, b)?;
            update(code, op, size, sort, right)?;
            give(code, t, 5)
        }
        Step::Field(t, _, by, a) | Step::Part(t, _, by, a) => {
            get(code, p, g, l, 5, a)?;
            offset(code, by)?;
            give(code, t, 5)
        }
        Step::ElementField(t, _, size, _, by, a, b) => {
            both(code, p, g, l, a, b)?;
            scale(code, size)?;
            append(
                code,
                &[Inst::Add {
                    rd: 5,
                    rs1: 5,
                    rs2: 6,
                }],
            )?;
            offset(code, by)?;
            give(code, t, 5)
        }
        Step::Element(t, _, _, size, _, _, a, b) => {
            both(code, p, g, l, a, b)?;
            scale(code, size)?;
            append(
                code,
                &[Inst::Add {
                    rd: 5,
                    rs1: 5,
                    rs2: 6,
                }],
            )?;
            give(code, t, 5)
        }
        Step::Inside(t, _, x, by) => {
            block(code, l, 5, x, by)?;
            give(code, t, 5)
        }
        Step::Load(t, _, access, a) => {
            get(code, p, g, l, 5, a)?;
            append(code, &[load_by(access, 5, 5, 0)])?;
            give(code, t, 5)
        }
        Step::Store(_, access, a, b) => {
            both(code, p, g, l, a, b)?;
            append(code, &[store_by(access, 5, 6, 0)])
        }
        Step::CopyRecord(_, size, a, b) => {
            get(code, p, g, l, 10, a)?;
            get(code, p, g, l, 11, b)?;
            number(code, 12, u64::from(size))?;
            call(code, COPY)
        }
        Step::Jump(to) => jump(code, place_led(g, l, to)),
        Step::Branch(when, a, to) => {
            get(code, p, g, l, 5, a)?;
            append(code, &[skip_unless_true(when)])?;
            jump(code, place_led(g, l, to))
        }
        Step::Test(_, op, kind, when, a, b, to) => {
            both(code, p, g, l, a, b)?;
            append(code, &[skip_unless(when, op, kind)])?;
            jump(code, place_led(g, l, to))
        }
        Step::Case(n, a, to) => {
            get(code, p, g, l, 5, a)?;
            number(code, 6, u64::from(n))?;
            append(
                code,
                &[Inst::Bne {
                    rs1: 5,
                    rs2: 6,
                    imm: 12,
                }],
            )?;
            jump(code, place_led(g, l, to))
        }
        Step::Call(t, _, f, all) => {
            row(code, all)?;
            call(code, entry_at(p.entries.as_slice(), f))?;
            give(code, t, 10)
        }
        Step::CallThrough(t, _, _, a, all) => {
            get(code, p, g, l, 5, a)?;
            row(code, all)?;
            append(
                code,
                &[Inst::Jalr {
                    rd: 1,
                    rs1: 5,
                    imm: 0,
                }],
            )?;
            give(code, t, 10)
        }
        Step::Library(t, _, which, all) => library(code, which, all.first, t),
        Step::Allocate(t, _, _, size, zeroed, a) => {
            get(code, p, g, l, 10, a)?;
            allocate(code, size, zeroed)?;
            give(code, t, 10)
        }
        Step::Begin(_, _) | Step::End(_) | Step::Forget(_, _) => Ok(()),
        Step::Zeros(x, size) => {
            block(code, l, 10, x, 0)?;
            append(code, &[addi(11, 0, 0)])?;
            number(code, 12, u64::from(size))?;
            call(code, FILL)
        }
        Step::Text(x, by, n) => text(code, g, l, x, by, n),
        Step::Began(_, _) => append(code, &[addi(0, 0, 0)]),
        Step::Return(a) => {
            get_if_any(code, p, g, l, a)?;
            leave(code, l)
        }
        Step::ReturnHeld(t) => {
            temporary(code, g, l, 10, t)?;
            leave(code, l)
        }
        Step::Fail(_, _) => append(code, &[Inst::Ebreak]),
    }
}
