//! The code of a function, and of a program.

ghost use Rattle.std.specs.Prelude.{◌≡◌, ◌+◌, ◌*◌, ◌<◌, ◌^◌, ◌++◌, ◌∷◌, [], All, IfOk, OnOk, length, map};
ghost use Rattle.std.specs.List.{sum_by};
ghost use Rattle.rv_code.specs.Code.{entry_code, function_code, parameter_code, parameters_code};
ghost use Rattle.rv_code.specs.Programs.{IsSmall, frame_alone, layout_of, texts_end, words_behind, words_of, words_of_function};
ghost use Rattle.tac_ir.specs.Code.{data_of};

use crate::frames::{frame, places};
use crate::layout::{Layout, Places};
use crate::steps::{entry_at, give, step};
use crate::words::{fetch, keep, number};
use block_memory::Access;
use c_types::IntKind;
use lay_base::{Bytes, List, NoMemory, append, push};
use rv_isa::Inst;
use std::alloc::Global;
use tac_ir::{Parameter, Routine};

const STACK: u64 = 0x1000_0000;

/// An argument in x5 comes to its parameter.
fn parameter(code: &mut Vec<Inst>, l: &Layout, x: u32, r: Parameter) -> Result<(), NoMemory>
    ensures { OnOk result (code.new.items ≡ code.old.items ++ parameter_code l.now x r) }
{
    if r.block {
        keep(
            code,
            r.access,
            5,
            2,
            entry_at(l.blocks.as_slice(), x as usize),
        )
    } else {
        give(code, x, 5)
    }
}

/// The arguments come from the row of words at x10.
fn parameters(code: &mut Vec<Inst>, l: &Layout, all: &[Parameter]) -> Result<(), NoMemory>
    requires { length all.now < 2 ^ 32 }
    ensures { OnOk result (code.new.items ≡ code.old.items ++ parameters_code l.now 0 all.now) }
{
    for (x, r) in all.iter().enumerate() {
        fetch(code, 5, 10, 4 * x as u64)?;
        parameter(code, l, x as u32, *r)?;
    }
    Ok(())
}

/// The beginning of a function.
fn enter(code: &mut Vec<Inst>, l: &Layout, all: &[Parameter]) -> Result<(), NoMemory>
    requires { length all.now < 2 ^ 32 }
    ensures { OnOk result (code.new.items ≡ code.old.items ++ entry_code l.now all.now) }
{
    number(code, 5, STACK + u64::from(l.size))?;
    append(
        code,
        &[
            Inst::Bgeu {
                rs1: 2,
                rs2: 5,
                imm: 8,
            },
            Inst::Ebreak,
        ],
    )?;
    number(code, 5, u64::from(l.size))?;
    append(
        code,
        &[Inst::Sub {
            rd: 2,
            rs1: 2,
            rs2: 5,
        }],
    )?;
    keep(code, Access::Number(IntKind::Int), 1, 2, 0)?;
    parameters(code, l, all)
}

/// The code of a function, after what is there.
#[tactic(auto, using(crate::proofs::Lists::steps_more))]
pub(crate) fn function(
    code: &mut Vec<Inst>,
    p: &Places,
    g: &Routine,
    l: &Layout,
) -> Result<(), NoMemory>
    requires { length g.now.parameters < 2 ^ 32 }
    ensures { OnOk result (code.new.items ≡ code.old.items ++ function_code p.now (data_of g.now) l.now) }
{
    let steps = g.code.as_slice();
    if steps.is_empty() {
        return Ok(());
    }
    enter(code, l, g.parameters.as_slice())?;
    let mut left = steps.len();
    while left > 0 {
        left -= 1;
        step(code, p, g, l, steps[left])?;
    }
    Ok(())
}

/// How many words the code takes that is left, by how many steps are left, and how many all steps take.
fn behind(alloc: Global, g: &Routine, frame: &Layout) -> Result<(Vec<u32>, u32), NoMemory>
    requires frame { frame.now ≡ frame_alone (data_of g.now) }
    requires few { sum_by (words_of (data_of g.now)) g.now.code < 2 ^ 30 }
    ensures sums { IfOk result (λ made. made.0.items ≡ words_behind (data_of g.now)) }
    ensures all { IfOk result (λ made. made.1 ≡ sum_by (words_of (data_of g.now)) g.now.code) }
{
    let nowhere = Places {
        objects: List::new(alloc),
        entries: List::new(alloc),
    };
    let mut sums = Vec::new(alloc);
    let mut code = Vec::new(alloc);
    let mut words: u32 = 0;
    for s in g.code.as_slice() {
        code.clear();
        push(&mut sums, words)?;
        step(&mut code, &nowhere, g, frame, *s)?;
        words += code.len() as u32;
    }
    push(&mut sums, words)?;
    Ok((sums, words))
}

/// How many words the beginning of a function takes.
fn entry_words(alloc: Global, g: &Routine, frame: &Layout) -> Result<u32, NoMemory>
    requires few { length g.now.parameters < 2 ^ 32 }
    requires short { length (entry_code frame.now g.now.parameters) < 2 ^ 32 }
    ensures { IfOk result (λ words. words ≡ length (entry_code frame.now g.now.parameters)) }
{
    let mut code = Vec::new(alloc);
    enter(&mut code, frame, g.parameters.as_slice())?;
    Ok(code.len() as u32)
}

/// How many words the code of a function takes, whose steps take so many.
fn words(alloc: Global, g: &Routine, frame: &Layout, steps: u32) -> Result<u32, NoMemory>
    requires few { length g.now.parameters < 2 ^ 32 }
    requires frame { frame.now ≡ frame_alone (data_of g.now) }
    requires steps { steps ≡ sum_by (words_of (data_of g.now)) g.now.code }
    requires short { words_of_function (data_of g.now) < 2 ^ 30 }
    ensures { IfOk result (λ words. words ≡ words_of_function (data_of g.now)) }
{
    if g.code.as_slice().is_empty() {
        return Ok(0);
    }
    Ok(entry_words(alloc, g, frame)? + steps)
}

/// How many bytes each text has.
fn lengths(alloc: Global, texts: &[Bytes]) -> Result<Vec<u32>, NoMemory>
    requires { All (λ bytes. length bytes < 2 ^ 32) texts.now }
    ensures { IfOk result (λ lengths. lengths.items ≡ map length texts.now) }
{
    let mut lengths = Vec::new(alloc);
    for bytes in texts {
        push(&mut lengths, bytes.len() as u32)?;
    }
    Ok(lengths)
}

/// The layout of a function whose code begins at `entry` and whose texts lie from `texts` on, and where the texts end.
pub(crate) fn layout(
    alloc: Global,
    g: &Routine,
    entry: u32,
    texts: u32,
) -> Result<(Layout, u32), NoMemory>
    requires small { IsSmall (data_of g.now) }
    requires code { entry + 4 * words_of_function (data_of g.now) < 2 ^ 32 }
    requires texts { texts_end texts (data_of g.now) < 2 ^ 32 }
    ensures layout { IfOk result (λ made. made.0 ≡ layout_of (data_of g.now) entry texts) }
    ensures end { IfOk result (λ made. made.1 ≡ texts_end texts (data_of g.now)) }
{
    let frame = frame(alloc, g)?;
    let (behind, steps) = behind(alloc, g, &frame)?;
    let words = words(alloc, g, &frame, steps)?;
    let lengths = lengths(alloc, g.texts.as_slice())?;
    let (places, end) = places(alloc, lengths.as_slice(), u64::from(texts))?;
    let layout = Layout {
        blocks: frame.blocks,
        size: frame.size,
        texts: List::of(places),
        behind: List::of(behind),
        end: entry + 4 * words,
    };
    Ok((layout, end as u32))
}
