//! What a function's frame has where.

ghost use Rattle.std.specs.Prelude.{◌≡◌, ◌<◌, ◌^◌, IfOk, length, max, replicate};
ghost use Rattle.rv_code.specs.Frames.{block_size, block_sizes, end_from, frame_size, kept_by, past, places_from, sizes_of_parameters, sizes_with, slots, with_size};
ghost use Rattle.rv_code.specs.Programs.{frame_alone};
ghost use Rattle.tac_ir.specs.Code.{data_of};

use crate::layout::Layout;
use lay_base::{List, NoMemory, filled, push};
use std::alloc::Global;
use tac_ir::{Parameter, Routine, Step};

/// A block of a local has that size.
fn raise(sizes: &mut Vec<u32>, x: usize, size: u32)
    ensures { sizes.new.items ≡ with_size x size sizes.old.items }
{
    if let Some(old) = sizes.get_mut(x) {
        if *old < size {
            *old = size;
        }
    }
}

/// No blocks.
fn no_sizes(alloc: Global, locals: usize) -> Result<Vec<u32>, NoMemory>
    ensures { IfOk result (λ sizes. sizes.items ≡ replicate locals 0) }
{
    filled(alloc, 0, locals)
}

fn block_size(r: Parameter) -> u32
    ensures { result ≡ block_size r }
{
    if r.block { r.size } else { 0 }
}

/// The blocks of parameters, the last one first.
#[tactic(auto, using(crate::proofs::Lists::parameters_more))]
fn parameters(sizes: &mut Vec<u32>, all: &[Parameter])
    ensures { sizes.new.items ≡ sizes_of_parameters 0 all.now sizes.old.items }
{
    let mut x = all.len();
    while x > 0 {
        x -= 1;
        raise(sizes, x, block_size(all[x]));
    }
}

/// A step writes or returns a temporary, or begins a block.
fn count(step: Step, slots: &mut u64, sizes: &mut Vec<u32>)
    ensures slots { slots.new ≡ max (past (kept_by step)) slots.old }
    ensures sizes { sizes.new.items ≡ sizes_with step sizes.old.items }
{
    let t = match step {
        Step::Set(t, _)
        | Step::Clear(t)
        | Step::Unary(t, _, _, _)
        | Step::Not(t, _)
        | Step::Convert(t, _, _, _)
        | Step::AsPointer(t, _, _)
        | Step::Number(t, _, _)
        | Step::Binary(t, _, _, _, _, _, _)
        | Step::Compare(t, _, _, _, _, _)
        | Step::Move(t, _, _, _, _, _, _, _)
        | Step::Distance(t, _, _, _, _)
        | Step::Update(t, _, _, _, _, _, _, _)
        | Step::Field(t, _, _, _)
        | Step::ElementField(t, _, _, _, _, _, _)
        | Step::Element(t, _, _, _, _, _, _, _)
        | Step::Part(t, _, _, _)
        | Step::Inside(t, _, _, _)
        | Step::Load(t, _, _, _)
        | Step::Call(t, _, _, _)
        | Step::CallThrough(t, _, _, _, _)
        | Step::Library(t, _, _, _)
        | Step::Allocate(t, _, _, _, _, _)
        | Step::ReturnHeld(t) => t,
        Step::Begin(x, size) => return raise(sizes, x as usize, size),
        Step::Store(_, _, _, _)
        | Step::CopyRecord(_, _, _, _)
        | Step::Jump(_)
        | Step::Branch(_, _, _)
        | Step::Test(_, _, _, _, _, _, _)
        | Step::Case(_, _, _)
        | Step::End(_)
        | Step::Forget(_, _)
        | Step::Zeros(_, _)
        | Step::Text(_, _, _)
        | Step::Began(_, _)
        | Step::Return(_)
        | Step::Fail(_, _) => return,
    };
    *slots = (u64::from(t) + 1).max(*slots);
}

/// How many words a function's locals and temporaries take, and how large the block of each local is.
#[tactic(auto, using(crate::proofs::Lists::kept_more, crate::proofs::Lists::sizes_more))]
fn needs(g: &Routine, sizes: &mut Vec<u32>) -> u64
    requires { sizes.old.items ≡ sizes_of_parameters 0 g.now.parameters (replicate (length g.now.locals) 0) }
    ensures slots { result ≡ slots (data_of g.now) }
    ensures sizes { sizes.new.items ≡ block_sizes (data_of g.now) }
{
    let mut slots = g.locals.len() as u64;
    for step in g.code.as_slice() {
        count(*step, &mut slots, sizes);
    }
    slots
}

/// Where blocks of those sizes begin, each at a multiple of 4 behind the one before it and the first at `at`, which is a multiple of 4 itself; and the place
/// behind the last.
#[tactic(auto, using(crate::proofs::Lists::end_is_behind))]
pub fn places(alloc: Global, sizes: &[u32], at: u64) -> Result<(Vec<u32>, u64), NoMemory>
    requires { end_from at sizes.now < 2 ^ 32 }
    ensures places { IfOk result (λ made. made.0.items ≡ places_from at sizes.now) }
    ensures end { IfOk result (λ made. made.1 ≡ end_from at sizes.now) }
{
    let mut places = Vec::new(alloc);
    let mut at = at;
    for size in sizes {
        push(&mut places, at as u32)?;
        at += (u64::from(*size) + 3) / 4 * 4;
    }
    Ok((places, at))
}

/// The frame of a function: where the block of each local is, and how large the frame is.
pub(crate) fn frame(alloc: Global, g: &Routine) -> Result<Layout, NoMemory>
    requires { frame_size (data_of g.now) < 2 ^ 31 }
    ensures { IfOk result (λ frame. frame ≡ frame_alone (data_of g.now)) }
{
    let mut sizes = no_sizes(alloc, g.locals.len())?;
    parameters(&mut sizes, g.parameters.as_slice());
    let slots = needs(g, &mut sizes);
    let (blocks, end) = places(alloc, sizes.as_slice(), 4 + 4 * slots)?;
    Ok(Layout {
        blocks: List::of(blocks),
        size: ((end + 15) / 16 * 16) as u32,
        texts: List::new(alloc),
        behind: List::new(alloc),
        end: 0,
    })
}
