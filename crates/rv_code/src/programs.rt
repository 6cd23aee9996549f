//! The code of a program.

ghost use Rattle.std.specs.Prelude.{◌≡◌, ◌+◌, ◌<◌, ◌^◌, ◌++◌, All, IfOk, OnOk, length, map};
ghost use Rattle.rv_code.specs.Programs.{AreSmall, IsSmall, all_texts_end, entries_end, entries_from, first_entry, functions_code, layouts_from, places_of, program_code, start_code};
ghost use Rattle.tac_ir.specs.Code.{code_of, data_of};

use crate::functions::{function, layout};
use crate::layout::{Layout, Places};
use crate::steps::entry_at;
use crate::words::{addi, call};
use lay_base::{List, NoMemory, append, push};
use rv_isa::Inst;
use std::alloc::Global;
use tac_ir::{Routine, Tac};

/// Where the first function begins, behind the code that calls `main`.
const FIRST: u32 = 0x0001_1014;

/// `main` is called on an empty stack, and its value is the status.
fn start(code: &mut Vec<Inst>, stack_end: u32, main: u64) -> Result<(), NoMemory>
    ensures { OnOk result (code.new.items ≡ code.old.items ++ start_code stack_end main) }
{
    append(
        code,
        &[Inst::Lui {
            rd: 2,
            imm: stack_end / 4096,
        }],
    )?;
    call(code, main)?;
    append(code, &[addi(17, 0, 93), Inst::Ecall])
}

/// The layouts of functions, and their entries.
#[tactic(auto, using(crate::proofs::Lists::code_fits, crate::proofs::Lists::texts_fit))]
fn layouts(
    alloc: Global,
    routines: &[Routine],
    texts: u32,
) -> Result<(Vec<Layout>, Vec<u32>), NoMemory>
    requires each { All (λ g. IsSmall (data_of g)) routines.now }
    requires code { entries_end first_entry (map data_of routines.now) < 2 ^ 32 }
    requires texts { all_texts_end texts (map data_of routines.now) < 2 ^ 32 }
    ensures layouts { IfOk result (λ made. made.0.items ≡ layouts_from first_entry texts (map data_of routines.now)) }
    ensures entries { IfOk result (λ made. made.1.items ≡ entries_from first_entry (map data_of routines.now)) }
{
    let mut layouts = Vec::new(alloc);
    let mut entries = Vec::new(alloc);
    let mut at = FIRST;
    let mut texts = texts;
    for g in routines {
        let (made, end) = layout(alloc, g, at, texts)?;
        push(&mut entries, at)?;
        at = made.end;
        texts = end;
        push(&mut layouts, made)?;
    }
    Ok((layouts, entries))
}

/// The code of functions, after what is there.
#[tactic(auto, using(crate::proofs::Lists::functions_more))]
fn functions(
    code: &mut Vec<Inst>,
    p: &Places,
    routines: &[Routine],
    layouts: &[Layout],
) -> Result<(), NoMemory>
    requires small { All (λ g. IsSmall (data_of g)) routines.now }
    requires each { length layouts.now ≡ length routines.now }
    ensures { OnOk result (code.new.items ≡ code.old.items ++ functions_code p.now (map data_of routines.now) layouts.now) }
{
    for (i, g) in routines.iter().enumerate() {
        function(code, p, g, &layouts[i])?;
    }
    Ok(())
}

/// The code of a program whose stack ends at a place, whose objects lie at those places, and whose texts lie from a place on; and where its objects and
/// functions lie. The stack's end is a multiple of 4,096.
#[tactic(auto, using(crate::proofs::Lists::layout_for_each))]
pub fn program(
    alloc: Global,
    t: &Tac,
    stack_end: u32,
    objects: List<u32>,
    texts: u32,
) -> Result<(Vec<Inst>, Places), NoMemory>
    requires { AreSmall t.now texts }
    ensures code { IfOk result (λ made. made.0.items ≡ program_code (code_of t.now) stack_end objects texts) }
    ensures places { IfOk result (λ made. made.1 ≡ places_of (code_of t.now) objects) }
{
    let routines = t.routines.as_slice();
    let (layouts, entries) = layouts(alloc, routines, texts)?;
    let places = Places {
        objects,
        entries: List::of(entries),
    };
    let mut code = Vec::new(alloc);
    let main = entry_at(places.entries.as_slice(), t.main);
    start(&mut code, stack_end, main)?;
    functions(&mut code, &places, routines, layouts.as_slice())?;
    Ok((code, places))
}
