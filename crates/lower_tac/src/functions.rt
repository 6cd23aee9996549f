//! The code of functions, and of a program.

ghost use Rattle.std.specs.Prelude.{◌≡◌, ◌<◌, ◌^◌, ◌++◌, [], IfOk, None, OnOk, map};
ghost use Rattle.c_typed.specs.Programs.{data_of, program_data};
ghost use Rattle.c_meaning.specs.Run.{main_place, numbers};
ghost use Rattle.tac_ir.specs.Code.{code_of};
ghost use Rattle.tac_ir.specs.Code as Code;
ghost use Rattle.source_values.specs.Rows.{TypesAreSmall};
ghost use Rattle.lower_tac.specs.Asked.{asked_by_body, asked_by_functions};
ghost use Rattle.lower_tac.specs.Drafts.{out_in};
ghost use Rattle.lower_tac.specs.Statements.{code_if_any, lowered, parameter_of, routine_of, routines_from};

use crate::draft::Draft;
use crate::ground::Ground;
use crate::ways::{Exit, Exits, ReturnWay};
use crate::writer::Writer;
use c_typed::{Function, Local, Typed, loops_of};
use lay_base::{List, NoMemory, Place, add, push};
use source_values::Types;
use std::alloc::Global;
use tac_ir::{Parameter, Routine, Step, Tac};

/// Nothing is there, and so many loops stand before it.
#[tactic(auto, unfolding(crate::specs::Writing::code_in))]
fn empty(alloc: Global, loops: u32) -> Draft
    ensures code { out_in result ≡ record { code = []; labels = []; texts = []; loops = loops } }
    ensures want { result.code.want ≡ None }
{
    Draft {
        code: Writer {
            steps: Vec::new(alloc),
            want: None,
        },
        labels: Vec::new(alloc),
        texts: List::new(alloc),
        loops,
    }
}

/// The numbers of so many parameters, which come first among the locals.
#[tactic(auto, using(crate::proofs::Numbers::one_further))]
fn numbers(alloc: Global, count: usize) -> Result<Vec<usize>, NoMemory>
    ensures { IfOk result (λ all. all.items ≡ numbers count) }
{
    let mut all = Vec::new(alloc);
    let mut next = 0;
    while next < count {
        push(&mut all, next)?;
        next += 1;
    }
    Ok(all)
}

fn draft(
    alloc: Global,
    types: &Types<'_>,
    number: usize,
    function: &Function,
) -> Result<Draft, NoMemory>
    requires { asked_by_body (data_of function.now) (data_of function.now).body < 2 ^ 32 }
    ensures { IfOk result (λ draft. out_in draft ≡ code_if_any (program_data types.now) number (data_of function.now) (data_of function.now).body) }
{
    let Some(body) = &function.body else {
        return Ok(empty(alloc, 0));
    };
    let parameters = function.parameters.len();
    let locals = function.locals.len();
    let ground = Ground {
        alloc,
        types,
        function,
        number,
        room: (parameters + locals) as u32,
    };
    let own = numbers(alloc, parameters)?;
    let mut draft = empty(alloc, loops_of(function));
    draft.put(Step::Return(ground.fallen()));
    let x = Exits {
        on_break: Exit::Leaves,
        on_continue: Exit::Leaves,
        on_return: ReturnWay::AtOnce,
    };
    let within = ground.end_scope(&mut draft, &own, x);
    ground.statement(&mut draft, body, within);
    match draft.code.want {
        None => Ok(draft),
        Some(want) => Err(want),
    }
}

fn parameters(alloc: Global, types: &Types<'_>, all: &[Local]) -> Result<List<Parameter>, NoMemory>
    ensures { IfOk result (λ made. made ≡ map (parameter_of (program_data types.now)) all.now) }
{
    let mut made = List::new(alloc);
    for local in all {
        let row = types.row(local.ty);
        add(
            &mut made,
            Parameter {
                block: local.block,
                size: row.size,
                access: row.access,
            },
        )?;
    }
    Ok(made)
}

fn add_blocks(made: &mut List<bool>, all: &[Local]) -> Result<(), NoMemory>
    ensures { OnOk result (made.new ≡ made.old ++ map (λ l. l.block) all.now) }
{
    for local in all {
        add(made, local.block)?;
    }
    Ok(())
}

/// Of each local, parameters first, whether it lies in a block.
fn blocks(alloc: Global, function: &Function) -> Result<List<bool>, NoMemory>
    ensures { IfOk result (λ made. made ≡ map (λ l. l.block) (function.now.parameters ++ function.now.locals)) }
{
    let mut made = List::new(alloc);
    add_blocks(&mut made, function.parameters.as_slice())?;
    add_blocks(&mut made, function.locals.as_slice())?;
    Ok(made)
}

#[tactic(auto, unfolding(crate::specs::Writing::code_in))]
fn routine(
    alloc: Global,
    types: &Types<'_>,
    number: usize,
    function: &Function,
) -> Result<Routine, NoMemory>
    requires { asked_by_body (data_of function.now) (data_of function.now).body < 2 ^ 32 }
    ensures { IfOk result (λ made. Code.data_of made ≡ routine_of (program_data types.now) (data_of function.now) (code_if_any (program_data types.now) number (data_of function.now) (data_of function.now).body)) }
{
    let locals = blocks(alloc, function)?;
    let parameters = parameters(alloc, types, function.parameters.as_slice())?;
    let draft = draft(alloc, types, number, function)?;
    let Draft {
        code,
        labels,
        texts,
        ..
    } = draft;
    let Writer { steps, .. } = code;
    Ok(Routine {
        ty: function.ty,
        locals,
        parameters,
        code: List::of(steps),
        labels: List::of(labels),
        texts,
    })
}

fn routines(alloc: Global, types: &Types<'_>, all: &[Function]) -> Result<List<Routine>, NoMemory>
    requires { asked_by_functions (map data_of all.now) < 2 ^ 32 }
    ensures { IfOk result (λ made. map Code.data_of made ≡ routines_from (program_data types.now) 0 (map data_of all.now)) }
{
    let mut made = List::new(alloc);
    for (number, function) in all.iter().enumerate() {
        let one = routine(alloc, types, number, function)?;
        add(&mut made, one)?;
    }
    Ok(made)
}

/// Where `main` is.
fn main_place(p: &Typed) -> Place
    ensures { result ≡ main_place (program_data p.now) }
{
    match p.functions.as_slice().get(p.main) {
        None => Place { file: 0, at: 0 },
        Some(function) => function.place,
    }
}

/// Three-address code of a program.
pub fn lower(alloc: Global, p: &Typed) -> Result<Tac, NoMemory>
    requires asked { asked_by_functions (program_data p.now).functions < 2 ^ 32 }
    requires small { TypesAreSmall (program_data p.now) }
    ensures { IfOk result (λ t. code_of t ≡ lowered (program_data p.now)) }
{
    let types = Types::of(alloc, p)?;
    let routines = routines(alloc, &types, p.functions.as_slice())?;
    Ok(Tac {
        routines,
        main: p.main,
        place: main_place(p),
    })
}
