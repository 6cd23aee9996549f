//! Functions by the numbers of their types, with allocations and null pointers recognised.

ghost use Rattle.std.specs.Prelude.{◌≡◌, ◌++◌, ◌<◌, ◌^◌, List as Sequence, IfOk, OnOk, flat_map, fold, map};
ghost use Rattle.c_annotated.specs.FileViews.{function_of, local_of};
ghost use Rattle.c_annotated.specs.Views.{noted_of};
ghost use Rattle.c_erasure.specs.Units.{is_among};
ghost use Rattle.c_numbers.specs.TypeNumbers.Adding.{with_type};
ghost use Rattle.c_typed.specs.Programs.{data_of};
ghost use Rattle.c_types.specs.Types.{CType};
ghost use Rattle.c_types.specs.Views.{type_of};
ghost use Rattle.c_units.specs.CollectedTypes.{function_types};
ghost use Rattle.c_units.specs.SizeOperands.{operands_in, operands_of};
ghost use Rattle.c_units.specs.NumberedParts.{function_in, locals_in, taken_in};
ghost use Rattle.c_units.specs.RecognisedParts.{recognised_function};

use crate::objects::name_of;
use c_annotated::Noted;
use c_numbered::{Numbering, optional_statement};
use c_numbers::{NumberSet, TypeTable};
use c_recognised::Recognition;
use c_typed::{Function, Local, is_scalar};
use c_walks::{Nodes, change_statement, walk_statement};
use lay_base::{List, NoMemory, add};
use std::alloc::Global;

/// Recognises allocations and null pointers in a function, and adds where the size operands of its allocations stand.
fn recognise(
    alloc: Global,
    places: &mut List<usize>,
    f: &mut c_annotated::Function,
) -> Result<(), NoMemory>
    ensures tree { OnOk result (function_of f.new ≡ recognised_function (function_of f.old)) }
    ensures places { OnOk result (places.new ≡ places.old ++ operands_in (function_of f.old)) }
{
    match &mut f.body {
        None => Ok(()),
        Some(body) => change_statement(&Recognition { alloc }, places, body),
    }
}

/// Adds the types of locals to a table.
fn add_local_types(
    alloc: Global,
    types: &mut TypeTable,
    all: &[c_annotated::Local],
) -> Result<(), NoMemory>
    ensures { OnOk result (map type_of types.new ≡ fold with_type (map type_of types.old) (map (λ l. l.ty) (map local_of all.now))) }
{
    for l in all {
        types.add_copy(alloc, &l.ty)?;
    }
    Ok(())
}

/// Adds the types at nodes to a table.
fn add_found(alloc: Global, types: &mut TypeTable, found: &[&Noted]) -> Result<(), NoMemory>
    ensures { OnOk result (map type_of types.new ≡ fold with_type (map type_of types.old) (map (λ t. t.ty) (map (λ t. noted_of t.now) found.now))) }
{
    for t in found {
        types.add_copy(alloc, &t.ty)?;
    }
    Ok(())
}

/// The set of some numbers.
pub fn set_of(alloc: Global, numbers: &[usize]) -> Result<NumberSet, NoMemory>
    ensures { IfOk result (λ set. is_among set ≡ is_among numbers.now) }
{
    let mut set = NumberSet::new(alloc);
    for number in numbers {
        set.add(*number)?;
    }
    Ok(set)
}

/// Adds the types of a function to a table, and gives the locals whose address it takes.
#[tactic(auto, unfolding(c_walks::specs::NodeTypes::types_found))]
fn add_types(
    alloc: Global,
    types: &mut TypeTable,
    f: &c_annotated::Function,
) -> Result<NumberSet, NoMemory>
    ensures types { OnOk result (map type_of types.new ≡ fold with_type (map type_of types.old) (function_types (function_of f.now))) }
    ensures taken { IfOk result (λ set. is_among set ≡ is_among (taken_in (function_of f.now))) }
{
    types.add_copy(alloc, &f.ty)?;
    add_local_types(alloc, types, f.parameters.as_slice())?;
    add_local_types(alloc, types, f.locals.as_slice())?;
    let mut found = Nodes::new(alloc);
    if let Some(body) = &f.body {
        walk_statement(&mut found, body)?;
    }
    add_found(alloc, types, found.types.as_slice())?;
    set_of(alloc, found.taken.as_slice())
}

/// The locals from a number on.
fn locals(
    alloc: Global,
    types: &TypeTable,
    taken: &NumberSet,
    first: usize,
    all: &[c_annotated::Local],
) -> Result<List<Local>, NoMemory>
    requires { first < 2 ^ 63 }
    ensures { IfOk result (λ r. r ≡ locals_in (map type_of types.now) (is_among taken.now) first (map local_of all.now)) }
{
    let mut done = List::new(alloc);
    let mut n = first;
    for l in all {
        let l = Local {
            name: name_of(alloc, &l.name)?,
            ty: types.number(alloc, &l.ty)?,
            block: !is_scalar(&l.ty) || taken.contains(n),
        };
        add(&mut done, l)?;
        n += 1;
    }
    Ok(done)
}

/// A function whose types are in the table, by the locals whose address it takes.
fn numbered(
    alloc: Global,
    types: &TypeTable,
    taken: &NumberSet,
    f: &c_annotated::Function,
) -> Result<Function, NoMemory>
    ensures { is_among taken.now ≡ is_among (taken_in (function_of f.now))
        → IfOk result (λ r. data_of r ≡ function_in (map type_of types.now) (function_of f.now)) }
{
    let parameters = f.parameters.as_slice();
    let first = parameters.len();
    Ok(Function {
        name: name_of(alloc, &f.name)?,
        place: f.place,
        ty: types.number(alloc, &f.ty)?,
        linked: f.is_linked,
        parameters: locals(alloc, types, taken, 0, parameters)?,
        locals: locals(alloc, types, taken, first, f.locals.as_slice())?,
        body: optional_statement(Numbering { alloc, types }, &f.body)?,
        nodes: f.nodes,
    })
}

/// A function by the numbers of its types, which are added to the table. Types that are added later change no number.
fn function(
    alloc: Global,
    types: &mut TypeTable,
    places: &mut List<usize>,
    f: c_annotated::Function,
) -> Result<Function, NoMemory>
    ensures types { OnOk result (map type_of types.new ≡ fold with_type (map type_of types.old) (function_types (recognised_function (function_of f)))) }
    ensures places { OnOk result (places.new ≡ places.old ++ operands_in (function_of f)) }
    ensures numbered { (later : Sequence CType)
        → IfOk result (λ r. data_of r ≡ function_in (fold with_type (map type_of types.new) later) (recognised_function (function_of f))) }
{
    let mut f = f;
    recognise(alloc, places, &mut f)?;
    let taken = add_types(alloc, types, &f)?;
    numbered(alloc, types, &taken, &f)
}

/// The functions, in order, each of which is numbered while its nodes are near. Adds their types to the table, and where the size operands of their
/// allocations stand.
pub fn numbered_functions(
    alloc: Global,
    types: &mut TypeTable,
    places: &mut List<usize>,
    all: List<c_annotated::Function>,
) -> Result<List<Function>, NoMemory>
    ensures types { OnOk result (map type_of types.new
        ≡ fold with_type (map type_of types.old) (flat_map function_types (map recognised_function (map function_of all)))) }
    ensures places { OnOk result (places.new ≡ places.old ++ operands_of (map function_of all)) }
    ensures numbered { (later : Sequence CType)
        → IfOk result (λ r. map data_of r ≡ map (function_in (fold with_type (map type_of types.new) later)) (map recognised_function (map function_of all))) }
{
    let mut done = List::new(alloc);
    for f in all.into_vec() {
        let f = function(alloc, types, places, f)?;
        add(&mut done, f)?;
    }
    Ok(done)
}
