//! What a program holds: the types of what it defines and of the nodes of its bodies, and the objects and functions to which it refers.

ghost use Rattle.std.specs.Prelude.{◌≡◌, ◌++◌, IfOk, OnOk, flat_map, map};
ghost use Rattle.c_link.specs.Joining.{if_any};
ghost use Rattle.c_link.specs.Gaps.{all_references, referred_by_value, types_of_function, types_of_object};
ghost use Rattle.c_typed.specs.Programs.{data_of, program_data};
ghost use Rattle.c_typed.specs.References.{references_by_statement};
ghost use Rattle.c_walks.specs.NodeTypes.{reference_of, references_in, types_found};

use c_typed::{Function, Initial, InitialValue, Local, Object, Typed};
use c_walks::{Nodes, Reference, walk_statement};
use lay_base::{List, NoMemory, add};
use std::alloc::Global;

fn add_locals<'a>(found: &mut Nodes<'a, usize>, locals: &'a [Local]) -> Result<(), NoMemory>
    ensures types { OnOk result (types_found (λ n. n) found.new ≡ types_found (λ n. n) found.old ++ map (λ l. l.ty) locals.now) }
    ensures references { OnOk result (references_in found.new ≡ references_in found.old) }
{
    for l in locals {
        found.add_type(&l.ty)?;
    }
    Ok(())
}

fn add_types<'a>(found: &mut Nodes<'a, usize>, objects: &'a [Object]) -> Result<(), NoMemory>
    ensures types { OnOk result (types_found (λ n. n) found.new ≡ types_found (λ n. n) found.old ++ flat_map types_of_object objects.now) }
    ensures references { OnOk result (references_in found.new ≡ references_in found.old) }
{
    for o in objects {
        if o.initial.is_some() {
            found.add_type(&o.ty)?;
        }
    }
    Ok(())
}

fn add_function<'a>(found: &mut Nodes<'a, usize>, f: &'a Function) -> Result<(), NoMemory>
    ensures types { OnOk result (types_found (λ n. n) found.new ≡ types_found (λ n. n) found.old ++ types_of_function (data_of f.now)) }
    ensures references { OnOk result (references_in found.new ≡ references_in found.old ++ flat_map references_by_statement (if_any (data_of f.now).body)) }
{
    match &f.body {
        None => Ok(()),
        Some(body) => {
            found.add_type(&f.ty)?;
            add_locals(found, f.parameters.as_slice())?;
            add_locals(found, f.locals.as_slice())?;
            walk_statement(found, body)
        }
    }
}

fn add_functions<'a>(
    found: &mut Nodes<'a, usize>,
    functions: &'a [Function],
) -> Result<(), NoMemory>
    ensures types { OnOk result (types_found (λ n. n) found.new ≡ types_found (λ n. n) found.old ++ flat_map types_of_function (map data_of functions.now)) }
    ensures references { OnOk result (references_in found.new ≡ references_in found.old ++ flat_map (λ f. flat_map references_by_statement (if_any f.body)) (map data_of functions.now)) }
{
    for f in functions {
        add_function(found, f)?;
    }
    Ok(())
}

fn add_values(all: &mut List<Reference>, values: &[Initial]) -> Result<(), NoMemory>
    ensures { OnOk result (map reference_of all.new ≡ map reference_of all.old ++ flat_map referred_by_value values.now) }
{
    for it in values {
        match &it.value {
            InitialValue::Number(_, _) => {}
            InitialValue::Address(_, n, _) => add(all, Reference::Object(*n))?,
            InitialValue::Function(_, f) => add(all, Reference::Function(*f))?,
        }
    }
    Ok(())
}

fn add_objects(all: &mut List<Reference>, objects: &[Object]) -> Result<(), NoMemory>
    ensures { OnOk result (map reference_of all.new ≡ map reference_of all.old ++ flat_map (λ o. flat_map referred_by_value (flat_map (λ all. all) (if_any o.initial))) objects.now) }
{
    for o in objects {
        if let Some(values) = &o.initial {
            add_values(all, values.as_slice())?;
        }
    }
    Ok(())
}

/// All that a program holds and refers to.
#[tactic(auto, unfolding(c_walks::specs::NodeTypes::types_found))]
pub fn held_by<'a>(alloc: Global, p: &'a Typed) -> Result<Nodes<'a, usize>, NoMemory>
    ensures types { IfOk result (λ found. types_found (λ n. n) found ≡ flat_map types_of_object (program_data p.now).objects ++ flat_map types_of_function (program_data p.now).functions) }
    ensures references { IfOk result (λ found. references_in found ≡ all_references (program_data p.now)) }
{
    let mut found = Nodes::new(alloc);
    add_types(&mut found, p.objects.as_slice())?;
    add_functions(&mut found, p.functions.as_slice())?;
    add_objects(&mut found.references, p.objects.as_slice())?;
    Ok(found)
}
