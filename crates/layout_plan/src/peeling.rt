//! Which records may be peeled: each starts with a mark, and one pass over a program clears those of the records that it holds back.

ghost use Rattle.std.specs.Prelude.{◌≡◌, ◌<◌, IfOk, Some, flat_map, fold, length, map, replicate, slice_get, true, ℕ};
ghost use Rattle.std.specs.Option.{option_copied};
ghost use Rattle.c_types.specs.Views.{record_of, records_of, type_of, types_of};
ghost use Rattle.c_typed.specs.Programs.{data_of, program_data};
ghost use Rattle.c_typed.specs.TypeNumbers.{or_void, type_at};
ghost use Rattle.legality.specs.InTypes.{itself, pointed, pointers_in, pointers_in_all};
ghost use Rattle.layout_plan.specs.Clearing.{Clears, cleared};
ghost use Rattle.layout_plan.specs.Peeling.{by_fact, by_function, by_initial, by_initial_value, by_local, by_object, by_object_type, by_record, held_back, is_peelable};

use c_facts::Fact;
use c_typed::{Function, Initial, InitialValue, Local, Object, Typed};
use c_types::{Record, Ty};
use lay_base::{List, NoMemory, filled};
use std::alloc::Global;

/// The type with that number in a list; none past its end.
fn type_at(types: &[Ty], number: usize) -> Option<&Ty>
    ensures { or_void (option_copied result) ≡ type_at (map type_of types.now) number }
{
    types.get(number)
}

fn clear_itself(marks: &mut [bool], t: &Ty)
    ensures { Clears marks.old marks.new (itself (type_of t.now)) }
{
    match t {
        Ty::Record(number) => {
            if *number < marks.len() {
                marks[*number] = false;
            }
        }
        _ => {}
    }
}

fn clear_pointed(marks: &mut [bool], t: &Ty)
    ensures { Clears marks.old marks.new (pointed (type_of t.now)) }
{
    match t {
        Ty::Pointer(to) => clear_itself(marks, to.get()),
        _ => {}
    }
}

#[cycle(pointers)]
fn clear_pointers(marks: &mut [bool], t: &Ty)
    ensures { Clears marks.old marks.new (pointers_in (type_of t.now)) }
{
    match t {
        Ty::Pointer(to) => {
            clear_itself(marks, to.get());
            clear_pointers(marks, to.get());
        }
        Ty::Array(t, _) => clear_pointers(marks, t.get()),
        Ty::Function(t, all) => {
            clear_pointers(marks, t.get());
            clear_all_pointers(marks, all.get().as_slice());
        }
        Ty::Void | Ty::Int(_) | Ty::Record(_) => {}
    }
}

#[cycle(pointers)]
fn clear_all_pointers(marks: &mut [bool], all: &[Ty])
    ensures { Clears marks.old marks.new (pointers_in_all (types_of all.now)) }
{
    for t in all {
        clear_pointers(marks, t);
    }
}

fn clear_fact(marks: &mut [bool], types: &[Ty], fact: Fact)
    ensures { Clears marks.old marks.new (by_fact (map type_of types.now) fact) }
{
    match fact {
        Fact::Value(t) => match type_at(types, t) {
            Some(t) => clear_pointed(marks, t),
            None => {}
        },
        _ => {}
    }
}

fn clear_facts(marks: &mut [bool], types: &[Ty], facts: &[Fact])
    ensures { Clears marks.old marks.new (flat_map (by_fact (map type_of types.now)) facts.now) }
{
    for fact in facts {
        clear_fact(marks, types, *fact);
    }
}

fn clear_fields(marks: &mut [bool], r: &Record)
    ensures { Clears marks.old marks.new (by_record (record_of r.now)) }
{
    for f in r.fields.as_slice() {
        clear_pointers(marks, &f.ty);
    }
}

fn clear_records(marks: &mut [bool], records: &[Record])
    ensures { Clears marks.old marks.new (flat_map by_record (records_of records.now)) }
{
    for r in records {
        clear_fields(marks, r);
    }
}

fn clear_address(marks: &mut [bool], types: &[Ty], objects: &[Object], value: &InitialValue)
    ensures { Clears marks.old marks.new (by_initial_value (map type_of types.now) objects.now value.now) }
{
    match value {
        InitialValue::Address(_, number, _) => match objects.get(*number) {
            Some(o) => match type_at(types, o.ty) {
                Some(t) => clear_pointed(marks, t),
                None => {}
            },
            None => {}
        },
        _ => {}
    }
}

fn clear_initial(marks: &mut [bool], types: &[Ty], objects: &[Object], all: &[Initial])
    ensures { Clears marks.old marks.new (by_initial (map type_of types.now) objects.now (Some all.now)) }
{
    for i in all {
        clear_address(marks, types, objects, &i.value);
    }
}

fn clear_object_type(marks: &mut [bool], t: &Ty)
    ensures { Clears marks.old marks.new (by_object_type (type_of t.now)) }
{
    match t {
        Ty::Pointer(to) => match to.get() {
            Ty::Record(_) => {}
            _ => clear_pointers(marks, t),
        },
        _ => clear_pointers(marks, t),
    }
}

fn clear_object(marks: &mut [bool], types: &[Ty], objects: &[Object], o: &Object)
    ensures { Clears marks.old marks.new (by_object (map type_of types.now) objects.now o.now) }
{
    if let Some(t) = type_at(types, o.ty) {
        clear_object_type(marks, t);
    }
    if let Some(all) = &o.initial {
        clear_initial(marks, types, objects, all.as_slice());
    }
}

fn clear_objects(marks: &mut [bool], types: &[Ty], objects: &[Object])
    ensures { Clears marks.old marks.new (flat_map (by_object (map type_of types.now) objects.now) objects.now) }
{
    for o in objects {
        clear_object(marks, types, objects, o);
    }
}

fn clear_at(marks: &mut [bool], types: &[Ty], number: usize)
    ensures { Clears marks.old marks.new (pointers_in (type_at (map type_of types.now) number)) }
{
    if let Some(t) = type_at(types, number) {
        clear_pointers(marks, t);
    }
}

fn clear_locals(marks: &mut [bool], types: &[Ty], locals: &[Local])
    ensures { Clears marks.old marks.new (flat_map (by_local (map type_of types.now)) locals.now) }
{
    for l in locals {
        clear_at(marks, types, l.ty);
    }
}

fn clear_function(marks: &mut [bool], types: &[Ty], f: &Function)
    ensures { Clears marks.old marks.new (by_function (map type_of types.now) (data_of f.now)) }
{
    clear_at(marks, types, f.ty);
    clear_locals(marks, types, f.parameters.as_slice());
    clear_locals(marks, types, f.locals.as_slice());
}

fn clear_functions(marks: &mut [bool], types: &[Ty], functions: &[Function])
    ensures { Clears marks.old marks.new (flat_map (by_function (map type_of types.now)) (map data_of functions.now)) }
{
    for f in functions {
        clear_function(marks, types, f);
    }
}

fn all_marked(alloc: Global, count: usize) -> Result<List<bool>, NoMemory>
    ensures { IfOk result (λ marks. marks ≡ replicate count true) }
{
    let marks = filled(alloc, true, count)?;
    Ok(List::of(marks))
}

fn left(alloc: Global, p: &Typed, facts: &[Fact]) -> Result<List<bool>, NoMemory>
    ensures { IfOk result (λ marks. marks ≡ fold cleared (replicate (length p.now.records) true) (held_back (program_data p.now) facts.now)) }
{
    let mut list = all_marked(alloc, p.records.len())?;
    let marks = list.as_mut_vec().as_mut_slice();
    let types = p.types.as_slice();
    clear_facts(marks, types, facts);
    clear_records(marks, p.records.as_slice());
    clear_objects(marks, types, p.objects.as_slice());
    clear_functions(marks, types, p.functions.as_slice());
    Ok(list)
}

/// For each record of a program, of whose functions the facts are given, whether it may be peeled.
#[tactic(auto, using(crate::proofs::Left::counted, crate::proofs::Left::peelable))]
pub fn peelable(alloc: Global, p: &Typed, facts: &[Fact]) -> Result<List<bool>, NoMemory>
    ensures counted { IfOk result (λ all. length all ≡ length p.now.records) }
    ensures each { IfOk result (λ all. (r : ℕ) → r < length p.now.records → slice_get all r ≡ Some (is_peelable (program_data p.now) facts.now r)) }
{
    left(alloc, p, facts)
}
