//! What lies in an object at first, by its first byte; where nothing is stored there is zero.

ghost use Rattle.std.specs.Prelude.{◌≡◌, ◌+◌, [], ◌∷◌, ◌++◌, IfOk, OnOk, flat_map, map};
ghost use Rattle.c_annotated.specs.Views.{expression_of, initializer_of, part_of};
ghost use Rattle.c_erasure.specs.Erasure.{typed};
ghost use Rattle.c_erasure.specs.Units.{of_expression, of_initializer, of_part, of_text};
ghost use Rattle.c_initial_values.specs.Values.{scope_with, stores_in, value_of};
ghost use Rattle.c_typed.specs.Mapped.{mapped_initializer, mapped_part, of_types};
ghost use Rattle.c_types.specs.Views.{type_of};

use crate::sizes::further;
use crate::values::{Value, initial_value};
use c_annotated::{Expression, Initializer, InitializerPart, Object, PartValue};
use c_types::{IntKind, Records, Ty, copy};
use lay_base::{List, NoMemory, add};
use std::alloc::Global;

/// A value, its type, and its first byte in the object.
#[derive(Drop)]
pub struct Store {
    pub offset: u32,
    pub ty: Ty,
    pub value: Value,
}

#[tactic(auto, unfolding(crate::specs::Values::stores_in))]
fn add_store(found: &mut List<Store>, offset: u32, ty: Ty, value: Value) -> Result<(), NoMemory>
    ensures { OnOk result (stores_in found.new ≡ stores_in found.old ++ (offset, type_of ty, value_of value) ∷ []) }
{
    add(found, Store { offset, ty, value })
}

fn add_value(
    alloc: Global,
    found: &mut List<Store>,
    records: &Records,
    objects: &[Object],
    offset: u32,
    e: &Expression,
) -> Result<(), NoMemory>
    ensures { OnOk result (stores_in found.new
        ≡ stores_in found.old ++ of_expression (scope_with records.now objects.now) offset (typed (expression_of e.now))) }
{
    match initial_value(records, objects, e) {
        None | Some(Value::Null) => Ok(()),
        Some(value) => {
            let ty = copy(alloc, &e.ty.ty)?;
            add_store(found, offset, ty, value)
        }
    }
}

/// The number of the next byte, as `further` gives it.
fn next(alloc: Global, at: u32) -> Result<u32, NoMemory>
    ensures { IfOk result (λ next. next ≡ at + 1) }
{
    further(alloc, at, 1)
}

fn add_text(
    alloc: Global,
    found: &mut List<Store>,
    offset: u32,
    bytes: &[u8],
) -> Result<(), NoMemory>
    ensures { OnOk result (stores_in found.new ≡ stores_in found.old ++ of_text offset bytes.now) }
{
    let mut at = offset;
    for byte in bytes {
        let value = Value::Number(IntKind::Char, u32::from(*byte));
        add_store(found, at, Ty::Int(IntKind::Char), value)?;
        at = next(alloc, at)?;
    }
    Ok(())
}

fn add_part(
    alloc: Global,
    found: &mut List<Store>,
    records: &Records,
    objects: &[Object],
    part: &InitializerPart,
) -> Result<(), NoMemory>
    ensures { OnOk result (stores_in found.new
        ≡ stores_in found.old ++ of_part (scope_with records.now objects.now) (mapped_part (of_types (λ t. t.ty)) (part_of part.now))) }
{
    match &part.value {
        PartValue::Value(e) => add_value(alloc, found, records, objects, part.offset, e.get()),
        PartValue::Record(_) => Ok(()),
        PartValue::Text(bytes) => add_text(alloc, found, part.offset, bytes.as_slice()),
    }
}

fn add_parts(
    alloc: Global,
    found: &mut List<Store>,
    records: &Records,
    objects: &[Object],
    all: &[InitializerPart],
) -> Result<(), NoMemory>
    ensures { OnOk result (stores_in found.new
        ≡ stores_in found.old ++ flat_map (of_part (scope_with records.now objects.now)) (map (mapped_part (of_types (λ t. t.ty))) (map part_of all.now))) }
{
    for part in all {
        add_part(alloc, found, records, objects, part)?;
    }
    Ok(())
}

fn add_initial(
    alloc: Global,
    found: &mut List<Store>,
    records: &Records,
    objects: &[Object],
    initial: &Initializer,
) -> Result<(), NoMemory>
    ensures { OnOk result (stores_in found.new
        ≡ stores_in found.old ++ of_initializer (scope_with records.now objects.now) (mapped_initializer (of_types (λ t. t.ty)) (initializer_of initial.now))) }
{
    match initial {
        Initializer::Value(e) => add_value(alloc, found, records, objects, 0, e.get()),
        Initializer::Record(_) => Ok(()),
        Initializer::Parts(all) => add_parts(alloc, found, records, objects, all.as_slice()),
    }
}

/// What an initializer of a file with those records and objects of those types stores, whose allocations and null pointers are recognised.
#[tactic(auto, using(crate::proofs::Nothing::nothing_stored))]
pub fn stores_of(
    alloc: Global,
    records: &Records,
    objects: &[Object],
    initial: &Initializer,
) -> Result<List<Store>, NoMemory>
    ensures { IfOk result (λ found. stores_in found
        ≡ of_initializer (scope_with records.now objects.now) (mapped_initializer (of_types (λ t. t.ty)) (initializer_of initial.now))) }
{
    let mut found = List::new(alloc);
    add_initial(alloc, &mut found, records, objects, initial)?;
    Ok(found)
}
