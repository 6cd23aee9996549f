//! Objects: their types, what they hold at first, and the mentions of their initializers.

ghost use Rattle.std.specs.Prelude.{◌≡◌, ◌++◌, IfOk, OnOk, flat_map, fold, map};
ghost use Rattle.c_annotated.specs.FileViews.{object_of};
ghost use Rattle.c_erasure.specs.Units.{type_if_pointer};
ghost use Rattle.c_initial_values.specs.Values.{mentions_in, store_of, stores_in};
ghost use Rattle.c_numbers.specs.TypeNumbers.Adding.{with_type};
ghost use Rattle.c_types.specs.Views.{type_of};
ghost use Rattle.c_units.specs.CollectedTypes.{object_types};
ghost use Rattle.c_units.specs.SizeOperands.{told, told_by};
ghost use Rattle.c_units.specs.NumberedParts.{initial_in, object_in};
ghost use Rattle.c_units.specs.RecognisedParts.{recognised_object};
ghost use Rattle.c_units.specs.ValuedObjects.{valued_of, valued_with};

use c_annotated::{Mention, Object};
use c_initial_values::{Store, Value, stores_of, told_by_initial};
use c_numbers::TypeTable;
use c_recognised::Recognition;
use c_typed::{Initial, InitialValue, is_pointer};
use c_types::{IntKind, Records};
use c_walks::change_initial;
use lay_base::{List, Name, NoMemory, add, copied};
use std::alloc::Global;

/// An object with the values that it holds at first.
#[derive(Drop)]
pub struct Valued<'a> {
    pub object: &'a Object,
    pub initial: Option<List<Store>>,
}

fn recognise(alloc: Global, o: &mut Object) -> Result<(), NoMemory>
    ensures { OnOk result (object_of o.new ≡ recognised_object (object_of o.old)) }
{
    // The size operands of allocations are asked for of bodies alone.
    let mut places = List::new(alloc);
    change_initial(&Recognition { alloc }, &mut places, &mut o.initial)
}

/// Recognises allocations and null pointers in objects.
pub fn recognise_objects(alloc: Global, all: &mut List<Object>) -> Result<(), NoMemory>
    ensures { OnOk result (map object_of all.new ≡ map recognised_object (map object_of all.old)) }
{
    for o in all.as_mut_vec().iter_mut() {
        recognise(alloc, o)?;
    }
    Ok(())
}

fn add_pointer(alloc: Global, types: &mut TypeTable, s: &Store) -> Result<(), NoMemory>
    ensures { OnOk result (map type_of types.new ≡ fold with_type (map type_of types.old) (type_if_pointer (store_of s.now))) }
{
    if is_pointer(&s.ty) {
        types.add_copy(alloc, &s.ty)
    } else {
        Ok(())
    }
}

/// Adds the types of stored pointers to a table.
#[tactic(auto, unfolding(c_initial_values::specs::Values::stores_in), using(crate::proofs::Stable::more_types))]
fn add_pointers(alloc: Global, types: &mut TypeTable, all: &[Store]) -> Result<(), NoMemory>
    ensures { OnOk result (map type_of types.new ≡ fold with_type (map type_of types.old) (flat_map type_if_pointer (stores_in all.now))) }
{
    for s in all {
        add_pointer(alloc, types, s)?;
    }
    Ok(())
}

/// What an object holds at first, whose null pointers are recognised. Adds its types to a table, and the mentions of its initializer.
fn with_values<'a>(
    alloc: Global,
    types: &mut TypeTable,
    found: &mut List<Mention>,
    records: &Records,
    objects: &[Object],
    o: &'a Object,
) -> Result<Valued<'a>, NoMemory>
    ensures valued { IfOk result (λ r. valued_of r ≡ valued_with records.now objects.now (object_of o.entry.now)) }
    ensures types { OnOk result (map type_of types.new
        ≡ fold with_type (map type_of types.old) (object_types (valued_with records.now objects.now (object_of o.entry.now)))) }
    ensures told { OnOk result (mentions_in found.new ≡ mentions_in found.old ++ told_by (object_of o.entry.now)) }
{
    told_by_initial(alloc, found, &o.initial)?;
    types.add_copy(alloc, &o.ty)?;
    match &o.initial {
        None => Ok(Valued {
            object: o,
            initial: None,
        }),
        Some(initial) => {
            let stores = stores_of(alloc, records, objects, initial)?;
            add_pointers(alloc, types, stores.as_slice())?;
            Ok(Valued {
                object: o,
                initial: Some(stores),
            })
        }
    }
}

/// What objects hold at first, whose null pointers are recognised. Adds their types to a table, and the mentions of their initializers.
#[tactic(auto, using(crate::proofs::Stable::more_types))]
pub fn valued_objects<'a>(
    alloc: Global,
    types: &mut TypeTable,
    found: &mut List<Mention>,
    records: &Records,
    objects: &'a [Object],
) -> Result<List<Valued<'a>>, NoMemory>
    ensures valued { IfOk result (λ r. map valued_of r ≡ map (valued_with records.now objects.entry.now) (map object_of objects.entry.now)) }
    ensures types { OnOk result (map type_of types.new
        ≡ fold with_type (map type_of types.old) (flat_map object_types (map (valued_with records.now objects.entry.now) (map object_of objects.entry.now)))) }
    ensures told { OnOk result (mentions_in found.new ≡ mentions_in found.old ++ told (map object_of objects.entry.now)) }
{
    let mut done = List::new(alloc);
    for o in objects {
        let o = with_values(alloc, types, found, records, objects, o)?;
        add(&mut done, o)?;
    }
    Ok(done)
}

/// A value by the table of all types.
fn initial(alloc: Global, types: &TypeTable, s: &Store) -> Result<Initial, NoMemory>
    ensures { IfOk result (λ r. r ≡ initial_in (map type_of types.now) (store_of s.now)) }
{
    let value = match s.value {
        Value::Number(kind, v) => InitialValue::Number(kind, v),
        Value::Null => InitialValue::Number(IntKind::UInt, 0),
        Value::Address(a) => {
            InitialValue::Address(types.number(alloc, &s.ty)?, a.object, a.offset)
        }
        Value::Function(f) => InitialValue::Function(types.number(alloc, &s.ty)?, f),
    };
    Ok(Initial {
        offset: s.offset,
        value,
    })
}

#[tactic(auto, unfolding(c_initial_values::specs::Values::stores_in))]
fn initials(alloc: Global, types: &TypeTable, all: &[Store]) -> Result<List<Initial>, NoMemory>
    ensures { IfOk result (λ r. r ≡ map (initial_in (map type_of types.now)) (stores_in all.now)) }
{
    let mut done = List::new(alloc);
    for s in all {
        add(&mut done, initial(alloc, types, s)?)?;
    }
    Ok(done)
}

/// A copy of a name.
pub fn name_of(alloc: Global, name: &Name) -> Result<Name, NoMemory>
    ensures { IfOk result (λ copy. copy ≡ name.now) }
{
    let bytes = copied(alloc, name.as_slice())?;
    Ok(Name::of(bytes))
}

/// An object by the table of all types.
fn object(alloc: Global, types: &TypeTable, o: &Valued) -> Result<c_typed::Object, NoMemory>
    ensures { IfOk result (λ r. r ≡ object_in (map type_of types.now) (valued_of o.now)) }
{
    let initial = match &o.initial {
        None => None,
        Some(all) => Some(initials(alloc, types, all.as_slice())?),
    };
    Ok(c_typed::Object {
        name: name_of(alloc, &o.object.name)?,
        place: o.object.place,
        ty: types.number(alloc, &o.object.ty)?,
        linked: o.object.is_linked,
        text: o.object.literal.is_some(),
        initial,
    })
}

/// The objects by the table of all types.
pub fn numbered_objects(
    alloc: Global,
    types: &TypeTable,
    all: &[Valued],
) -> Result<List<c_typed::Object>, NoMemory>
    ensures { IfOk result (λ r. r ≡ map (object_in (map type_of types.now)) (map valued_of all.now)) }
{
    let mut done = List::new(alloc);
    for o in all {
        add(&mut done, object(alloc, types, o)?)?;
    }
    Ok(done)
}
