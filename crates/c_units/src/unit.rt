//! The unit of a file.

ghost use Rattle.std.specs.Prelude.{◌≡◌, [], IfOk, OnOk, drop, fold, map};
ghost use Rattle.c_annotated.specs.FileViews.{function_of, mention_of, object_of};
ghost use Rattle.c_erasure.specs.Scopes;
ghost use Rattle.c_numbers.specs.TypeNumbers.Adding.{with_type};
ghost use Rattle.c_scopes.specs.Scoping.{file_of};
ghost use Rattle.c_typed.specs.Programs.{data_of, unit_data};
ghost use Rattle.c_types.specs.Views.{records_of, type_of};
ghost use Rattle.c_units.specs.CollectedTypes.{given_types};
ghost use Rattle.c_units.specs.NumberedParts.{function_in, mention_in};
ghost use Rattle.c_units.specs.RecognisedParts.{recognised_function, recognised_object};
ghost use Rattle.c_units.specs.SizeOperands.{given_mentions};
ghost use Rattle.c_units.specs.UnitWith.{given_by, parts_of, unit_with};

use crate::functions::{numbered_functions, set_of};
use crate::mentions::add_mentions;
use crate::objects::{numbered_objects, recognise_objects, valued_objects};
use c_annotated::{Function, Mention, Object};
use c_numbers::{NumberSet, TypeTable};
use c_scopes::{FileScope, Tags};
use c_typed::Unit;
use c_types::Records;
use lay_base::{List, Name, NoMemory, split_off};
use std::alloc::Global;

/// The objects, functions and mentions of a unit.
type Parts = (
    List<c_typed::Object>,
    List<c_typed::Function>,
    List<c_typed::Mention>,
);

/// The functions, and the mentions with those of initializers at the end. Adds their types to a table.
fn functions_and_mentions(
    alloc: Global,
    types: &mut TypeTable,
    file: u16,
    functions: List<Function>,
    mentions: &[Mention],
    told: &[Mention],
) -> Result<(List<c_typed::Function>, List<c_typed::Mention>), NoMemory>
    ensures types { OnOk result (map type_of types.new
        ≡ fold with_type (map type_of types.old) (given_types (map function_of functions) (map mention_of mentions.now) (map mention_of told.now))) }
    ensures functions { IfOk result (λ r. map data_of r.0 ≡ map (function_in (map type_of types.new)) (map recognised_function (map function_of functions))) }
    ensures mentions { IfOk result (λ r. r.1
        ≡ map (mention_in (map type_of types.new) file) (given_mentions (map function_of functions) (map mention_of mentions.now) (map mention_of told.now))) }
{
    let mut places = List::new(alloc);
    let functions = numbered_functions(alloc, types, &mut places, functions)?;
    let sizes = set_of(alloc, places.as_slice())?;
    let mut found = List::new(alloc);
    add_mentions(alloc, types, &mut found, file, &sizes, mentions)?;
    let none = NumberSet::new(alloc);
    add_mentions(alloc, types, &mut found, file, &none, told)?;
    Ok((functions, found))
}

/// What a file gives by the numbers of its types, which are added to an empty table. Null pointers are recognised in its objects.
fn given_by(
    alloc: Global,
    types: &mut TypeTable,
    file: u16,
    records: &Records,
    objects: &[Object],
    functions: List<Function>,
    mentions: &[Mention],
) -> Result<Parts, NoMemory>
    ensures { (f : Scopes.FileScope) → types.old ≡ [] → f.file ≡ file → f.records ≡ records_of records.now
        → map object_of objects.now ≡ map recognised_object f.objects → f.functions ≡ map function_of functions
        → f.mentions ≡ map mention_of mentions.now → IfOk result (λ r. parts_of types.new r ≡ given_by f) }
{
    let mut told = List::new(alloc);
    let valued = valued_objects(alloc, types, &mut told, records, objects)?;
    let left = functions_and_mentions(alloc, types, file, functions, mentions, told.as_slice())?;
    let (functions, mentions) = left;
    let objects = numbered_objects(alloc, types, valued.as_slice())?;
    Ok((objects, functions, mentions))
}

/// The tags of the records that are not complete.
fn incomplete(tags: Tags, complete: usize) -> Result<List<Name>, NoMemory>
    ensures { IfOk result (λ names. names ≡ drop complete tags.numbered) }
{
    let mut names = tags.into_structures();
    let at = complete.min(names.len());
    let rest = split_off(&mut names, at)?;
    Ok(List::of(rest))
}

/// What a file gives to its program, whose tree has that number of nodes.
pub fn unit_of(file: FileScope, nodes: u64) -> Result<Unit, NoMemory>
    ensures { IfOk result (λ u. unit_data u ≡ unit_with nodes (file_of file)) }
{
    let FileScope {
        alloc,
        number,
        tags,
        records,
        objects,
        functions,
        mentions,
        ..
    } = file;
    let incomplete = incomplete(tags, records.len())?;
    let mut objects = objects;
    recognise_objects(alloc, &mut objects)?;
    let mut types = TypeTable::new(alloc);
    let given = given_by(
        alloc,
        &mut types,
        number,
        &records,
        objects.as_slice(),
        functions,
        mentions.as_slice(),
    )?;
    let (objects, functions, mentions) = given;
    Ok(Unit {
        records,
        incomplete,
        types: types.into_list(),
        objects,
        functions,
        mentions,
        nodes,
    })
}
