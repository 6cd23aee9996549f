//! Objects and functions that are used and not defined (C99 6.9).

ghost use Rattle.std.specs.Prelude.{◌≡◌, ◌++◌, true, All, IfOk, IsTrue, MatchOption, OnOk, is_some, map};
ghost use Rattle.c_link.specs.Clashes.{trouble_of};
ghost use Rattle.c_link.specs.Gaps.{HasNone, IsEarliest, IsMissing, all_missing};
ghost use Rattle.c_link.specs.Missing.{functions_nowhere, key_of, keys_of, objects_nowhere};
ghost use Rattle.c_typed.specs.Programs.{data_of, program_data};
ghost use Rattle.c_numbers.specs.KeyNumbers.Keys.{is_among};
ghost use Rattle.c_walks.specs.NodeTypes.{reference_of};

use crate::held::held_by;
use crate::troubles::{Trouble, add_trouble, earliest};
use c_numbers::KeyTable;
use c_typed::{Function, Object, Typed};
use c_walks::Reference;
use lay_base::{List, NoMemory, copied};
use std::alloc::Global;

/// The key of a reference.
fn key_of(reference: Reference) -> [u64; 2]
    ensures { result ≡ key_of (reference_of reference) }
{
    match reference {
        Reference::Object(n) => [0, n as u64],
        Reference::Function(f) => [1, f as u64],
    }
}

fn keys_of(alloc: Global, all: &[Reference]) -> Result<KeyTable, NoMemory>
    ensures { IfOk result (λ used. used ≡ keys_of (map reference_of all.now)) }
{
    let mut used = KeyTable::new(alloc);
    for reference in all {
        used.add(copied(alloc, &key_of(*reference))?)?;
    }
    Ok(used)
}

#[tactic(auto, using(crate::proofs::MissingNames::among_is))]
fn is_used(used: &KeyTable, reference: Reference) -> bool
    ensures { result ≡ is_among used.now (key_of (reference_of reference)) }
{
    used.number(&key_of(reference)) < used.len()
}

fn add_objects(
    alloc: Global,
    used: &KeyTable,
    objects: &[Object],
    missing: &mut List<Trouble>,
) -> Result<(), NoMemory>
    ensures { OnOk result (map trouble_of missing.new ≡ map trouble_of missing.old ++ objects_nowhere used.now 0 objects.now) }
{
    for (n, o) in objects.iter().enumerate() {
        if o.initial.is_none() && is_used(used, Reference::Object(n)) {
            add_trouble(alloc, missing, &o.name, o.place, o.place)?;
        }
    }
    Ok(())
}

fn add_functions(
    alloc: Global,
    used: &KeyTable,
    functions: &[Function],
    missing: &mut List<Trouble>,
) -> Result<(), NoMemory>
    ensures { OnOk result (map trouble_of missing.new ≡ map trouble_of missing.old ++ functions_nowhere used.now 0 (map data_of functions.now)) }
{
    for (n, f) in functions.iter().enumerate() {
        if f.body.is_none() && is_used(used, Reference::Function(n)) {
            add_trouble(alloc, missing, &f.name, f.place, f.place)?;
        }
    }
    Ok(())
}

fn are_objects_defined(objects: &[Object]) -> bool
    ensures { IsTrue result → All (λ o. is_some o.initial ≡ true) objects.now }
{
    objects.iter().all(|o| o.initial.is_some())
}

fn are_functions_defined(functions: &[Function]) -> bool
    ensures { IsTrue result → All (λ f. is_some f.body ≡ true) functions.now }
{
    functions.iter().all(|f| f.body.is_some())
}

/// The objects and functions that are used and not defined. Where all are defined, nothing has to be asked of the trees.
fn all_missing(alloc: Global, p: &Typed) -> Result<List<Trouble>, NoMemory>
    ensures { IfOk result (λ missing. map trouble_of missing ≡ all_missing (program_data p.now)) }
{
    if are_objects_defined(p.objects.as_slice()) && are_functions_defined(p.functions.as_slice()) {
        return Ok(List::new(alloc));
    }
    let held = held_by(alloc, p)?;
    let used = keys_of(alloc, held.references.as_slice())?;
    let mut missing = List::new(alloc);
    add_objects(alloc, &used, p.objects.as_slice(), &mut missing)?;
    add_functions(alloc, &used, p.functions.as_slice(), &mut missing)?;
    Ok(missing)
}

/// The earliest object or function of a program that is used and not defined, if there is one.
pub fn missing_name(alloc: Global, p: &Typed) -> Result<Option<Trouble>, NoMemory>
    ensures { IfOk result (λ found. MatchOption found (HasNone (IsMissing (program_data p.now))) (λ t. IsEarliest (IsMissing (program_data p.now)) (trouble_of t))) }
{
    Ok(earliest(all_missing(alloc, p)?))
}
