//! What the objects and functions of a unit are in a program, as keys, and their numbers among those of all units.

ghost use Rattle.std.specs.Prelude.{◌≡◌, [], IfOk, OnOk, fold, get_or, map};
ghost use Rattle.c_link.specs.Joining.{function_identities, identity, object_identities};
ghost use Rattle.c_numbers.specs.KeyNumbers.Keys.{position, with_key};
ghost use Rattle.c_numbers.specs.NewNumbers.Numbers.{number_at};
ghost use Rattle.c_typed.specs.Programs.{data_of};

use c_numbers::{KeyTable, Numbers};
use c_typed::{Function, Object};
use lay_base::{List, Name, NoMemory, add, copied, push};
use std::alloc::Global;

/// The key of what a unit has under that number: its name, where it has linkage.
fn identity(
    alloc: Global,
    unit: usize,
    linked: bool,
    name: &Name,
    number: usize,
) -> Result<Vec<u64>, NoMemory>
    ensures { IfOk result (λ key. key.items ≡ identity unit linked name.now number) }
{
    if !linked {
        return copied(alloc, &[1, unit as u64, number as u64]);
    }
    let mut key = Vec::new(alloc);
    push(&mut key, 0)?;
    for byte in name.as_slice() {
        push(&mut key, u64::from(*byte))?;
    }
    Ok(key)
}

/// The keys of a unit's objects.
pub fn object_keys(
    alloc: Global,
    unit: usize,
    objects: &[Object],
) -> Result<List<Vec<u64>>, NoMemory>
    ensures { IfOk result (λ keys. map (λ key. key.items) keys ≡ object_identities unit 0 objects.now) }
{
    let mut keys = List::new(alloc);
    for (n, o) in objects.iter().enumerate() {
        add(&mut keys, identity(alloc, unit, o.linked, &o.name, n)?)?;
    }
    Ok(keys)
}

/// The keys of a unit's functions.
pub fn function_keys(
    alloc: Global,
    unit: usize,
    functions: &[Function],
) -> Result<List<Vec<u64>>, NoMemory>
    ensures { IfOk result (λ keys. map (λ key. key.items) keys ≡ function_identities unit 0 (map data_of functions.now)) }
{
    let mut keys = List::new(alloc);
    for (n, f) in functions.iter().enumerate() {
        add(&mut keys, identity(alloc, unit, f.linked, &f.name, n)?)?;
    }
    Ok(keys)
}

/// Adds keys after the others, those that are not among them.
pub fn add_keys(table: &mut KeyTable, keys: List<Vec<u64>>) -> Result<(), NoMemory>
    ensures { OnOk result (table.new ≡ fold with_key table.old (map (λ key. key.items) keys)) }
{
    for key in keys.into_vec() {
        table.add(key)?;
    }
    Ok(())
}

/// The numbers of keys.
pub fn numbers_of(alloc: Global, table: &KeyTable, keys: &[Vec<u64>]) -> Result<Numbers, NoMemory>
    ensures { IfOk result (λ numbers. number_at numbers ≡ (λ n. position table.now (get_or (map (λ key. key.items) keys.now) n []))) }
{
    let mut entries = List::new(alloc);
    for key in keys {
        add(&mut entries, table.number(key))?;
    }
    Ok(Numbers {
        entries,
        otherwise: table.number(&[]),
    })
}
