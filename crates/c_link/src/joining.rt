//! The objects, functions and mentions of the units, one after another, each object and function to its number.

ghost use Rattle.std.specs.Prelude.{◌≡◌, ◌+◌, ◌*◌, ◌^◌, ◌≤◌, ◌++◌, IfOk, OnOk, fold, map};
ghost use Rattle.c_link.specs.Joining.{is_function_defined, is_object_defined, numbered_from};
ghost use Rattle.c_link.specs.Placing.{place, placed_by, put, replaces};
ghost use Rattle.c_link.specs.JoinedViews.{nothing, with_unit};
ghost use Rattle.c_link.specs.Views.{joined_of, tables_of};
ghost use Rattle.c_numbers.specs.NewNumbers.Numbers.{renaming_of};
ghost use Rattle.c_numbers.specs.NewNumbers.Parts.{function_in, mention_in, object_in};
ghost use Rattle.c_typed.specs.Programs.{data_of, unit_data};

use crate::tables::{Tables, renumbering};
use c_numbers::{NameTable, Renumbering, renumber_function, renumber_mention, renumber_object};
use c_typed::{Function, Mention, Object, Unit};
use lay_base::{List, NoMemory, add, push};
use std::alloc::Global;
use std::mem::replace;

/// What the units before gave to the program.
#[derive(Drop)]
pub struct Joined {
    pub objects: Vec<Object>,
    pub functions: Vec<Function>,
    pub mentions: List<Mention>,
    pub nodes: u128,
}

/// Puts a thing to those before it, or in the place of the one that has its number.
pub fn put<T: Drop>(all: &mut Vec<T>, number: usize, replaces: bool, it: T) -> Result<(), NoMemory>
    ensures { OnOk result (all.new.items ≡ put replaces all.old.items number it) }
{
    if number >= all.len() {
        return push(all, it);
    }
    if replaces {
        all[number] = it;
    }
    Ok(())
}

/// Puts an object to those before it. Of two of one number the first that is defined is kept, or else the first.
fn place_object(all: &mut Vec<Object>, number: usize, o: Object) -> Result<(), NoMemory>
    ensures { OnOk result (all.new.items ≡ place is_object_defined all.old.items number o) }
{
    let replaces = match all.get(number) {
        Some(first) => first.initial.is_none() && o.initial.is_some(),
        None => false,
    };
    put(all, number, replaces, o)
}

fn join_objects(
    to: &Renumbering,
    all: &mut Vec<Object>,
    objects: List<Object>,
) -> Result<(), NoMemory>
    ensures { OnOk result (all.new.items ≡ placed_by is_object_defined (renaming_of to.now).object all.old.items (map (object_in (renaming_of to.now)) objects)) }
{
    let mut n: usize = 0;
    for mut o in objects.into_vec() {
        renumber_object(to, &mut o);
        place_object(all, to.objects.at(n), o)?;
        n += 1;
    }
    Ok(())
}

fn replaces_function(all: &[Function], number: usize, f: &Function) -> bool
    ensures { result ≡ replaces (λ g. is_function_defined (data_of g)) all.now number f.now }
{
    match all.get(number) {
        Some(first) => first.body.is_none() && f.body.is_some(),
        None => false,
    }
}

/// The same of a function.
fn place_function(all: &mut Vec<Function>, number: usize, f: Function) -> Result<(), NoMemory>
    ensures { OnOk result (map data_of all.new.items ≡ place is_function_defined (map data_of all.old.items) number (data_of f)) }
{
    let replaces = replaces_function(all.as_slice(), number, &f);
    put(all, number, replaces, f)
}

fn join_functions(
    to: &Renumbering,
    all: &mut Vec<Function>,
    functions: List<Function>,
) -> Result<(), NoMemory>
    ensures { OnOk result (map data_of all.new.items ≡ placed_by is_function_defined (renaming_of to.now).function (map data_of all.old.items) (map (function_in (renaming_of to.now)) (map data_of functions))) }
{
    let mut n: usize = 0;
    for mut f in functions.into_vec() {
        renumber_function(to, &mut f);
        place_function(all, to.functions.at(n), f)?;
        n += 1;
    }
    Ok(())
}

fn join_mentions(
    to: &Renumbering,
    all: &mut List<Mention>,
    mentions: List<Mention>,
) -> Result<(), NoMemory>
    ensures { OnOk result (all.new ≡ all.old ++ map (mention_in (renaming_of to.now)) mentions) }
{
    for mut it in mentions.into_vec() {
        renumber_mention(to, &mut it);
        add(all, it)?;
    }
    Ok(())
}

/// Adds what a unit gives to what those before it gave.
fn join_unit(
    alloc: Global,
    tags: &NameTable,
    tables: &Tables,
    unit: usize,
    joined: &mut Joined,
    u: &mut Unit,
) -> Result<(), NoMemory>
    requires { joined.old.nodes ≤ unit * 2 ^ 64 }
    ensures joined { OnOk result (joined_of joined.new ≡ with_unit (tables_of tags.now tables.now) (joined_of joined.old) (unit, unit_data u.old)) }
    ensures few { OnOk result (joined.new.nodes ≤ (unit + 1) * 2 ^ 64) }
{
    let to = renumbering(alloc, tags, tables, unit, u)?;
    joined.nodes += u128::from(u.nodes);
    let objects = replace(&mut u.objects, List::new(alloc));
    join_objects(&to, &mut joined.objects, objects)?;
    let functions = replace(&mut u.functions, List::new(alloc));
    join_functions(&to, &mut joined.functions, functions)?;
    let mentions = replace(&mut u.mentions, List::new(alloc));
    join_mentions(&to, &mut joined.mentions, mentions)
}

/// What the units give to the program.
pub fn joined_units(
    alloc: Global,
    tags: &NameTable,
    tables: &Tables,
    units: List<Unit>,
) -> Result<Joined, NoMemory>
    ensures { IfOk result (λ j. joined_of j ≡ fold (with_unit (tables_of tags.now tables.now)) nothing (numbered_from 0 (map unit_data units))) }
{
    let mut joined = Joined {
        objects: Vec::new(alloc),
        functions: Vec::new(alloc),
        mentions: List::new(alloc),
        nodes: 0,
    };
    let mut k: usize = 0;
    for mut u in units.into_vec() {
        join_unit(alloc, tags, tables, k, &mut joined, &mut u)?;
        k += 1;
    }
    Ok(joined)
}
