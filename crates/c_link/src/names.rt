//! Names with two types, and names that are defined twice (C99 6.2.7, 6.9).

ghost use Rattle.std.specs.Prelude.{◌≡◌, ◌++◌, ◌∷◌, [], IfOk, MatchOption, OnOk, fold, if◌then◌else◌, map};
ghost use Rattle.std.specs.Option.{option_copied, option_map};
ghost use Rattle.c_link.specs.Clashes.{trouble_of};
ghost use Rattle.c_link.specs.Gaps.{HasNone, IsEarliest, linked_in, trouble};
ghost use Rattle.c_typed.specs.Programs.{unit_data};
ghost use Rattle.c_link.specs.Names.{IsAsked, counts, linked_of, told_by};
ghost use Rattle.c_link.specs.Repeats.{repeats, told_if_any};
ghost use Rattle.c_link.specs.Placing.{replaces_one};
ghost use Rattle.c_numbers.specs.KeyNumbers.Keys.{with_key};

use crate::joining::put;
use crate::linked::Linked;
use crate::troubles::{Trouble, add_trouble, earliest};
use c_numbers::NameTable;
use c_typed::Unit;
use c_types::same;
use lay_base::{List, NoMemory};
use std::alloc::Global;

/// What is asked of a name that several units declare.
#[derive(Clone, Copy)]
pub enum Asked {
    OneType,
    OneDefinition,
}

/// The names, each once.
pub fn names_of(alloc: Global, all: &[Linked]) -> Result<NameTable, NoMemory>
    ensures { IfOk result (λ names. names ≡ fold with_key [] (map (λ l. l.name) (map linked_of all.now))) }
{
    let mut names = NameTable::new(alloc);
    for l in all {
        names.add(alloc, &l.name)?;
    }
    Ok(names)
}

/// Whether two of one name are at odds.
fn differ(asked: Asked, first: &Linked, l: &Linked) -> bool
    ensures { told_by asked (linked_of first.now) (linked_of l.now) ≡ (if result then trouble (linked_of l.now) (linked_of first.now) ∷ [] else []) }
{
    match asked {
        Asked::OneType => !same(&l.ty, &first.ty),
        Asked::OneDefinition => first.is_defined && l.is_defined,
    }
}

fn tell(
    alloc: Global,
    asked: Asked,
    troubles: &mut List<Trouble>,
    first: Option<&Linked>,
    l: &Linked,
) -> Result<(), NoMemory>
    ensures { OnOk result (map trouble_of troubles.new ≡ map trouble_of troubles.old ++ told_if_any (told_by asked) (option_map linked_of (option_copied first.entry)) (linked_of l.now)) }
{
    match first {
        Some(first) if differ(asked, first, l) => {
            add_trouble(alloc, troubles, &l.name, l.place, first.place)
        }
        _ => Ok(()),
    }
}

/// Whether a declaration takes the place of the one that stands for those of its name.
fn takes_place(asked: Asked, first: Option<&Linked>, l: &Linked) -> bool
    ensures { result ≡ replaces_one (counts asked) (option_map linked_of (option_copied first.entry)) (linked_of l.now) }
{
    match first {
        None => false,
        Some(first) => match asked {
            Asked::OneType => false,
            Asked::OneDefinition => !first.is_defined && l.is_defined,
        },
    }
}

/// The troubles with names, in their order.
fn name_troubles(
    alloc: Global,
    asked: Asked,
    names: &NameTable,
    all: &[Linked],
) -> Result<List<Trouble>, NoMemory>
    ensures { IfOk result (λ troubles. map trouble_of troubles ≡ repeats (λ l. l.name) (counts asked) (told_by asked) names.now [] (map linked_of all.now)) }
{
    let mut troubles = List::new(alloc);
    let mut firsts: Vec<&Linked> = Vec::new(alloc);
    for l in all {
        let number = names.number(l.name.as_slice());
        let first = firsts.get(number).copied();
        tell(alloc, asked, &mut troubles, first, l)?;
        put(&mut firsts, number, takes_place(asked, first, l), l)?;
    }
    Ok(troubles)
}

/// The earliest trouble with a name of units, if there is one. These are the names of the units.
pub fn name_trouble(
    alloc: Global,
    asked: Asked,
    units: &[Unit],
    names: &NameTable,
    all: &[Linked],
) -> Result<Option<Trouble>, NoMemory>
    requires linked { map linked_of all.now ≡ linked_in (map unit_data units.now) }
    requires names { names.now ≡ fold with_key [] (map (λ l. l.name) (map linked_of all.now)) }
    ensures { IfOk result (λ found. MatchOption found (HasNone (IsAsked asked (map unit_data units.now))) (λ t. IsEarliest (IsAsked asked (map unit_data units.now)) (trouble_of t))) }
{
    Ok(earliest(name_troubles(alloc, asked, names, all)?))
}
