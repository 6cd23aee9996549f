//! What types give to the first violations of records.

ghost use Rattle.std.specs.Prelude.{◌∷◌, []};
ghost use Rattle.c_types.specs.Views.{type_of, types_of};
ghost use Rattle.legality.specs.Breaches.{all_of};
ghost use Rattle.legality.specs.Firsts.{Marks};
ghost use Rattle.legality.specs.InTypes.{arrays_in, arrays_in_all, itself, pointed, pointers_in, pointers_in_all};

use crate::violation::{Test, Violation, former};
use c_types::Ty;
use lay_base::Place;

/// Notes a violation where it is the first of its record.
pub fn mark(firsts: &mut [Option<Violation>], test: Test, place: Place, number: usize)
    ensures { Marks firsts.old firsts.new (all_of test place (number ∷ [])) }
{
    if number < firsts.len() {
        firsts[number] = former(firsts[number], Violation { test, place });
    }
}

pub fn mark_all(firsts: &mut [Option<Violation>], test: Test, place: Place, numbers: &[usize])
    ensures { Marks firsts.old firsts.new (all_of test place numbers.now) }
{
    for number in numbers {
        mark(firsts, test, place, *number);
    }
}

/// The record that a type is.
pub fn mark_itself(firsts: &mut [Option<Violation>], test: Test, place: Place, t: &Ty)
    ensures { Marks firsts.old firsts.new (all_of test place (itself (type_of t.now))) }
{
    match t {
        Ty::Record(number) => mark(firsts, test, place, *number),
        _ => {}
    }
}

/// The record to which a type points.
pub fn mark_pointed(firsts: &mut [Option<Violation>], test: Test, place: Place, t: &Ty)
    ensures { Marks firsts.old firsts.new (all_of test place (pointed (type_of t.now))) }
{
    match t {
        Ty::Pointer(to) => mark_itself(firsts, test, place, to.get()),
        _ => {}
    }
}

/// The records to which pointers in a type point.
#[cycle(pointers)]
pub fn mark_pointers(firsts: &mut [Option<Violation>], test: Test, place: Place, t: &Ty)
    ensures { Marks firsts.old firsts.new (all_of test place (pointers_in (type_of t.now))) }
{
    match t {
        Ty::Pointer(to) => {
            mark_itself(firsts, test, place, to.get());
            mark_pointers(firsts, test, place, to.get());
        }
        Ty::Array(t, _) => mark_pointers(firsts, test, place, t.get()),
        Ty::Function(t, all) => {
            mark_pointers(firsts, test, place, t.get());
            mark_all_pointers(firsts, test, place, all.get().as_slice());
        }
        Ty::Void | Ty::Int(_) | Ty::Record(_) => {}
    }
}

#[cycle(pointers)]
fn mark_all_pointers(firsts: &mut [Option<Violation>], test: Test, place: Place, all: &[Ty])
    ensures { Marks firsts.old firsts.new (all_of test place (pointers_in_all (types_of all.now))) }
{
    for t in all {
        mark_pointers(firsts, test, place, t);
    }
}

/// The records of which arrays stand in a type.
#[cycle(arrays)]
pub fn mark_arrays(firsts: &mut [Option<Violation>], test: Test, place: Place, t: &Ty)
    ensures { Marks firsts.old firsts.new (all_of test place (arrays_in (type_of t.now))) }
{
    match t {
        Ty::Pointer(t) => mark_arrays(firsts, test, place, t.get()),
        Ty::Array(t, _) => {
            mark_itself(firsts, test, place, t.get());
            mark_arrays(firsts, test, place, t.get());
        }
        Ty::Function(t, all) => {
            mark_arrays(firsts, test, place, t.get());
            mark_all_arrays(firsts, test, place, all.get().as_slice());
        }
        Ty::Void | Ty::Int(_) | Ty::Record(_) => {}
    }
}

#[cycle(arrays)]
fn mark_all_arrays(firsts: &mut [Option<Violation>], test: Test, place: Place, all: &[Ty])
    ensures { Marks firsts.old firsts.new (all_of test place (arrays_in_all (types_of all.now))) }
{
    for t in all {
        mark_arrays(firsts, test, place, t);
    }
}
