//! What functions say that violates a test.

ghost use Rattle.std.specs.Prelude.{◌≡◌, flat_map, map, slice_get};
ghost use Rattle.std.specs.Option.{option_copied, option_map};
ghost use Rattle.c_types.specs.Views.{type_of};
ghost use Rattle.legality.specs.Breaches.{by_argument, by_conversion, by_fact};
ghost use Rattle.legality.specs.Firsts.{Marks};

use crate::marks::{mark, mark_itself, mark_pointed, mark_pointers};
use crate::violation::{Test, Violation};
use c_facts::Fact;
use c_typed::{LibraryFunction, is_pointer};
use c_types::{Ty, same};
use lay_base::Place;

/// The type with that number in a list; none past its end.
pub fn type_at(types: &[Ty], number: usize) -> Option<&Ty>
    ensures { option_map type_of (option_copied result) ≡ slice_get (map type_of types.now) number }
{
    types.get(number)
}

fn mark_conversion(firsts: &mut [Option<Violation>], s: &Ty, t: &Ty, place: Place)
    ensures { Marks firsts.old firsts.new (by_conversion (type_of s.now) (type_of t.now) place) }
{
    if is_pointer(s) && is_pointer(t) && !same(s, t) {
        mark_pointed(firsts, Test::Cstt, place, t);
        mark_pointed(firsts, Test::Cstf, place, s);
    }
}

fn mark_argument(firsts: &mut [Option<Violation>], which: LibraryFunction, t: &Ty, place: Place)
    ensures { Marks firsts.old firsts.new (by_argument which (type_of t.now) place) }
{
    match which {
        LibraryFunction::Free => {}
        LibraryFunction::Memset | LibraryFunction::Memcpy | LibraryFunction::Memmove => {
            mark_pointed(firsts, Test::Mset, place, t);
        }
        _ => mark_pointed(firsts, Test::Libc, place, t),
    }
}

fn mark_fact(firsts: &mut [Option<Violation>], types: &[Ty], fact: Fact)
    ensures { Marks firsts.old firsts.new (by_fact (map type_of types.now) fact) }
{
    match fact {
        Fact::Converted(s, t, place) => match (type_at(types, s), type_at(types, t)) {
            (Some(s), Some(t)) => mark_conversion(firsts, s, t, place),
            _ => {}
        },
        Fact::Taken(r, place) => mark(firsts, Test::Atkn, place, r),
        Fact::Passed(which, t, place) => match type_at(types, t) {
            Some(t) => mark_argument(firsts, which, t, place),
            None => {}
        },
        Fact::Function(t, place) => match type_at(types, t) {
            Some(t) => mark_pointers(firsts, Test::Ind, place, t),
            None => {}
        },
        Fact::Copied(t, place) => match type_at(types, t) {
            Some(t) => mark_itself(firsts, Test::Copy, place, t),
            None => {}
        },
        _ => {}
    }
}

pub fn mark_facts(firsts: &mut [Option<Violation>], types: &[Ty], facts: &[Fact])
    ensures { Marks firsts.old firsts.new (flat_map (by_fact (map type_of types.now)) facts.now) }
{
    for fact in facts {
        mark_fact(firsts, types, *fact);
    }
}
