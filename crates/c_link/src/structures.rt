//! Structures that no file completes, where a type of the program holds them (C99 6.2.5).

ghost use Rattle.std.specs.Prelude.{◌≡◌, ◌++◌, [], IfOk, MatchOption, None, flat_map, fold, map};
ghost use Rattle.c_link.specs.Gaps.{IsLeast, open_structures, structures_in, types_of_function, types_of_object};
ghost use Rattle.c_link.specs.Missing.{have_none, least_among, least_in, lesser_at, lesser_of};
ghost use Rattle.c_typed.specs.Programs.{program_data};
ghost use Rattle.c_types.specs.Types.{field_types};
ghost use Rattle.c_types.specs.Views.{records_of, type_of};

use crate::held::held_by;
use c_typed::Typed;
use c_types::{Record, Ty};
use lay_base::{NoMemory, push};
use std::alloc::Global;

fn lesser_of(best: Option<usize>, n: usize) -> Option<usize>
    ensures { result ≡ lesser_of best n }
{
    match best {
        None => Some(n),
        Some(m) => { if n < m { Some(n) } else { Some(m) } }
    }
}

/// The least number of a structure from `count` on, among those in a type and one found before.
#[tactic(auto, using(crate::proofs::OpenStructures::least_append))]
fn least_among(count: usize, best: Option<usize>, t: &Ty) -> Option<usize>
    ensures { result ≡ least_among count best (structures_in (type_of t.now)) }
{
    match t {
        Ty::Pointer(to) => least_among(count, best, to.get()),
        Ty::Array(element, _) => least_among(count, best, element.get()),
        Ty::Function(result, parameters) => {
            let mut best = least_among(count, best, result.get());
            for parameter in parameters.get().as_slice() {
                best = least_among(count, best, parameter);
            }
            best
        }
        Ty::Record(number) if count <= *number => lesser_of(best, *number),
        Ty::Void | Ty::Int(_) | Ty::Record(_) => best,
    }
}

/// The least number in each type.
fn least_of_each(alloc: Global, count: usize, types: &[Ty]) -> Result<Vec<Option<usize>>, NoMemory>
    ensures { IfOk result (λ leasts. leasts.items ≡ map (least_in count) (map type_of types.now)) }
{
    let mut leasts = Vec::new(alloc);
    for t in types {
        push(&mut leasts, least_among(count, None, t))?;
    }
    Ok(leasts)
}

#[tactic(auto, using(crate::proofs::OpenStructures::least_append))]
fn least_in_records(count: usize, records: &[Record]) -> Option<usize>
    ensures { result ≡ least_among count None (flat_map structures_in (flat_map field_types (records_of records.now))) }
{
    let mut best = None;
    for r in records {
        for f in r.fields.as_slice() {
            best = least_among(count, best, &f.ty);
        }
    }
    best
}

fn have_none(leasts: &[Option<usize>]) -> bool
    ensures { result ≡ have_none leasts.now }
{
    for least in leasts {
        if least.is_some() {
            return false;
        }
    }
    true
}

/// The least number found before and in the types that are held. Where no type has one, nothing has to be asked of the trees.
#[tactic(auto, using(crate::proofs::OpenStructures::none_lesser), unfolding(c_walks::specs::NodeTypes::types_found))]
fn least_in_held(
    alloc: Global,
    p: &Typed,
    best: Option<usize>,
    leasts: &[Option<usize>],
) -> Result<Option<usize>, NoMemory>
    ensures { IfOk result (λ least. least ≡ fold (lesser_at leasts.now) best (flat_map types_of_object (program_data p.now).objects ++ flat_map types_of_function (program_data p.now).functions)) }
{
    if have_none(leasts) {
        return Ok(best);
    }
    let held = held_by(alloc, p)?;
    let numbers = held.types.as_slice();
    let mut best = best;
    for number in numbers {
        if let Some(Some(n)) = leasts.get(**number) {
            best = lesser_of(best, *n);
        }
    }
    Ok(best)
}

/// The least number of a structure that no file completes, where a type of the program holds one.
pub fn least_open(alloc: Global, p: &Typed) -> Result<Option<usize>, NoMemory>
    ensures { IfOk result (λ found. MatchOption found (open_structures (program_data p.now) ≡ []) (λ r. IsLeast (open_structures (program_data p.now)) r)) }
{
    let count = p.records.len();
    let leasts = least_of_each(alloc, count, p.types.as_slice())?;
    let best = least_in_records(count, p.records.as_slice());
    let least = least_in_held(alloc, p, best, leasts.as_slice())?;
    Ok(least)
}
