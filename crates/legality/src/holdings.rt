//! Which records hold which by value.

ghost use Rattle.std.specs.Prelude.{◌≡◌, ◌∷◌, [], IfOk, OnOk, fold, map};
ghost use Rattle.c_types.specs.Views.{field_of, record_of, records_of, type_of};
ghost use Rattle.legality.specs.Holdings.{held_in, holdings_of, is_among, new_in, with_field, with_record};

use c_types::{Field, Record, Ty};
use lay_base::{List, NoMemory, add, append};
use std::alloc::Global;

fn is_among(r: usize, all: &[usize]) -> bool
    ensures { result ≡ is_among r all.now }
{
    for s in all {
        if *s == r {
            return true;
        }
    }
    false
}

/// Those that are not among all.
fn new_in(alloc: Global, all: &[usize], more: &[usize]) -> Result<List<usize>, NoMemory>
    ensures { IfOk result (λ fresh. fresh ≡ new_in all.now more.now) }
{
    let mut fresh = List::new(alloc);
    for r in more {
        if !is_among(*r, all) {
            add(&mut fresh, *r)?;
        }
    }
    Ok(fresh)
}

/// The records of which an object of a type holds one or is one.
pub fn held_in<'a>(holdings: &'a [List<usize>], t: &Ty) -> &'a [usize]
    ensures { result.now ≡ held_in holdings.now (type_of t.now) }
{
    match t {
        Ty::Record(r) => match holdings.get(*r) {
            Some(held) => held.as_slice(),
            None => &[],
        },
        Ty::Array(t, _) => held_in(holdings, t.get()),
        _ => &[],
    }
}

fn add_field(
    alloc: Global,
    holdings: &[List<usize>],
    all: &mut List<usize>,
    f: &Field,
) -> Result<(), NoMemory>
    ensures { OnOk result (all.new ≡ with_field holdings.now all.old (field_of f.now)) }
{
    let fresh = new_in(alloc, all.as_slice(), held_in(holdings, &f.ty))?;
    append(all.as_mut_vec(), fresh.as_slice())
}

/// What a record holds, itself first, by what those before it hold.
fn held_by(
    alloc: Global,
    holdings: &[List<usize>],
    number: usize,
    fields: &[Field],
) -> Result<List<usize>, NoMemory>
    ensures { IfOk result (λ all. all ≡ fold (with_field holdings.now) (number ∷ []) (map field_of fields.now)) }
{
    let mut all = List::new(alloc);
    add(&mut all, number)?;
    for f in fields {
        add_field(alloc, holdings, &mut all, f)?;
    }
    Ok(all)
}

fn add_record(alloc: Global, holdings: &mut List<List<usize>>, r: &Record) -> Result<(), NoMemory>
    ensures { OnOk result (holdings.new ≡ with_record holdings.old (record_of r.now)) }
{
    let number = holdings.len();
    let held = held_by(alloc, holdings.as_slice(), number, r.fields.as_slice())?;
    add(holdings, held)
}

/// What each record of a list holds.
pub fn holdings_of(alloc: Global, records: &[Record]) -> Result<List<List<usize>>, NoMemory>
    ensures { IfOk result (λ holdings. holdings ≡ holdings_of (records_of records.now)) }
{
    let mut holdings = List::new(alloc);
    for r in records {
        add_record(alloc, &mut holdings, r)?;
    }
    Ok(holdings)
}
