//! Members of structures (C99 6.5.2.3).

ghost use Rattle.std.specs.Prelude.{◌≡◌, MatchOption, None, Some, map, slice_get};
ghost use Rattle.c_types.specs.Views.{field_of, records_of, type_of};
ghost use Rattle.c_erasure.specs.Noted.{type_of_path};
ghost use Rattle.c_erasure.specs.Checking.Nodes.{arrow_in, dot_in, field_from, field_in, member_of_type, member_to};
ghost use Rattle.c_annotated.specs.Views.{expression_of, path_of, thing_of};
ghost use Rattle.c_nodes.specs.Gives.{Gives};

use crate::fault::Fault;
use crate::making::{Start, Value, misplaced, way};
use c_annotated::{Path, PathNode, Thing, plain};
use c_ast::Spelling;
use c_types::{Field, Records, Ty, copy};
use lay_base::{Boxed, Place, Rule, boxed};
use std::alloc::Global;

/// The first of some fields that has a name, with its number.
fn field_named<'a>(fields: &'a [Field], x: &[u8]) -> Option<(usize, &'a Ty)>
    ensures { MatchOption result (field_from 0 (map field_of fields.now) x.now ≡ None)
        (λ it. field_from 0 (map field_of fields.now) x.now ≡ Some (it.0, type_of it.1.now)) }
{
    for (number, field) in fields.iter().enumerate() {
        if field.name.as_slice() == x {
            return Some((number, &field.ty));
        }
    }
    None
}

/// The first field with a name of the record with that number.
fn field_of_record<'a>(records: &'a Records, r: usize, x: &[u8]) -> Option<(usize, &'a Ty)>
    ensures { MatchOption result (field_in (slice_get (records_of records.now) r) x.now ≡ None)
        (λ it. field_in (slice_get (records_of records.now) r) x.now ≡ Some (it.0, type_of it.1.now)) }
{
    match records.as_slice().get(r) {
        Some(record) => field_named(record.fields.as_slice(), x),
        None => None,
    }
}

/// A field of an object whose type is the structure with that number.
fn field(
    alloc: Global,
    records: &Records,
    at: Place,
    x: &Spelling,
    p: Boxed<Path>,
    r: usize,
) -> Result<Thing, Fault>
    ensures { Gives thing_of result (member_to x.now.from at (path_of p) r (field_in (slice_get (records_of records.now) r) x.now.text)) }
{
    match field_of_record(records, r, x.text.as_slice()) {
        Some((number, t)) => way(alloc, copy(alloc, t)?, at, PathNode::Member(p, r, number)),
        None => Err(Fault::IllTyped(Rule::Member, x.from)),
    }
}

/// A member of an object, where `count` records are complete.
fn member(
    alloc: Global,
    records: &Records,
    count: usize,
    at: Place,
    x: &Spelling,
    p: Boxed<Path>,
) -> Result<Thing, Fault>
    ensures { Gives thing_of result
        (member_of_type (records_of records.now) count x.now.from at (path_of p) (type_of_path (path_of p)) x.now.text) }
{
    match &p.get().ty.ty {
        Ty::Record(r) => {
            let r = *r;
            if r < count {
                field(alloc, records, at, x, p, r)
            } else {
                Err(Fault::IllTyped(Rule::Incomplete, x.from))
            }
        }
        _ => Err(Fault::IllTyped(Rule::Member, x.from)),
    }
}

/// A member of what stands there, by `.`. `count` records are complete where that stands.
#[tactic(auto, unfolding(c_erasure::specs::Checking::Nodes::dot_in))]
pub fn dot(
    alloc: Global,
    records: &Records,
    count: usize,
    at: Place,
    x: &Spelling,
    thing: Thing,
) -> Result<Thing, Fault>
    ensures { Gives thing_of result (dot_in (records_of records.now) count x.now.from at (thing_of thing) x.now.text) }
{
    match thing {
        Thing::Object(p) => member(alloc, records, count, at, x, p),
        thing => {
            let (rule, there) = misplaced(&thing, Rule::Member, x.from, at.at);
            Err(Fault::IllTyped(rule, there))
        }
    }
}

/// A member of what a pointer points to, by `->`.
#[tactic(auto, unfolding(c_erasure::specs::Checking::Nodes::arrow_in))]
pub fn arrow(records: &Records, begin: Start, x: &Spelling, e: Value) -> Result<Thing, Fault>
    ensures { Gives thing_of result (arrow_in (records_of records.now) begin.count x.now.from begin.place (expression_of e) x.now.text) }
{
    let Start { alloc, place, .. } = begin;
    match &e.get().ty.ty {
        Ty::Pointer(to) => {
            let ty = copy(alloc, to.get())?;
            let node = PathNode::Deref(e);
            let p = boxed(
                alloc,
                Path {
                    ty: plain(ty),
                    place,
                    node,
                },
            )?;
            member(alloc, records, begin.count, place, x, p)
        }
        _ => Err(Fault::IllTyped(Rule::Member, x.from)),
    }
}
