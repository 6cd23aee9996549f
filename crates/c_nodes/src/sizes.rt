//! Sizes of types, and `sizeof` (C99 6.5.3.4). `count` records are complete where it stands.

ghost use Rattle.std.specs.Prelude.{◌≡◌, IfOk, List, Ok, nat_le, nat_lt};
ghost use Rattle.std.specs.Option.{option_map};
ghost use Rattle.c_types.specs.Layouts.{size_of as size_of_type};
ghost use Rattle.c_types.specs.Objects.{parts as parts_of};
ghost use Rattle.c_types.specs.Types.{Record};
ghost use Rattle.c_types.specs.Views.{records_of, type_of};
ghost use Rattle.c_erasure.specs.Broken.{ill_typed};
ghost use Rattle.c_erasure.specs.Checking.Declaring.{is_small as small_in};
ghost use Rattle.c_erasure.specs.Checking.Nodes.{is_complete as complete_in, measured_in, measured_type as type_measured, size_node, sized_or as sized_or_in};
ghost use Rattle.c_annotated.specs.Views.{thing_of};
ghost use Rattle.c_nodes.specs.Gives.{Gives};
ghost use Rattle.c_nodes.specs.Sizing.{sized_in, sized_view, with_size};

use crate::fault::Fault;
use crate::making::misplaced;
use c_annotated::{Expression, ExpressionNode, Noted, SizeOf, Thing};
use c_types::{IntKind, Records, Ty, checked_size_of, copy, is_object, parts};
use lay_base::{NoMemory, Place, Rule, boxed};
use std::alloc::Global;

/// An object type, with its size in bytes.
#[derive(Drop)]
pub struct SizedType {
    pub ty: Ty,
    pub size: u32,
}

/// Whether a type fully describes an object, and all records in it are in the list.
pub fn is_complete(records: &Records, count: usize, t: &Ty) -> bool
    ensures { result ≡ complete_in (records_of records.now) count (type_of t.now) }
{
    is_object(count, t) && is_object(records.len(), t)
}

/// Whether a type has at most 16,777,216 bytes. What is no object has none.
#[tactic(auto, using(crate::proofs::Limits::small_of_some))]
fn has_small_size(records: &Records, t: &Ty) -> bool
    ensures { result ≡ nat_le (size_of_type (records_of records.now) (type_of t.now)) 16777216 }
{
    if is_object(records.len(), t) {
        checked_size_of(records, t).is_some()
    } else {
        true
    }
}

/// Whether a type is built of at most 1,024 types.
#[tactic(auto, using(crate::proofs::Limits::few_parts))]
fn has_few_parts(t: &Ty) -> bool
    ensures { result ≡ nat_le (parts_of (type_of t.now)) 1024 }
{
    parts(t) <= 1024
}

/// Whether a type is within the limits of types.
pub fn is_small(records: &Records, t: &Ty) -> bool
    ensures { result ≡ small_in (records_of records.now) (type_of t.now) }
{
    has_small_size(records, t) && has_few_parts(t)
}

/// Whether a pointer to a type has at most 1,024 parts.
#[tactic(auto, using(crate::proofs::Limits::room_for_pointer))]
pub fn may_be_pointed_to(t: &Ty) -> bool
    ensures { result ≡ nat_lt (parts_of (type_of t.now)) 1024 }
{
    parts(t) < 1024
}

/// A type whose size is asked at `at`, with its size; where it is not complete, it breaks that rule there.
#[tactic(auto, using(crate::proofs::Limits::of_small_size))]
fn sized_or(
    records: &Records,
    count: usize,
    at: u32,
    rule: Rule,
    there: u32,
    t: Ty,
) -> Result<SizedType, Fault>
    ensures { Gives sized_view result (with_size (records_of records.now) (sized_or_in (records_of records.now) count at (ill_typed rule there) (type_of t))) }
{
    if is_object(count, &t) && is_object(records.len(), &t) {
        match checked_size_of(records, &t) {
            Some(size) => Ok(SizedType { ty: t, size }),
            None => Err(Fault::TooBig(at)),
        }
    } else {
        Err(Fault::IllTyped(rule, there))
    }
}

/// A type whose size is asked, with its size. A fault is named at `at`.
#[tactic(auto, unfolding(c_erasure::specs::Checking::Nodes::sized_type))]
pub fn sized(records: &Records, count: usize, at: u32, t: Ty) -> Result<SizedType, Fault>
    ensures { Gives sized_view result (sized_in (records_of records.now) count at (type_of t)) }
{
    sized_or(records, count, at, Rule::Incomplete, at, t)
}

/// The type of an operand of `sizeof`; a function has none.
#[tactic(auto, unfolding(c_erasure::specs::Checking::Nodes::measured_type))]
fn measured_type(alloc: Global, thing: &Thing) -> Result<Option<Ty>, NoMemory>
    ensures { IfOk result (λ t. option_map type_of t ≡ type_measured (thing_of thing.now)) }
{
    match thing {
        Thing::Object(p) => Ok(Some(copy(alloc, &p.get().ty.ty)?)),
        Thing::Value(e) => Ok(Some(copy(alloc, &e.get().ty.ty)?)),
        _ => Ok(None),
    }
}

/// The type of an operand of `sizeof`, which begins at `from`, with its size. `sizeof` stands at `at`.
#[tactic(auto, unfolding(c_erasure::specs::Checking::Nodes::measured_in))]
pub fn measured(
    alloc: Global,
    records: &Records,
    count: usize,
    at: u32,
    from: u32,
    thing: &Thing,
) -> Result<SizedType, Fault>
    ensures { Gives sized_view result (with_size (records_of records.now) (measured_in (records_of records.now) count at from (thing_of thing.now))) }
{
    let (rule, there) = misplaced(thing, Rule::Incomplete, at, from);
    match measured_type(alloc, thing)? {
        Some(t) => sized_or(records, count, at, rule, there, t),
        None => Err(Fault::IllTyped(rule, there)),
    }
}

/// The constant that a `sizeof` is.
pub fn size_constant(alloc: Global, at: Place, it: SizedType) -> Result<Thing, Fault>
    ensures { (records : List Record) → it.size ≡ size_of_type records (type_of it.ty) → Gives thing_of result (Ok (size_node records at (type_of it.ty))) }
{
    let note = boxed(
        alloc,
        SizeOf {
            ty: it.ty,
            at: at.at,
        },
    )?;
    let constant = Expression {
        ty: Noted {
            ty: Ty::Int(IntKind::UInt),
            note: Some(note),
        },
        place: at,
        node: ExpressionNode::Constant(it.size),
    };
    Ok(Thing::Value(boxed(alloc, constant)?))
}
