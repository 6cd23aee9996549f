//! The types of which initializers speak.

ghost use Rattle.std.specs.Prelude.{◌≡◌, [], ◌∷◌, ◌++◌, OnOk, flat_map, map};
ghost use Rattle.std.specs.Option.{option_map};
ghost use Rattle.c_annotated.specs.Views.{expression_of, initializer_of, part_of, part_value_of, path_of};
ghost use Rattle.c_erasure.specs.Erasure.{typed};
ghost use Rattle.c_erasure.specs.InitialMentions.{is_null_node, mention, of_conversion, told, told_by_initial, told_by_path, told_by_value};
ghost use Rattle.c_initial_values.specs.Values.{mentions_in};
ghost use Rattle.c_typed.specs.Mapped.{mapped_initializer, mapped_part, mapped_path, mapped_value, of_types};
ghost use Rattle.c_types.specs.Views.{type_of};

use c_annotated::{
    Expression, ExpressionNode, Initializer, InitializerPart, Mention, PartValue, Path, PathNode,
};
use c_typed::{MentionKind, is_pointer};
use c_types::{Ty, copy, same};
use lay_base::{List, NoMemory, Place, add};
use std::alloc::Global;

#[tactic(auto, unfolding(crate::specs::Values::mentions_in))]
fn add_mention(
    found: &mut List<Mention>,
    kind: MentionKind,
    ty: Ty,
    place: Place,
) -> Result<(), NoMemory>
    ensures { OnOk result (mentions_in found.new ≡ mentions_in found.old ++ mention kind (type_of ty) place ∷ []) }
{
    let at = place.at;
    add(found, Mention { kind, ty, at })
}

fn is_null_node(e: &Expression) -> bool
    ensures { result ≡ is_null_node (typed (expression_of e.now)) }
{
    matches!(&e.node, ExpressionNode::Null)
}

/// Those before and after a conversion of a pointer, with the place of what is converted.
fn told_by_conversion(
    alloc: Global,
    found: &mut List<Mention>,
    t: &Ty,
    e: &Expression,
) -> Result<(), NoMemory>
    ensures { OnOk result (mentions_in found.new ≡ mentions_in found.old ++ of_conversion (type_of t.now) (typed (expression_of e.now))) }
{
    if is_pointer(t) && is_pointer(&e.ty.ty) && !same(t, &e.ty.ty) && !is_null_node(e) {
        let from = copy(alloc, &e.ty.ty)?;
        add_mention(found, MentionKind::From, from, e.place)?;
        let to = copy(alloc, t)?;
        add_mention(found, MentionKind::To, to, e.place)
    } else {
        Ok(())
    }
}

#[cycle(telling)]
fn told_by_expression(
    alloc: Global,
    found: &mut List<Mention>,
    e: &Expression,
) -> Result<(), NoMemory>
    ensures { OnOk result (mentions_in found.new ≡ mentions_in found.old ++ told (typed (expression_of e.now))) }
{
    match &e.node {
        ExpressionNode::FunctionName(_) => {
            let ty = copy(alloc, &e.ty.ty)?;
            add_mention(found, MentionKind::Used, ty, e.place)
        }
        ExpressionNode::Load(p) | ExpressionNode::AddressOf(p) | ExpressionNode::Decay(p) => {
            told_by_path(alloc, found, p.get())
        }
        ExpressionNode::Convert(x, _) => {
            told_by_expression(alloc, found, x.get())?;
            told_by_conversion(alloc, found, &e.ty.ty, x.get())
        }
        ExpressionNode::Unary(_, x) | ExpressionNode::Not(x) => {
            told_by_expression(alloc, found, x.get())
        }
        ExpressionNode::Binary(_, x, y)
        | ExpressionNode::Compare(_, x, y)
        | ExpressionNode::PointerAdd(_, x, y)
        | ExpressionNode::PointerDiff(x, y)
        | ExpressionNode::And(x, y)
        | ExpressionNode::Or(x, y) => {
            told_by_expression(alloc, found, x.get())?;
            told_by_expression(alloc, found, y.get())
        }
        ExpressionNode::Cond(x, y, z) => {
            told_by_expression(alloc, found, x.get())?;
            told_by_expression(alloc, found, y.get())?;
            told_by_expression(alloc, found, z.get())
        }
        _ => Ok(()),
    }
}

#[cycle(telling)]
fn told_by_path(alloc: Global, found: &mut List<Mention>, p: &Path) -> Result<(), NoMemory>
    ensures { OnOk result (mentions_in found.new ≡ mentions_in found.old ++ told_by_path (mapped_path (of_types (λ t. t.ty)) (path_of p.now))) }
{
    match &p.node {
        PathNode::Named(_) | PathNode::Object(_) => Ok(()),
        PathNode::Deref(e) => told_by_expression(alloc, found, e.get()),
        PathNode::Index(e, i) => {
            told_by_expression(alloc, found, e.get())?;
            told_by_expression(alloc, found, i.get())
        }
        PathNode::Member(q, r, _) => {
            told_by_path(alloc, found, q.get())?;
            add_mention(found, MentionKind::Field, Ty::Record(*r), p.place)
        }
        PathNode::Element(q, i) => {
            told_by_path(alloc, found, q.get())?;
            told_by_expression(alloc, found, i.get())
        }
    }
}

fn told_by_value(
    alloc: Global,
    found: &mut List<Mention>,
    value: &PartValue,
) -> Result<(), NoMemory>
    ensures { OnOk result (mentions_in found.new ≡ mentions_in found.old ++ told_by_value (mapped_value (of_types (λ t. t.ty)) (part_value_of value.now))) }
{
    match value {
        PartValue::Value(e) => told_by_expression(alloc, found, e.get()),
        PartValue::Record(p) => told_by_path(alloc, found, p.get()),
        PartValue::Text(_) => Ok(()),
    }
}

fn told_by_parts(
    alloc: Global,
    found: &mut List<Mention>,
    all: &[InitializerPart],
) -> Result<(), NoMemory>
    ensures { OnOk result (mentions_in found.new
        ≡ mentions_in found.old ++ flat_map (λ part. told_by_value part.value) (map (mapped_part (of_types (λ t. t.ty))) (map part_of all.now))) }
{
    for part in all {
        told_by_value(alloc, found, &part.value)?;
    }
    Ok(())
}

/// Adds the mentions of an initializer whose allocations and null pointers are recognised, where there is one.
pub fn told_by_initial(
    alloc: Global,
    found: &mut List<Mention>,
    initial: &Option<Initializer>,
) -> Result<(), NoMemory>
    ensures { OnOk result (mentions_in found.new
        ≡ mentions_in found.old ++ told_by_initial (option_map (mapped_initializer (of_types (λ t. t.ty))) (option_map initializer_of initial.now))) }
{
    match initial {
        None => Ok(()),
        Some(Initializer::Value(e)) => told_by_expression(alloc, found, e.get()),
        Some(Initializer::Record(p)) => told_by_path(alloc, found, p.get()),
        Some(Initializer::Parts(all)) => told_by_parts(alloc, found, all.as_slice()),
    }
}
