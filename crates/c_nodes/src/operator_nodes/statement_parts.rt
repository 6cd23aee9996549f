//! The expressions in statements and initializers (C99 6.7.8, 6.8). Each begins at `at`.

ghost use Rattle.std.specs.Prelude.{◌≡◌};
ghost use Rattle.c_types.specs.Views.{type_of};
ghost use Rattle.c_erasure.specs.Checking.Initializers.{initial_value_in};
ghost use Rattle.c_erasure.specs.Checking.Statements.{condition_in, returned_in, switched_in};
ghost use Rattle.c_annotated.specs.Views.{expression_of};
ghost use Rattle.c_nodes.specs.Gives.{Gives};
ghost use Rattle.c_nodes.specs.OperatorNodes.Parts.{switch_view};

use crate::fault::Fault;
use crate::making::{Value, convert, convert_to_kind};
use c_annotated::is_null;
use c_typed::{assigns, is_scalar, promoted_kind};
use c_types::{IntKind, Ty};
use lay_base::Rule;
use std::alloc::Global;

/// The controlling expression of a `switch` (C99 6.8.4.2), with its promoted type.
#[derive(Drop)]
pub struct SwitchValue {
    pub value: Value,
    pub kind: IntKind,
}

/// A value that a number or a pointer holds at first.
#[tactic(auto, unfolding(c_erasure::specs::Checking::Initializers::initial_value_in))]
pub fn initial_value(alloc: Global, at: u32, t: &Ty, x: Value) -> Result<Value, Fault>
    ensures { Gives expression_of result (initial_value_in at (type_of t.now) (expression_of x)) }
{
    if assigns(&x.get().ty.ty, is_null(x.get()), t) {
        Ok(convert(alloc, t, x)?)
    } else {
        Err(Fault::IllTyped(Rule::Assign, at))
    }
}

/// The controlling expression of a selection or an iteration: a number or a pointer (C99 6.8.4.1, 6.8.5).
#[tactic(auto, unfolding(c_erasure::specs::Checking::Statements::condition_in))]
pub fn condition(at: u32, x: Value) -> Result<Value, Fault>
    ensures { Gives expression_of result (condition_in at (expression_of x)) }
{
    if is_scalar(&x.get().ty.ty) {
        Ok(x)
    } else {
        Err(Fault::IllTyped(Rule::Condition, at))
    }
}

/// The controlling expression of a `switch`: a number, which is promoted (C99 6.8.4.2).
#[tactic(auto, unfolding(c_erasure::specs::Checking::Statements::switched_in))]
pub fn switched(alloc: Global, at: u32, x: Value) -> Result<SwitchValue, Fault>
    ensures { Gives switch_view result (switched_in at (expression_of x)) }
{
    match &x.get().ty.ty {
        Ty::Int(kind) => {
            let kind = promoted_kind(*kind);
            let value = convert_to_kind(alloc, kind, x)?;
            Ok(SwitchValue { value, kind })
        }
        _ => Err(Fault::IllTyped(Rule::Condition, at)),
    }
}

/// A value that a function gives, whose result has a type (C99 6.8.6.4). `return` stands at `at`.
#[tactic(auto, unfolding(c_erasure::specs::Checking::Statements::returned_in))]
pub fn returned(alloc: Global, at: u32, t: &Ty, x: Value) -> Result<Value, Fault>
    ensures { Gives expression_of result (returned_in at (type_of t.now) (expression_of x)) }
{
    if assigns(&x.get().ty.ty, is_null(x.get()), t) {
        Ok(convert(alloc, t, x)?)
    } else {
        Err(Fault::IllTyped(Rule::Return, at))
    }
}
