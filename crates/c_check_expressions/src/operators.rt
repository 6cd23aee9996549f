//! Nodes of expressions whose operands are found (C99 6.5).

ghost use Rattle.std.specs.Prelude.{◌≡◌, Ok};
ghost use Rattle.c_erasure.specs.Erasure.{place_in};
ghost use Rattle.c_erasure.specs.Scopes as Scopes;
ghost use Rattle.c_erasure.specs.Checking.Answers.{with_file};
ghost use Rattle.c_erasure.specs.Checking.Finding.{on_value as on_value_of, unary_on};
ghost use Rattle.c_annotated.specs.Views.{expression_of, thing_of};
ghost use Rattle.c_scopes.specs.Scoping.{file_of};
ghost use Rattle.c_declaring.specs.Finds.{Finds};

use c_annotated::Thing;
use c_ast::UnaryOp;
use c_nodes::{Fault, Start, Value, address, deref, not, unary, worth};
use c_scopes::FileScope;
use c_typed::UnaryOp as TypedUnaryOp;
use lay_base::Rule;

/// A unary operator on a value. It stands at `at`.
fn on_value(file: &FileScope, op: UnaryOp, begin: Start, at: u32, x: Value) -> Result<Thing, Fault>
    ensures { (s : Scopes.Scope) → begin.place ≡ place_in s at
        → Finds thing_of result (with_file (file_of file.now) (on_value_of op begin.count at s (expression_of x))) file.now }
{
    match op {
        UnaryOp::Deref => deref(begin, x),
        UnaryOp::Plus => unary(begin.alloc, begin.place, TypedUnaryOp::Plus, x),
        UnaryOp::Minus => unary(begin.alloc, begin.place, TypedUnaryOp::Minus, x),
        UnaryOp::Complement => unary(begin.alloc, begin.place, TypedUnaryOp::Complement, x),
        UnaryOp::Not => not(begin.alloc, begin.place, x),
        UnaryOp::Address => Err(Fault::IllTyped(Rule::Lvalue, at)),
    }
}

/// A unary operator on what its operand designates, which begins at `from`. It stands at `at`.
#[tactic(auto, using(crate::proofs::OnValues::on_its_value))]
pub fn unary_thing(
    file: &FileScope,
    op: UnaryOp,
    begin: Start,
    from: u32,
    at: u32,
    thing: Thing,
) -> Result<Thing, Fault>
    ensures { (s : Scopes.Scope) → begin.place ≡ place_in s at
        → Finds thing_of result (unary_on op begin.count from at s (Ok (thing_of thing, file_of file.now))) file.now }
{
    match op {
        UnaryOp::Address => address(begin.alloc, from, begin.place, thing),
        _ => match worth(begin.alloc, from, thing) {
            Err(fault) => Err(fault),
            Ok(x) => on_value(file, op, begin, at, x),
        },
    }
}
