//! Statements as they are made of their parts, with the locals that they declare.

ghost use Rattle.std.specs.Prelude.{◌≡◌, ◌++◌, IfOk, Ok, OnOk, map};
ghost use Rattle.std.specs.Option.{option_map};
ghost use Rattle.c_typed.specs.Trees as Typed;
ghost use Rattle.c_typed.specs.TypedStatements.{declared_by, declared_by_arms};
ghost use Rattle.c_annotated.specs.Views.{arm_of, arms_of, expression_of, statement_of, statements_of};
ghost use Rattle.c_nodes.specs.Gives.{Gives};
ghost use Rattle.c_nodes.specs.OperatorNodes.Parts.{switch_view};
ghost use Rattle.c_check_parts.specs.BlockLocals.Performing.{body_of};
ghost use Rattle.c_check_statements.specs.StatementParts.Parts.{number_declared};

use c_annotated::{Arm, Expression, Statement};
use c_nodes::{Fault, SwitchValue};
use lay_base::{Boxed, List, NoMemory, add, boxed};
use std::alloc::Global;

/// A statement in a box.
pub fn statement(alloc: Global, st: Statement) -> Result<Boxed<Statement>, Fault>
    ensures { Gives statement_of result (Ok (statement_of st)) }
{
    Ok(boxed(alloc, st)?)
}

/// The local that a statement declares itself.
fn number_declared(st: &Statement) -> Option<usize>
    ensures { result ≡ number_declared (statement_of st.now) }
{
    match st {
        Statement::Declare(n, _) => Some(*n),
        _ => None,
    }
}

/// The locals that statements declare themselves, after others.
#[tactic(auto, using(crate::proofs::StatementParts::Declared::declared_number, crate::proofs::StatementParts::Declared::declared_nothing))]
fn add_declared(locals: &mut List<usize>, all: &[Statement]) -> Result<(), NoMemory>
    ensures { OnOk result (locals.new ≡ locals.old ++ declared_by (statements_of (map statement_of all.now))) }
{
    for st in all {
        if let Some(n) = number_declared(st) {
            add(locals, n)?;
        }
    }
    Ok(())
}

/// The locals that the statements of arms declare themselves.
fn declared_by_arms(alloc: Global, arms: &[Arm]) -> Result<List<usize>, NoMemory>
    ensures { IfOk result (λ locals. locals ≡ declared_by_arms (arms_of (map arm_of arms.now))) }
{
    let mut locals = List::new(alloc);
    for arm in arms {
        add_declared(&mut locals, arm.statements.as_slice())?;
    }
    Ok(locals)
}

/// A block of statements, with the locals that they declare.
pub fn block_of(alloc: Global, all: List<Statement>) -> Result<Boxed<Statement>, Fault>
    ensures { Gives statement_of result (Ok (Typed.block (declared_by (body_of all)) (body_of all))) }
{
    let mut locals = List::new(alloc);
    add_declared(&mut locals, all.as_slice())?;
    statement(alloc, Statement::Block(locals, all))
}

/// A selection of one of two statements.
pub fn if_else_of(
    alloc: Global,
    x: Boxed<Expression>,
    one: Boxed<Statement>,
    other: Boxed<Statement>,
) -> Result<Boxed<Statement>, Fault>
    ensures { Gives statement_of result (Ok (Typed.when_else (expression_of x) (statement_of one) (statement_of other))) }
{
    statement(alloc, Statement::If(x, one, Some(other)))
}

/// A `for`, with the locals that its beginning declares.
pub fn for_of(
    alloc: Global,
    start: List<Statement>,
    test: Option<Boxed<Expression>>,
    step: Option<Boxed<Expression>>,
    body: Boxed<Statement>,
) -> Result<Boxed<Statement>, Fault>
    ensures { Gives statement_of result (Ok (Typed.for (declared_by (body_of start)) (body_of start)
        (option_map expression_of test) (option_map expression_of step) (statement_of body))) }
{
    let mut locals = List::new(alloc);
    add_declared(&mut locals, start.as_slice())?;
    statement(alloc, Statement::For(locals, start, test, step, body))
}

/// A `switch`, with the locals that its arms declare.
pub fn switch_of(alloc: Global, x: SwitchValue, arms: List<Arm>) -> Result<Boxed<Statement>, Fault>
    ensures { let all = arms_of (map arm_of arms) in Gives statement_of result (Ok (Typed.switch (expression_of x.value) (declared_by_arms all) all)) }
{
    let locals = declared_by_arms(alloc, arms.as_slice())?;
    statement(alloc, Statement::Switch(x.value, locals, arms))
}
