//! Statements with numbers of types.

ghost use Rattle.std.specs.Prelude.{◌≡◌, IfOk, map};
ghost use Rattle.std.specs.Option.{option_map};
ghost use Rattle.c_annotated.specs.Views.{arm_of as noted_arm, arms_of as noted_arms, statement_of as noted_statement};
ghost use Rattle.c_annotated.specs.Views.{statements_of as noted_statements};
ghost use Rattle.c_numbered.specs.Numbered.{numbered, numbered_arm};
ghost use Rattle.c_typed.specs.Mapped.{mapped_arms, mapped_statement, mapped_statements};
ghost use Rattle.c_typed.specs.Views.{arm_of, arms_of, statement_of, statements_of};

use crate::expressions::{Numbering, operand};
use crate::initializers::{optional_expression, optional_initializer};
use c_annotated::Noted;
use c_typed::{Arm, Statement};
use lay_base::{Boxed, List, NoMemory, add, boxed, copied, with_room};
use std::alloc::Global;

/// The numbers of locals, or the values of `case` labels.
fn copy_of<T: Copy>(alloc: Global, numbers: &List<T>) -> Result<List<T>, NoMemory>
    ensures { IfOk result (λ r. r ≡ numbers.now) }
{
    Ok(List::of(copied(alloc, numbers.as_slice())?))
}

#[cycle(statement_numbering)]
fn statement(by: Numbering, s: &Statement<Noted>) -> Result<Statement, NoMemory>
    ensures { IfOk result (λ r. statement_of r ≡ mapped_statement (numbered by.entry.types.now) (noted_statement s.now)) }
{
    match s {
        Statement::Do(e) => Ok(Statement::Do(operand(by, e)?)),
        Statement::Block(locals, all) => Ok(Statement::Block(
            copy_of(by.alloc, locals)?,
            statements(by, all.as_slice())?,
        )),
        Statement::Declare(n, initial) => Ok(Statement::Declare(
            *n,
            optional_initializer(by, initial)?,
        )),
        Statement::If(e, one, other) => match other {
            None => Ok(Statement::If(operand(by, e)?, inner(by, one)?, None)),
            Some(other) => {
                let e = operand(by, e)?;
                Ok(Statement::If(e, inner(by, one)?, Some(inner(by, other)?)))
            }
        },
        Statement::While(e, body) => Ok(Statement::While(operand(by, e)?, inner(by, body)?)),
        Statement::DoWhile(body, e) => Ok(Statement::DoWhile(inner(by, body)?, operand(by, e)?)),
        Statement::For(locals, start, test, step, body) => Ok(Statement::For(
            copy_of(by.alloc, locals)?,
            statements(by, start.as_slice())?,
            optional_expression(by, test)?,
            optional_expression(by, step)?,
            inner(by, body)?,
        )),
        Statement::Switch(e, locals, all) => Ok(Statement::Switch(
            operand(by, e)?,
            copy_of(by.alloc, locals)?,
            arms(by, all.as_slice())?,
        )),
        Statement::Break => Ok(Statement::Break),
        Statement::Continue => Ok(Statement::Continue),
        Statement::Return(e) => Ok(Statement::Return(optional_expression(by, e)?)),
    }
}

#[cycle(statement_numbering)]
fn inner(by: Numbering, s: &Boxed<Statement<Noted>>) -> Result<Boxed<Statement>, NoMemory>
    ensures { IfOk result (λ r. statement_of r ≡ mapped_statement (numbered by.entry.types.now) (noted_statement s.now)) }
{
    let s = statement(by, s.get())?;
    boxed(by.alloc, s)
}

#[cycle(statement_numbering)]
fn statements(by: Numbering, all: &[Statement<Noted>]) -> Result<List<Statement>, NoMemory>
    ensures { IfOk result (λ r. statements_of (map statement_of r) ≡ mapped_statements (numbered by.entry.types.now) (noted_statements (map noted_statement all.now))) }
{
    let mut done = with_room(by.alloc, all.len())?;
    for s in all {
        add(&mut done, statement(by, s)?)?;
    }
    Ok(done)
}

#[cycle(statement_numbering)]
fn arm(by: Numbering, it: &Arm<Noted>) -> Result<Arm, NoMemory>
    ensures { IfOk result (λ r. arm_of r ≡ numbered_arm by.entry.types.now (noted_arm it.now)) }
{
    let cases = copy_of(by.alloc, &it.cases)?;
    let statements = statements(by, it.statements.as_slice())?;
    Ok(Arm {
        cases,
        is_default: it.is_default,
        statements,
    })
}

#[cycle(statement_numbering)]
fn arms(by: Numbering, all: &[Arm<Noted>]) -> Result<List<Arm>, NoMemory>
    ensures { IfOk result (λ r. arms_of (map arm_of r) ≡ mapped_arms (numbered by.entry.types.now) (noted_arms (map noted_arm all.now))) }
{
    let mut done = with_room(by.alloc, all.len())?;
    for it in all {
        add(&mut done, arm(by, it)?)?;
    }
    Ok(done)
}

/// A statement with numbers of types, where there is one.
pub fn optional_statement(
    by: Numbering,
    s: &Option<Statement<Noted>>,
) -> Result<Option<Statement>, NoMemory>
    ensures { IfOk result (λ r. option_map statement_of r ≡ option_map (mapped_statement (numbered by.entry.types.now)) (option_map noted_statement s.now)) }
{
    Ok(match s {
        None => None,
        Some(s) => Some(statement(by, s)?),
    })
}
