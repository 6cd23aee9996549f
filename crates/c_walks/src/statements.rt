//! What stands at the nodes of statements and of the initializers in them.

ghost use Rattle.std.specs.Prelude.{◌≡◌, ◌++◌, OnOk, flat_map, map};
ghost use Rattle.std.specs.Option.{option_map};
ghost use Rattle.c_typed.specs.Addressed.{addressed_by_arms, addressed_by_initial, addressed_by_statement};
ghost use Rattle.c_typed.specs.Addressed.{addressed_by_statements, addressed_by_value, addressed_if_any};
ghost use Rattle.c_typed.specs.References.{references_by_arms, references_by_initial, references_by_statement, references_by_statements};
ghost use Rattle.c_typed.specs.References.{references_by_value, references_if_any};
ghost use Rattle.c_typed.specs.TreeViews.{arm_of, arms_of, expression_of, initializer_of, part_of, part_value_of, statement_of, statements_of};
ghost use Rattle.c_typed.specs.Walk.{types_if_any, types_in_arms, types_in_initial, types_in_statement};
ghost use Rattle.c_typed.specs.Walk.{types_in_statements, types_in_value};
ghost use Rattle.c_walks.specs.NodeTypes.{references_in, taken_in, types_found};

use crate::expressions::{walk_expression, walk_path};
use crate::nodes::{NodeType, Nodes};
use c_typed::{Arm, Expression, Initializer, InitializerPart, PartValue, Statement};
use lay_base::{Boxed, NoMemory};

fn walk_value<'a, T: NodeType>(
    found: &mut Nodes<'a, T>,
    value: &'a PartValue<T>,
) -> Result<(), NoMemory>
    ensures types { OnOk result (types_found T.seen found.new ≡ types_found T.seen found.old ++ types_in_value (part_value_of T.seen value.now)) }
    ensures taken { OnOk result (taken_in found.new ≡ taken_in found.old ++ addressed_by_value (part_value_of T.seen value.now)) }
    ensures references { OnOk result (references_in found.new ≡ references_in found.old ++ references_by_value (part_value_of T.seen value.now)) }
{
    match value {
        PartValue::Value(e) => walk_expression(found, e.get()),
        PartValue::Record(p) => walk_path(found, p.get()),
        PartValue::Text(_) => Ok(()),
    }
}

fn walk_parts<'a, T: NodeType>(
    found: &mut Nodes<'a, T>,
    all: &'a [InitializerPart<T>],
) -> Result<(), NoMemory>
    ensures types { OnOk result (types_found T.seen found.new ≡ types_found T.seen found.old ++ flat_map (λ part. types_in_value part.value) (map (part_of T.seen) all.now)) }
    ensures taken { OnOk result (taken_in found.new ≡ taken_in found.old ++ flat_map (λ part. addressed_by_value part.value) (map (part_of T.seen) all.now)) }
    ensures references { OnOk result (references_in found.new ≡ references_in found.old ++ flat_map (λ part. references_by_value part.value) (map (part_of T.seen) all.now)) }
{
    for part in all {
        walk_value(found, &part.value)?;
    }
    Ok(())
}

fn walk_initial<'a, T: NodeType>(
    found: &mut Nodes<'a, T>,
    initial: &'a Option<Initializer<T>>,
) -> Result<(), NoMemory>
    ensures types { OnOk result (types_found T.seen found.new ≡ types_found T.seen found.old ++ types_in_initial (option_map (initializer_of T.seen) initial.now)) }
    ensures taken { OnOk result (taken_in found.new ≡ taken_in found.old ++ addressed_by_initial (option_map (initializer_of T.seen) initial.now)) }
    ensures references { OnOk result (references_in found.new ≡ references_in found.old ++ references_by_initial (option_map (initializer_of T.seen) initial.now)) }
{
    match initial {
        None => Ok(()),
        Some(Initializer::Value(e)) => walk_expression(found, e.get()),
        Some(Initializer::Record(p)) => walk_path(found, p.get()),
        Some(Initializer::Parts(all)) => walk_parts(found, all.as_slice()),
    }
}

fn walk_if_any<'a, T: NodeType>(
    found: &mut Nodes<'a, T>,
    e: &'a Option<Boxed<Expression<T>>>,
) -> Result<(), NoMemory>
    ensures types { OnOk result (types_found T.seen found.new ≡ types_found T.seen found.old ++ types_if_any (option_map (expression_of T.seen) e.now)) }
    ensures taken { OnOk result (taken_in found.new ≡ taken_in found.old ++ addressed_if_any (option_map (expression_of T.seen) e.now)) }
    ensures references { OnOk result (references_in found.new ≡ references_in found.old ++ references_if_any (option_map (expression_of T.seen) e.now)) }
{
    match e {
        None => Ok(()),
        Some(e) => walk_expression(found, e.get()),
    }
}

/// Those of a statement.
#[cycle(statement_walk)]
pub fn walk_statement<'a, T: NodeType>(
    found: &mut Nodes<'a, T>,
    s: &'a Statement<T>,
) -> Result<(), NoMemory>
    ensures types { OnOk result (types_found T.seen found.new ≡ types_found T.seen found.old ++ types_in_statement (statement_of T.seen s.now)) }
    ensures taken { OnOk result (taken_in found.new ≡ taken_in found.old ++ addressed_by_statement (statement_of T.seen s.now)) }
    ensures references { OnOk result (references_in found.new ≡ references_in found.old ++ references_by_statement (statement_of T.seen s.now)) }
{
    match s {
        Statement::Do(e) => walk_expression(found, e.get()),
        Statement::Block(_, all) => walk_statements(found, all.as_slice()),
        Statement::Declare(_, initial) => walk_initial(found, initial),
        Statement::If(e, one, other) => {
            walk_expression(found, e.get())?;
            walk_statement(found, one.get())?;
            match other {
                None => Ok(()),
                Some(other) => walk_statement(found, other.get()),
            }
        }
        Statement::While(e, body) => {
            walk_expression(found, e.get())?;
            walk_statement(found, body.get())
        }
        Statement::DoWhile(body, e) => {
            walk_statement(found, body.get())?;
            walk_expression(found, e.get())
        }
        Statement::For(_, start, test, step, body) => {
            walk_statements(found, start.as_slice())?;
            walk_if_any(found, test)?;
            walk_if_any(found, step)?;
            walk_statement(found, body.get())
        }
        Statement::Switch(e, _, arms) => {
            walk_expression(found, e.get())?;
            walk_arms(found, arms.as_slice())
        }
        Statement::Break | Statement::Continue => Ok(()),
        Statement::Return(e) => walk_if_any(found, e),
    }
}

#[cycle(statement_walk)]
fn walk_statements<'a, T: NodeType>(
    found: &mut Nodes<'a, T>,
    all: &'a [Statement<T>],
) -> Result<(), NoMemory>
    ensures types { OnOk result (types_found T.seen found.new ≡ types_found T.seen found.old ++ types_in_statements (statements_of (map (statement_of T.seen) all.now))) }
    ensures taken { OnOk result (taken_in found.new ≡ taken_in found.old ++ addressed_by_statements (statements_of (map (statement_of T.seen) all.now))) }
    ensures references { OnOk result (references_in found.new ≡ references_in found.old ++ references_by_statements (statements_of (map (statement_of T.seen) all.now))) }
{
    for s in all {
        walk_statement(found, s)?;
    }
    Ok(())
}

#[cycle(statement_walk)]
fn walk_arms<'a, T: NodeType>(found: &mut Nodes<'a, T>, all: &'a [Arm<T>]) -> Result<(), NoMemory>
    ensures types { OnOk result (types_found T.seen found.new ≡ types_found T.seen found.old ++ types_in_arms (arms_of (map (arm_of T.seen) all.now))) }
    ensures taken { OnOk result (taken_in found.new ≡ taken_in found.old ++ addressed_by_arms (arms_of (map (arm_of T.seen) all.now))) }
    ensures references { OnOk result (references_in found.new ≡ references_in found.old ++ references_by_arms (arms_of (map (arm_of T.seen) all.now))) }
{
    for arm in all {
        walk_statements(found, arm.statements.as_slice())?;
    }
    Ok(())
}
