//! Statements and the initializers in them changed where they stand.

ghost use Rattle.std.specs.Prelude.{◌≡◌, ◌++◌, OnOk, flat_map, map};
ghost use Rattle.std.specs.Option.{option_map};
ghost use Rattle.c_typed.specs.Changed.{changed_arms, changed_initializer, changed_part, changed_statement, changed_statements};
ghost use Rattle.c_typed.specs.Gathered.{gathered_from_arms, gathered_from_initial, gathered_from_part, gathered_from_statement, gathered_from_statements};
ghost use Rattle.c_typed.specs.TreeViews.{arm_of, arms_of, initializer_of, part_of, statement_of, statements_of};

use crate::change::Change;
use crate::changed_expressions::{change_expression, change_if_any, change_path};
use c_typed::{Arm, Initializer, InitializerPart, PartValue, Statement};
use lay_base::List;

fn change_part<T, K, C: Change<T, K>>(
    by: &C,
    kept: &mut K,
    part: &mut InitializerPart<T>,
) -> Result<(), C::Error>
    ensures tree { OnOk result (part_of C.seen part.new ≡ changed_part (C.change by.now) (part_of C.seen part.old)) }
    ensures kept { OnOk result (C.held kept.new ≡ C.held kept.old ++ gathered_from_part (C.own by.now) (part_of C.seen part.old)) }
{
    match &mut part.value {
        PartValue::Value(e) => change_expression(by, kept, e.get_mut()),
        PartValue::Record(p) => change_path(by, kept, p.get_mut()),
        PartValue::Text(_) => Ok(()),
    }
}

fn change_initializer_parts<T, K, C: Change<T, K>>(
    by: &C,
    kept: &mut K,
    all: &mut List<InitializerPart<T>>,
) -> Result<(), C::Error>
    ensures tree { OnOk result (map (part_of C.seen) all.new ≡ map (changed_part (C.change by.now)) (map (part_of C.seen) all.old)) }
    ensures kept { OnOk result (C.held kept.new ≡ C.held kept.old ++ flat_map (gathered_from_part (C.own by.now)) (map (part_of C.seen) all.old)) }
{
    for part in all.as_mut_vec().iter_mut() {
        change_part(by, kept, part)?;
    }
    Ok(())
}

/// Changes an initializer, where there is one.
pub fn change_initial<T, K, C: Change<T, K>>(
    by: &C,
    kept: &mut K,
    initial: &mut Option<Initializer<T>>,
) -> Result<(), C::Error>
    ensures tree { OnOk result (option_map (initializer_of C.seen) initial.new ≡ option_map (changed_initializer (C.change by.now)) (option_map (initializer_of C.seen) initial.old)) }
    ensures kept { OnOk result (C.held kept.new ≡ C.held kept.old ++ gathered_from_initial (C.own by.now) (option_map (initializer_of C.seen) initial.old)) }
{
    match initial {
        None => Ok(()),
        Some(Initializer::Value(e)) => change_expression(by, kept, e.get_mut()),
        Some(Initializer::Record(p)) => change_path(by, kept, p.get_mut()),
        Some(Initializer::Parts(all)) => change_initializer_parts(by, kept, all),
    }
}

/// Changes a statement.
#[cycle(statement_change)]
#[tactic(auto, using(crate::proofs::ChangedParts::both_kept))]
pub fn change_statement<T, K, C: Change<T, K>>(
    by: &C,
    kept: &mut K,
    s: &mut Statement<T>,
) -> Result<(), C::Error>
    ensures tree { OnOk result (statement_of C.seen s.new ≡ changed_statement (C.change by.now) (statement_of C.seen s.old)) }
    ensures kept { OnOk result (C.held kept.new ≡ C.held kept.old ++ gathered_from_statement (C.own by.now) (statement_of C.seen s.old)) }
{
    match s {
        Statement::Do(e) => change_expression(by, kept, e.get_mut()),
        Statement::Block(_, all) => change_statements(by, kept, all),
        Statement::Declare(_, initial) => change_initial(by, kept, initial),
        Statement::If(e, one, other) => {
            change_expression(by, kept, e.get_mut())?;
            change_statement(by, kept, one.get_mut())?;
            match other {
                None => Ok(()),
                Some(other) => change_statement(by, kept, other.get_mut()),
            }
        }
        Statement::While(e, body) => {
            change_expression(by, kept, e.get_mut())?;
            change_statement(by, kept, body.get_mut())
        }
        Statement::DoWhile(body, e) => {
            change_statement(by, kept, body.get_mut())?;
            change_expression(by, kept, e.get_mut())
        }
        Statement::For(_, start, test, step, body) => {
            change_statements(by, kept, start)?;
            change_if_any(by, kept, test)?;
            change_if_any(by, kept, step)?;
            change_statement(by, kept, body.get_mut())
        }
        Statement::Switch(e, _, arms) => {
            change_expression(by, kept, e.get_mut())?;
            change_arms(by, kept, arms)
        }
        Statement::Break | Statement::Continue => Ok(()),
        Statement::Return(e) => change_if_any(by, kept, e),
    }
}

#[cycle(statement_change)]
fn change_statements<T, K, C: Change<T, K>>(
    by: &C,
    kept: &mut K,
    all: &mut List<Statement<T>>,
) -> Result<(), C::Error>
    ensures tree { OnOk result (statements_of (map (statement_of C.seen) all.new) ≡ changed_statements (C.change by.now) (statements_of (map (statement_of C.seen) all.old))) }
    ensures kept { OnOk result (C.held kept.new ≡ C.held kept.old ++ gathered_from_statements (C.own by.now) (statements_of (map (statement_of C.seen) all.old))) }
{
    for s in all.as_mut_vec().iter_mut() {
        change_statement(by, kept, s)?;
    }
    Ok(())
}

#[cycle(statement_change)]
fn change_arms<T, K, C: Change<T, K>>(
    by: &C,
    kept: &mut K,
    all: &mut List<Arm<T>>,
) -> Result<(), C::Error>
    ensures tree { OnOk result (arms_of (map (arm_of C.seen) all.new) ≡ changed_arms (C.change by.now) (arms_of (map (arm_of C.seen) all.old))) }
    ensures kept { OnOk result (C.held kept.new ≡ C.held kept.old ++ gathered_from_arms (C.own by.now) (arms_of (map (arm_of C.seen) all.old))) }
{
    for arm in all.as_mut_vec().iter_mut() {
        change_statements(by, kept, &mut arm.statements)?;
    }
    Ok(())
}
