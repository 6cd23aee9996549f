//! The facts of statements and initializers.

ghost use Rattle.std.specs.Prelude.{flat_map, map};
ghost use Rattle.std.specs.Option.{option_map};
ghost use Rattle.c_typed.specs.Views.{arm_of, arms_of, expression_of, initializer_of, part_of, part_value_of, path_of, statement_of, statements_of};
ghost use Rattle.c_facts.specs.Facts.{effect, facts_by_arms, facts_by_initial, facts_by_statement, facts_by_statements, facts_by_value, read_whole, tested};
ghost use Rattle.c_facts.specs.Puts.{Puts};

use crate::contexts::{Context, permitted_if};
use crate::expressions::{expression, path};
use crate::fact::Fact;
use crate::fields::put_site;
use crate::found::{Found, put};
use crate::variables::{is_making, is_variable};
use c_typed::{Arm, Expression, Initializer, InitializerPart, PartValue, Path, Statement};

fn read_whole(found: &mut Found, p: &Path)
    ensures { Puts found.old found.new (read_whole (path_of p.now)) }
{
    put_site(found, true, p);
    path(found, false, p);
}

fn value(found: &mut Found, it: &PartValue)
    ensures { Puts found.old found.new (facts_by_value (part_value_of it.now)) }
{
    match it {
        PartValue::Value(e) => expression(found, Context::Plain, e.get()),
        PartValue::Record(p) => read_whole(found, p.get()),
        PartValue::Text(_) => {}
    }
}

fn parts(found: &mut Found, all: &[InitializerPart])
    ensures { Puts found.old found.new (flat_map (λ part. facts_by_value part.value) (map part_of all.now)) }
{
    for part in all {
        value(found, &part.value);
    }
}

fn initial(found: &mut Found, it: &Option<Initializer>)
    ensures { Puts found.old found.new (facts_by_initial (option_map initializer_of it.now)) }
{
    match it {
        None => {}
        Some(Initializer::Value(e)) => expression(found, Context::Plain, e.get()),
        Some(Initializer::Record(p)) => read_whole(found, p.get()),
        Some(Initializer::Parts(all)) => parts(found, all.as_slice()),
    }
}

fn effect(found: &mut Found, e: &Expression)
    ensures { Puts found.old found.new (effect (expression_of e.now)) }
{
    expression(found, permitted_if(is_making(e)), e);
}

fn tested(found: &mut Found, e: &Expression)
    ensures { Puts found.old found.new (tested (expression_of e.now)) }
{
    expression(found, permitted_if(is_variable(e)), e);
}

/// Adds the facts of a statement.
#[cycle(statement_fact_walk)]
pub fn statement(found: &mut Found, s: &Statement)
    ensures { Puts found.old found.new (facts_by_statement (statement_of s.now)) }
{
    match s {
        Statement::Do(e) => effect(found, e.get()),
        Statement::Block(_, all) => statements(found, all.as_slice()),
        Statement::Declare(_, it) => initial(found, it),
        Statement::If(e, one, other) => {
            tested(found, e.get());
            statement(found, one.get());
            match other {
                None => {}
                Some(other) => statement(found, other.get()),
            }
        }
        Statement::While(e, body) => {
            put(found, Fact::LoopBegins);
            tested(found, e.get());
            statement(found, body.get());
            put(found, Fact::LoopEnds);
        }
        Statement::DoWhile(body, e) => {
            put(found, Fact::LoopBegins);
            statement(found, body.get());
            tested(found, e.get());
            put(found, Fact::LoopEnds);
        }
        Statement::For(_, start, test, step, body) => {
            statements(found, start.as_slice());
            put(found, Fact::LoopBegins);
            match test {
                None => {}
                Some(e) => tested(found, e.get()),
            }
            match step {
                None => {}
                Some(e) => effect(found, e.get()),
            }
            statement(found, body.get());
            put(found, Fact::LoopEnds);
        }
        Statement::Switch(e, _, arms) => {
            expression(found, Context::Plain, e.get());
            arms_of(found, arms.as_slice());
        }
        Statement::Break | Statement::Continue => {}
        Statement::Return(e) => match e {
            None => {}
            Some(e) => expression(found, Context::Plain, e.get()),
        },
    }
}

#[cycle(statement_fact_walk)]
fn statements(found: &mut Found, all: &[Statement])
    ensures { Puts found.old found.new (facts_by_statements (statements_of (map statement_of all.now))) }
{
    for s in all {
        statement(found, s);
    }
}

#[cycle(statement_fact_walk)]
fn arms_of(found: &mut Found, all: &[Arm])
    ensures { Puts found.old found.new (facts_by_arms (arms_of (map arm_of all.now))) }
{
    for arm in all {
        statements(found, arm.statements.as_slice());
    }
}
