//! How many loops a function has.

ghost use Rattle.std.specs.Prelude.{◌≡◌, ◌-◌, ◌<◌, ◌^◌, map, min};
ghost use Rattle.c_typed.specs.RunCounts.Loops.{loops_in, loops_in_all, loops_in_arms, loops_of};
ghost use Rattle.c_typed.specs.Programs.{data_of};
ghost use Rattle.c_typed.specs.Views.{arm_of, arms_of, statement_of, statements_of};

use crate::program::Function;
use crate::statement::{Arm, Statement};

/// How many loops a statement has; it stops at the greatest number.
#[cycle(loop_walk)]
fn loops_in_statement(s: &Statement) -> u32
    ensures { result ≡ min (loops_in (statement_of s.now)) (2 ^ 32 - 1) }
{
    match s {
        Statement::Do(_) | Statement::Declare(..) => 0,
        Statement::Block(_, all) => loops_in_statements(all.as_slice()),
        Statement::If(_, one, other) => match other {
            None => loops_in_statement(one.get()),
            Some(other) => {
                loops_in_statement(one.get()).saturating_add(loops_in_statement(other.get()))
            }
        },
        Statement::While(_, body) => loops_in_statement(body.get()).saturating_add(1),
        Statement::DoWhile(body, _) => loops_in_statement(body.get()).saturating_add(1),
        Statement::For(_, _, _, _, body) => loops_in_statement(body.get()).saturating_add(1),
        Statement::Switch(_, _, arms) => loops_in_arms(arms.as_slice()),
        Statement::Break | Statement::Continue | Statement::Return(_) => 0,
    }
}

/// How many loops statements have; it stops at the greatest number.
#[cycle(loop_walk)]
pub fn loops_in_statements(all: &[Statement]) -> u32
    ensures { result ≡ min (loops_in_all (statements_of (map statement_of all.now))) (2 ^ 32 - 1) }
{
    let mut count: u32 = 0;
    for s in all {
        count = count.saturating_add(loops_in_statement(s));
    }
    count
}

#[cycle(loop_walk)]
fn loops_in_arms(arms: &[Arm]) -> u32
    ensures { result ≡ min (loops_in_arms (arms_of (map arm_of arms.now))) (2 ^ 32 - 1) }
{
    let mut count: u32 = 0;
    for arm in arms {
        count = count.saturating_add(loops_in_statements(arm.statements.as_slice()));
    }
    count
}

/// How many loops a function has, none where it is only declared; it stops at the greatest number.
pub fn loops_within(f: &Function) -> u32
    ensures { result ≡ min (loops_of (data_of f.now)) (2 ^ 32 - 1) }
{
    match &f.body {
        None => 0,
        Some(body) => loops_in_statement(body),
    }
}

/// How many loops a function has; none where it is only declared.
pub fn loops_of(f: &Function) -> u32
    requires { loops_of (data_of f.now) < 2 ^ 32 }
    ensures { result ≡ loops_of (data_of f.now) }
{
    loops_within(f)
}
