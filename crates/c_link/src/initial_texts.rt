//! The bytes of the strings that initialize arrays of locals (C99 6.7.8).

ghost use Rattle.std.specs.Prelude.{◌≡◌, ◌+◌, ◌<◌, ◌^◌, IfOk, OnOk, map};
ghost use Rattle.std.specs.Option.{option_map};
ghost use Rattle.c_link.specs.Texts.{rounded, texts_in, texts_in_all, texts_in_arms, texts_in_functions, texts_in_initial, text_bytes};
ghost use Rattle.c_typed.specs.Programs.{data_of};
ghost use Rattle.c_typed.specs.Views.{arm_of, arms_of, initializer_of, part_value_of, statement_of, statements_of};

use c_typed::{Arm, Function, Initializer, PartValue, Statement};
use lay_base::{List, NoMemory, add};
use std::alloc::Global;

/// Adds the length of a string. A list of them has a sum that fits, which the strings of a tree alone need not have.
#[tactic(auto, using(crate::proofs::TextLengths::one_more))]
fn add_text(lengths: &mut List<usize>, value: &PartValue) -> Result<(), NoMemory>
    ensures { OnOk result (rounded lengths.new ≡ rounded lengths.old + text_bytes (part_value_of value.now)) }
{
    match value {
        PartValue::Value(_) | PartValue::Record(_) => Ok(()),
        PartValue::Text(text) => add(lengths, text.len()),
    }
}

fn in_initial(lengths: &mut List<usize>, initial: &Option<Initializer>) -> Result<(), NoMemory>
    ensures { OnOk result (rounded lengths.new ≡ rounded lengths.old + texts_in_initial (option_map initializer_of initial.now)) }
{
    if let Some(Initializer::Parts(all)) = initial {
        for part in all.as_slice() {
            add_text(lengths, &part.value)?;
        }
    }
    Ok(())
}

#[cycle(text_walk)]
fn in_statement(lengths: &mut List<usize>, s: &Statement) -> Result<(), NoMemory>
    ensures { OnOk result (rounded lengths.new ≡ rounded lengths.old + texts_in (statement_of s.now)) }
{
    match s {
        Statement::Block(_, all) => in_statements(lengths, all.as_slice()),
        Statement::Declare(_, initial) => in_initial(lengths, initial),
        Statement::If(_, one, other) => {
            in_statement(lengths, one.get())?;
            match other {
                None => Ok(()),
                Some(other) => in_statement(lengths, other.get()),
            }
        }
        Statement::While(_, body) | Statement::DoWhile(body, _) => in_statement(
            lengths,
            body.get(),
        ),
        Statement::For(_, start, _, _, body) => {
            in_statements(lengths, start.as_slice())?;
            in_statement(lengths, body.get())
        }
        Statement::Switch(_, _, arms) => in_arms(lengths, arms.as_slice()),
        Statement::Do(_) | Statement::Break | Statement::Continue | Statement::Return(_) => Ok(()),
    }
}

#[cycle(text_walk)]
fn in_statements(lengths: &mut List<usize>, all: &[Statement]) -> Result<(), NoMemory>
    ensures { OnOk result (rounded lengths.new ≡ rounded lengths.old + texts_in_all (statements_of (map statement_of all.now))) }
{
    for s in all {
        in_statement(lengths, s)?;
    }
    Ok(())
}

#[cycle(text_walk)]
fn in_arms(lengths: &mut List<usize>, arms: &[Arm]) -> Result<(), NoMemory>
    ensures { OnOk result (rounded lengths.new ≡ rounded lengths.old + texts_in_arms (arms_of (map arm_of arms.now))) }
{
    for arm in arms {
        in_statements(lengths, arm.statements.as_slice())?;
    }
    Ok(())
}

/// The sum of some lengths, each rounded up.
fn sum_of(lengths: &[usize]) -> u128
    ensures value { result ≡ rounded lengths.now }
    ensures fits { result < 2 ^ 127 + 2 ^ 66 }
{
    let mut bytes: u128 = 0;
    for length in lengths {
        bytes += (*length as u128).next_multiple_of(4);
    }
    bytes
}

/// The bytes of those of functions.
pub fn texts_in_functions(alloc: Global, functions: &[Function]) -> Result<u128, NoMemory>
    ensures value { IfOk result (λ n. n ≡ texts_in_functions (map data_of functions.now)) }
    ensures fits { IfOk result (λ n. n < 2 ^ 127 + 2 ^ 66) }
{
    let mut lengths = List::new(alloc);
    for f in functions {
        if let Some(body) = &f.body {
            in_statement(&mut lengths, body)?;
        }
    }
    Ok(sum_of(lengths.as_slice()))
}
