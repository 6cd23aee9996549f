//! Declarators (C99 6.7.5, 6.7.6).

ghost use Rattle.std.specs.Prelude.{◌≡◌, ◌+◌, [], false, length, map};
ghost use Rattle.std.specs.Option.{option_map};
ghost use Rattle.c_ast.specs.Views.{declarator_if_any, declarator_of, expression_of, optional_of, parameter_list_of, parameter_of};
ghost use Rattle.c_cursor.specs.Gives.{Gives, Reads, Steps};
ghost use Rattle.c_grammar.specs.Reading.{array_in, at, chain, const_step, core_in, declarator_in, direct_in, enclosed_in, function_in, is_nothing};
ghost use Rattle.c_grammar.specs.Reading.{length_in, parameter_step, parameters_in, pointer_in, suffix_step};

use crate::level::Level;
use crate::means::{Means, Next, Read, all_by};
use crate::within::{declarator_inside, expression_inside, specifiers_inside};
use c_ast::{At, Declarator, Expression, Parameter, Parameters};
use c_cursor::{Cursor, deeper_than};
use c_tokens::Punctuator;
use lay_base::{Boxed, Keyword, List, add, boxed};
use std::alloc::Global;

/// One `const` more, if one stands at the front.
#[tactic(auto, unfolding(c_grammar::specs::Reading::const_step))]
fn const_qualifier(all: List<At>, d: u32, tokens: &mut Cursor) -> Next<List<At>>
    ensures { Steps (λ all. all) result tokens.new (const_step all d tokens.old) }
{
    if !tokens.peek_keyword(Keyword::Const) {
        return Ok((all, d, false));
    }
    let mut all = all;
    add(&mut all, tokens.advance())?;
    Ok((all, d, true))
}

/// Each `const` after a `*`.
#[tactic(auto, using(c_grammar::proofs::Rounds::rounds))]
fn const_qualifiers(alloc: Global, tokens: &mut Cursor) -> Read<List<At>>
    ensures { Reads (λ all. all) result tokens.new (chain const_step (length tokens.old + 1) [] 0 tokens.old) }
{
    all_by!(const_qualifier(), tokens; (List::new(alloc), 0), tokens.len() as u64 + 1)
}

/// What stands after `*`.
#[cycle(expression)]
#[tactic(auto, unfolding(c_grammar::specs::Reading::pointer_in))]
fn pointer(by: Means, star: At, tokens: &mut Cursor) -> Read<Boxed<Declarator>>
    ensures { Reads declarator_of result tokens.new (pointer_in by.entry.inside (at by.entry.types.now by.entry.inside) star tokens.old) }
{
    let (consts, _) = const_qualifiers(by.alloc, tokens)?;
    let (declarator, d) = declarator_inside(by, tokens)?;
    let d = deeper_than(by.inside, d, tokens)?;
    Ok((
        boxed(by.alloc, Declarator::Pointer(star, consts, declarator))?,
        d,
    ))
}

/// What is known of each declarator: it stands for something.
fn stands_for_something(declarator: &Declarator)
    ensures { is_nothing (declarator_of declarator.now) ≡ false }
{
    match declarator {
        Declarator::Identifier(_) => {}
        Declarator::Pointer(_, _, _) => {}
        Declarator::Enclosed(_, _, _) => {}
        Declarator::Array(_, _, _, _) => {}
        Declarator::Function(_, _, _, _) => {}
    }
}

/// A declarator in parentheses.
#[cycle(expression)]
#[tactic(auto, unfolding(c_grammar::specs::Reading::enclosed_in))]
fn enclosed(by: Means, tokens: &mut Cursor) -> Read<Boxed<Declarator>>
    ensures { Reads declarator_of result tokens.new (enclosed_in by.entry.inside (at by.entry.types.now by.entry.inside) tokens.old) }
{
    let left = tokens.expect(Punctuator::Open)?;
    let (declarator, d) = declarator_inside(by, tokens)?;
    let right = tokens.expect(Punctuator::Close)?;
    let d = deeper_than(by.inside, d, tokens)?;
    match declarator {
        Some(declarator) => {
            stands_for_something(declarator.get());
            Ok((
                boxed(by.alloc, Declarator::Enclosed(left, declarator, right))?,
                d,
            ))
        }
        None => Err(tokens.stop()),
    }
}

/// What stands before the brackets and parentheses.
#[cycle(expression)]
#[tactic(auto, unfolding(c_grammar::specs::Reading::core_in))]
fn core(by: Means, tokens: &mut Cursor) -> Read<Option<Boxed<Declarator>>>
    ensures { Reads (λ d. declarator_if_any (option_map declarator_of d)) result tokens.new (core_in by.entry.types.now by.entry.inside (at by.entry.types.now by.entry.inside) tokens.old) }
{
    if tokens.begins_plain_name(by.types) {
        let name = tokens.plain_name(by.alloc, by.types)?;
        Ok((Some(boxed(by.alloc, Declarator::Identifier(name))?), 1))
    } else if tokens.begins_enclosed(by.types) {
        let (declarator, d) = enclosed(by, tokens)?;
        Ok((Some(declarator), d))
    } else {
        Ok((None, 0))
    }
}

/// The length of an array, if it has one.
#[cycle(expression)]
fn length_of(by: Means, tokens: &mut Cursor) -> Read<Option<Boxed<Expression>>>
    ensures { Reads (λ a. optional_of (option_map expression_of a)) result tokens.new (length_in (at by.entry.types.now by.entry.inside) tokens.old) }
{
    if tokens.peek(Punctuator::CloseSquare) {
        return Ok((None, 0));
    }
    let (a, d) = expression_inside(by, Level::Conditional, tokens)?;
    Ok((Some(a), d))
}

/// What stands after the `[` of an array.
#[cycle(expression)]
#[tactic(auto, unfolding(c_grammar::specs::Reading::array_in))]
fn array(
    by: Means,
    x: Option<Boxed<Declarator>>,
    d: u32,
    left: At,
    tokens: &mut Cursor,
) -> Read<Boxed<Declarator>>
    ensures { Reads declarator_of result tokens.new (array_in by.entry.inside (at by.entry.types.now by.entry.inside) (declarator_if_any (option_map declarator_of x)) d left tokens.old) }
{
    let (size, e) = length_of(by, tokens)?;
    let right = tokens.expect(Punctuator::CloseSquare)?;
    let d = deeper_than(by.inside, d.max(e), tokens)?;
    Ok((boxed(by.alloc, Declarator::Array(x, left, size, right))?, d))
}

/// One parameter more, if `)` does not stand at the front.
#[cycle(expression)]
#[tactic(auto, unfolding(c_grammar::specs::Reading::parameter_step))]
fn parameter(by: Means, all: List<Parameter>, d: u32, tokens: &mut Cursor) -> Next<List<Parameter>>
    ensures { Steps (λ all. map parameter_of all) result tokens.new (parameter_step (at by.entry.types.now by.entry.inside) (map parameter_of all) d tokens.old) }
{
    if tokens.peek(Punctuator::Close) {
        return Ok((all, d, false));
    }
    let comma = tokens.comma_before(&all)?;
    let (specifiers, e) = specifiers_inside(by, tokens)?;
    let (declarator, f) = declarator_inside(by, tokens)?;
    let item = Parameter {
        comma,
        specifiers,
        declarator,
    };
    let mut all = all;
    add(&mut all, item)?;
    Ok((all, d.max(e.max(f)), true))
}

/// The parameters up to `)`.
#[cycle(expression)]
#[tactic(auto, using(c_grammar::proofs::Rounds::rounds))]
fn parameter_list(by: Means, tokens: &mut Cursor) -> Read<List<Parameter>>
    ensures { Reads (λ all. map parameter_of all) result tokens.new (chain (parameter_step (at by.entry.types.now by.entry.inside)) (length tokens.old + 1) [] 0 tokens.old) }
{
    all_by!(parameter(by), tokens; (List::new(by.alloc), 0), tokens.len() as u64 + 1)
}

/// What stands in the parentheses of a function.
#[cycle(expression)]
#[tactic(auto, unfolding(c_grammar::specs::Reading::parameters_in))]
fn parameters(by: Means, tokens: &mut Cursor) -> Read<Parameters>
    ensures { Reads parameter_list_of result tokens.new (parameters_in (at by.entry.types.now by.entry.inside) tokens.old) }
{
    if tokens.begins_void() {
        let void = tokens.expect_keyword(Keyword::Void)?;
        return Ok((Parameters::Void(void), 0));
    }
    let (all, d) = parameter_list(by, tokens)?;
    Ok((Parameters::Listed(all), d))
}

/// What stands after the `(` of a function.
#[cycle(expression)]
#[tactic(auto, unfolding(c_grammar::specs::Reading::function_in))]
fn function(
    by: Means,
    x: Option<Boxed<Declarator>>,
    d: u32,
    left: At,
    tokens: &mut Cursor,
) -> Read<Boxed<Declarator>>
    ensures { Reads declarator_of result tokens.new (function_in by.entry.inside (at by.entry.types.now by.entry.inside)
        (declarator_if_any (option_map declarator_of x)) d left tokens.old) }
{
    let (all, e) = parameters(by, tokens)?;
    let right = tokens.expect(Punctuator::Close)?;
    let d = deeper_than(by.inside, d.max(e), tokens)?;
    Ok((
        boxed(by.alloc, Declarator::Function(x, left, all, right))?,
        d,
    ))
}

/// One pair of brackets or parentheses more, if one stands at the front.
#[cycle(expression)]
#[tactic(auto, unfolding(c_grammar::specs::Reading::suffix_step))]
fn brackets(
    by: Means,
    x: Option<Boxed<Declarator>>,
    d: u32,
    tokens: &mut Cursor,
) -> Next<Option<Boxed<Declarator>>>
    ensures { Steps (λ d. declarator_if_any (option_map declarator_of d)) result tokens.new
        (suffix_step by.entry.inside (at by.entry.types.now by.entry.inside) (declarator_if_any (option_map declarator_of x)) d tokens.old) }
{
    if tokens.peek(Punctuator::OpenSquare) {
        let (whole, d) = array(by, x, d, tokens.advance(), tokens)?;
        Ok((Some(whole), d, true))
    } else if tokens.peek(Punctuator::Open) {
        let (whole, d) = function(by, x, d, tokens.advance(), tokens)?;
        Ok((Some(whole), d, true))
    } else {
        Ok((x, d, false))
    }
}

/// A declarator that is no pointer.
#[cycle(expression)]
#[tactic(auto, using(c_grammar::proofs::Rounds::rounds), unfolding(c_grammar::specs::Reading::direct_in))]
fn direct(by: Means, tokens: &mut Cursor) -> Read<Option<Boxed<Declarator>>>
    ensures { Reads (λ d. declarator_if_any (option_map declarator_of d)) result tokens.new (direct_in by.entry.types.now by.entry.inside (at by.entry.types.now by.entry.inside) tokens.old) }
{
    all_by!(brackets(by), tokens; core(by, tokens)?, by.inside as u64 + 2)
}

/// A declarator, with or without a name, or nothing.
#[cycle(expression)]
#[tactic(auto, unfolding(c_grammar::specs::Reading::declarator_in))]
pub fn declarator(by: Means, tokens: &mut Cursor) -> Read<Option<Boxed<Declarator>>>
    ensures { Reads (λ d. declarator_if_any (option_map declarator_of d)) result tokens.new (declarator_in by.entry.types.now by.entry.inside (at by.entry.types.now by.entry.inside) tokens.old) }
{
    match tokens.accept(Punctuator::Star) {
        Some(star) => {
            let (whole, d) = pointer(by, star, tokens)?;
            Ok((Some(whole), d))
        }
        None => direct(by, tokens),
    }
}
