//! Declarations (C99 6.7).

ghost use Rattle.std.specs.Prelude.{◌≡◌, ◌++◌, ◌∷◌, [], IfOk, map};
ghost use Rattle.c_ast.specs.Views.{declaration_of, declarator_of, init_declarator_of};
ghost use Rattle.c_cursor.specs.Gives.{Gives, Reads, Steps};
ghost use Rattle.c_grammar.specs.Reading.{at};
ghost use Rattle.c_grammar.specs.StatementReading.{declaration_in, declarators_after, declarators_if_any, init_declarator_step, initial_at};
ghost use Rattle.c_grammar.specs.StatementReading.{more_init_declarators};

use crate::declarators::{named, valued};
use crate::loops::all_by;
use c_ast::{Declaration, Declarator, InitDeclarator};
use c_cursor::Cursor;
use c_expressions::{Means, Next, Read, specifiers_inside};
use c_tokens::Punctuator;
use lay_base::{Boxed, List, NoMemory, add};

/// A list with one declarator more.
fn with_declarator(
    all: List<InitDeclarator>,
    one: InitDeclarator,
) -> Result<List<InitDeclarator>, NoMemory>
    ensures { IfOk result (λ more. map init_declarator_of more ≡ map init_declarator_of all ++ init_declarator_of one ∷ []) }
{
    let mut all = all;
    add(&mut all, one)?;
    Ok(all)
}

/// One declarator with its initializer more.
#[tactic(auto, using(crate::proofs::OneDeclarator::step_by_one))]
fn next_declarator(
    by: Means,
    all: List<InitDeclarator>,
    d: u32,
    tokens: &mut Cursor,
) -> Next<List<InitDeclarator>>
    ensures { Steps (λ all. map init_declarator_of all) result tokens.new
        (init_declarator_step ((at by.entry.types.now by.entry.inside).declarator) (initial_at by.entry.types.now by.entry.inside) (map init_declarator_of all) d tokens.old) }
{
    let comma = tokens.comma_before(&all)?;
    let (declarator, e) = named(by, tokens)?;
    let (one, e) = valued(by, comma, declarator, e, tokens)?;
    let all = with_declarator(all, one)?;
    Ok((all, d.max(e), tokens.peek(Punctuator::Comma)))
}

/// The declarators after the first, which is read with its initializer.
#[tactic(auto, using(c_grammar::proofs::Rounds::rounds))]
fn more_declarators(
    by: Means,
    first: InitDeclarator,
    depth: u32,
    tokens: &mut Cursor,
) -> Read<List<InitDeclarator>>
    ensures { Reads (λ all. map init_declarator_of all) result tokens.new
        (more_init_declarators ((at by.entry.types.now by.entry.inside).declarator) (initial_at by.entry.types.now by.entry.inside) (init_declarator_of first) depth tokens.old) }
{
    let mut one = List::new(by.alloc);
    add(&mut one, first)?;
    if !tokens.peek(Punctuator::Comma) {
        return Ok((one, depth));
    }
    all_by!(next_declarator, by, tokens, one, depth)
}

/// All declarators, after the first, which is read.
#[tactic(auto, unfolding(c_grammar::specs::StatementReading::declarators_after))]
pub fn declarators_after(
    by: Means,
    declarator: Boxed<Declarator>,
    d: u32,
    tokens: &mut Cursor,
) -> Read<List<InitDeclarator>>
    ensures { Reads (λ all. map init_declarator_of all) result tokens.new
        (declarators_after ((at by.entry.types.now by.entry.inside).declarator) (initial_at by.entry.types.now by.entry.inside) (declarator_of declarator) d tokens.old) }
{
    let (first, d) = valued(by, None, declarator, d, tokens)?;
    more_declarators(by, first, d, tokens)
}

/// The declarators of a declaration; where it need not have one, there may be none.
#[tactic(auto, unfolding(c_grammar::specs::StatementReading::declarators_in))]
fn declarators(by: Means, full: bool, tokens: &mut Cursor) -> Read<List<InitDeclarator>>
    ensures { Reads (λ all. map init_declarator_of all) result tokens.new
        (declarators_if_any full ((at by.entry.types.now by.entry.inside).declarator) (initial_at by.entry.types.now by.entry.inside) tokens.old) }
{
    if !full && tokens.peek(Punctuator::Semicolon) {
        return Ok((List::new(by.alloc), 0));
    }
    let (declarator, d) = named(by, tokens)?;
    declarators_after(by, declarator, d, tokens)
}

/// A declaration of parts of a depth of at most `inside`. Where it is to be full, it has a
/// declarator.
#[tactic(auto, unfolding(c_grammar::specs::StatementReading::declaration_in))]
pub fn declaration(by: Means, full: bool, tokens: &mut Cursor) -> Read<Declaration>
    ensures { Reads declaration_of result tokens.new (declaration_in full by.entry.types.now by.entry.inside tokens.old) }
{
    let (specifiers, d) = specifiers_inside(by, tokens)?;
    let (declarators, e) = declarators(by, full, tokens)?;
    let semicolon = tokens.expect(Punctuator::Semicolon)?;
    let whole = Declaration {
        specifiers,
        declarators,
        semicolon,
    };
    Ok((whole, d.max(e)))
}
