//! Structures (C99 6.7.2.1).

ghost use Rattle.std.specs.Prelude.{◌+◌, [], length, map};
ghost use Rattle.c_ast.specs.Trees;
ghost use Rattle.c_ast.specs.Views.{member_declaration_of, member_declarator_of, specifier_of};
ghost use Rattle.c_cursor.specs.Gives.{Gives, Reads, Steps};
ghost use Rattle.c_grammar.specs.Reading.{at, chain, member_declaration_in, member_declaration_step, member_declarator_step, struct_body_in};
ghost use Rattle.c_grammar.specs.Reading.{tag_if_any, tagged_in};

use crate::declarator_names::has_name;
use crate::means::{Means, Next, Read, all_by};
use crate::within::{declarator_inside, member_declaration_inside, specifiers_inside};
use c_ast::{At, MemberDeclaration, MemberDeclarator, Specifier, Spelling};
use c_cursor::{Cursor, deeper_than};
use c_tokens::Punctuator;
use lay_base::{List, add};

/// One declarator of a member more.
#[cycle(expression)]
#[tactic(auto, unfolding(c_grammar::specs::Reading::member_declarator_step))]
fn member_declarator(
    by: Means,
    all: List<MemberDeclarator>,
    d: u32,
    tokens: &mut Cursor,
) -> Next<List<MemberDeclarator>>
    ensures { Steps (λ all. map member_declarator_of all) result tokens.new
        (member_declarator_step (at by.entry.types.now by.entry.inside) (map member_declarator_of all) d tokens.old) }
{
    let comma = tokens.comma_before(&all)?;
    let (declarator, e) = declarator_inside(by, tokens)?;
    match declarator {
        Some(declarator) => {
            if !has_name(declarator.get()) {
                return Err(tokens.stop());
            }
            let item = MemberDeclarator {
                comma,
                declarator: declarator.into_inner(),
            };
            let mut all = all;
            add(&mut all, item)?;
            Ok((all, d.max(e), tokens.peek(Punctuator::Comma)))
        }
        None => Err(tokens.stop()),
    }
}

/// The declarators of a member declaration.
#[cycle(expression)]
#[tactic(auto, using(c_grammar::proofs::Rounds::rounds))]
fn member_declarators(by: Means, depth: u32, tokens: &mut Cursor) -> Read<List<MemberDeclarator>>
    ensures { Reads (λ all. map member_declarator_of all) result tokens.new
        (chain (member_declarator_step (at by.entry.types.now by.entry.inside)) (length tokens.old + 1) [] depth tokens.old) }
{
    all_by!(member_declarator(by), tokens; (List::new(by.alloc), depth), tokens.len() as u64 + 1)
}

/// A member declaration.
#[cycle(expression)]
#[tactic(auto, unfolding(c_grammar::specs::Reading::member_declaration_in))]
pub fn member_declaration(by: Means, tokens: &mut Cursor) -> Read<MemberDeclaration>
    ensures { Reads member_declaration_of result tokens.new (member_declaration_in by.entry.inside (at by.entry.types.now by.entry.inside) tokens.old) }
{
    let (specifiers, d) = specifiers_inside(by, tokens)?;
    let (declarators, d) = member_declarators(by, d, tokens)?;
    let semicolon = tokens.expect(Punctuator::Semicolon)?;
    let d = deeper_than(by.inside, d, tokens)?;
    let whole = MemberDeclaration {
        specifiers,
        declarators,
        semicolon,
    };
    Ok((whole, d))
}

/// One member declaration more.
#[cycle(expression)]
#[tactic(auto, unfolding(c_grammar::specs::Reading::member_declaration_step))]
fn next_member_declaration(
    by: Means,
    all: List<MemberDeclaration>,
    d: u32,
    tokens: &mut Cursor,
) -> Next<List<MemberDeclaration>>
    ensures { Steps (λ all. map member_declaration_of all) result tokens.new
        (member_declaration_step (at by.entry.types.now by.entry.inside) (map member_declaration_of all) d tokens.old) }
{
    let (one, e) = member_declaration_inside(by, tokens)?;
    let mut all = all;
    add(&mut all, one)?;
    Ok((all, d.max(e), !tokens.peek(Punctuator::CloseBrace)))
}

/// The member declarations up to `}`.
#[cycle(expression)]
#[tactic(auto, using(c_grammar::proofs::Rounds::rounds))]
fn member_declarations(by: Means, tokens: &mut Cursor) -> Read<List<MemberDeclaration>>
    ensures { Reads (λ all. map member_declaration_of all) result tokens.new
        (chain (member_declaration_step (at by.entry.types.now by.entry.inside)) (length tokens.old + 1) [] 0 tokens.old) }
{
    all_by!(next_member_declaration(by), tokens; (List::new(by.alloc), 0), tokens.len() as u64 + 1)
}

/// The body of a structure.
#[cycle(expression)]
#[tactic(auto, unfolding(c_grammar::specs::Reading::struct_body_in))]
fn struct_body(by: Means, place: At, name: Option<Spelling>, tokens: &mut Cursor) -> Read<Specifier>
    ensures { Reads specifier_of result tokens.new (struct_body_in by.entry.inside (at by.entry.types.now by.entry.inside) place name tokens.old) }
{
    let left = tokens.expect(Punctuator::OpenBrace)?;
    let (all, d) = member_declarations(by, tokens)?;
    let right = tokens.expect(Punctuator::CloseBrace)?;
    let d = deeper_than(by.inside, d, tokens)?;
    Ok((Specifier::StructBody(place, name, left, all, right), d))
}

/// What stands after `struct`.
#[cycle(expression)]
pub fn structure(by: Means, place: At, tokens: &mut Cursor) -> Read<Specifier>
    ensures { Reads specifier_of result tokens.new (tagged_in (Trees.struct_named place) (struct_body_in by.entry.inside (at by.entry.types.now by.entry.inside) place)
        (tag_if_any tokens.old)) }
{
    let tag = tokens.tag_if_any(by.alloc)?;
    match tag {
        None => struct_body(by, place, None, tokens),
        Some(name) => {
            if tokens.peek(Punctuator::OpenBrace) {
                return struct_body(by, place, Some(name), tokens);
            }
            Ok((Specifier::Struct(place, name), 1))
        }
    }
}
