//! The tree of a file's tokens.

ghost use Rattle.std.specs.Prelude.{◌≡◌, ◌≤◌, ◌++◌, ◌∷◌, length, map, [], IfOk, OnOk};
ghost use Rattle.c_ast.specs.Lexemes.{lexemes_of};
ghost use Rattle.c_ast.specs.TreesOfFiles.{first_unsupported};
ghost use Rattle.c_ast.specs.Views.{item_of};
ghost use Rattle.c_ast.specs.WellFormed.{types_after};
ghost use Rattle.c_cursor.specs.Gives.{Gives};
ghost use Rattle.c_grammar.specs.StatementReading.{items_in};
ghost use Rattle.c_tokens.specs.Lexes.{Lexes};
ghost use Rattle.c_parser.specs.Parsing.{IsPlaceIn, ParseGives};

use crate::faults::ParseFault;
use crate::items::item;
use crate::typenames::add_types;
use c_ast::{Item, Tree};
use c_cursor::{Cursor, Failure, Typenames};
use c_expressions::Means;
use c_lexer::texts_have_one_reading;
use c_tokens::{Token, TokenKind, Tokens};
use lay_base::{Keyword, List, NoMemory, Place, add};
use std::alloc::Global;

/// The deepest tree that is read.
const DEPTH: u16 = 400;

/// The first keyword that is not supported, with its place.
fn first_unsupported(tokens: &[Token]) -> Option<(Keyword, u32)>
    ensures { result ≡ first_unsupported tokens.now }
{
    for token in tokens {
        if let TokenKind::Keyword(Keyword::LeftOut(word)) = token.kind {
            return Some((Keyword::LeftOut(word), token.from));
        }
    }
    None
}

/// The items with one more, and the types that it declares.
fn kept(
    alloc: Global,
    types: &mut Typenames,
    all: List<Item>,
    one: Item,
) -> Result<List<Item>, NoMemory>
    ensures items { IfOk result (λ more. map item_of more ≡ map item_of all ++ item_of one ∷ []) }
    ensures types { OnOk result (types.new ≡ types_after types.old (item_of one)) }
{
    add_types(alloc, types, &one)?;
    let mut all = all;
    add(&mut all, one)?;
    Ok(all)
}

/// All items, or why one cannot be read.
#[tactic(auto, using(crate::proofs::ItemRounds::front_nothing))]
fn items_of(alloc: Global, tokens: &mut Cursor) -> Result<List<Item>, Failure>
    ensures { Gives (λ items. map item_of items) result (items_in 399 (length tokens.old) [] tokens.old) }
{
    let mut types = Typenames::new(alloc);
    let mut all = List::new(alloc);
    let mut rounds = tokens.len();
    'items: while !tokens.is_empty() {
        if rounds == 0 {
            return Err(tokens.stop());
        }
        rounds -= 1;
        let by = Means {
            alloc,
            types: &types,
            inside: DEPTH - 1,
        };
        let (one, _) = item(by, tokens)?;
        all = kept(alloc, &mut types, all, one)?;
    }
    Ok(all)
}

/// The place of the token with which so many are left, or of the end of the file.
#[tactic(auto, using(crate::proofs::PlacesOfTokens::token_found))]
fn place_of(tokens: &Tokens, left: usize) -> Place
    requires { length tokens.now.bytes ≤ 4194304 }
    ensures { IsPlaceIn tokens.now result }
{
    let list = tokens.list.as_slice();
    let at = match list.get(list.len().saturating_sub(left)) {
        Some(token) => token.from,
        None => tokens.bytes.len() as u32,
    };
    Place {
        file: tokens.file,
        at,
    }
}

/// The tree of a file's tokens (C99 6.9), or why there is none.
pub fn parse(alloc: Global, tokens: &Tokens) -> Result<Tree, ParseFault>
    requires short { length tokens.now.bytes ≤ 4194304 }
    requires tokens { Lexes tokens.now.bytes tokens.now.list }
    ensures { ParseGives tokens.now result }
{
    let list = tokens.list.as_slice();
    let file = tokens.file;
    if let Some((keyword, at)) = first_unsupported(list) {
        return Err(ParseFault::Unsupported(keyword, Place { file, at }));
    }
    texts_have_one_reading();
    let mut cursor = Cursor::new(tokens.bytes.as_slice(), list);
    match items_of(alloc, &mut cursor) {
        Ok(items) => Ok(Tree { file, items }),
        Err(Failure::NoParse(left)) => Err(ParseFault::NoParse(place_of(tokens, left))),
        Err(Failure::Memory(want)) => Err(ParseFault::Memory(want)),
    }
}
