//! The tokens of a file that are left to be read.

ghost use Rattle.std.specs.Prelude.{◌≡◌, ◌↔◌, ◌<◌, ◌^◌, [], IfOk, IsTrue, is_some, length};
ghost use Rattle.c_ast.specs.Lexemes.{lexemes_of};
ghost use Rattle.c_cursor.specs.Gives.{Accepts, Gives};
ghost use Rattle.c_cursor.specs.declared.failure.Failure.TheVariants.{NoParse};
ghost use Rattle.c_grammar.specs.Reading.{advance, after, another, any_name, any_word, assign_at, begins_enclosed, begins_specifier};
ghost use Rattle.c_grammar.specs.Reading.{begins_type_name, begins_typename, begins_void, binary_at, comma_before, comma_if_any, deeper, expect};
ghost use Rattle.c_grammar.specs.Reading.{front, fronted, is_keyword, names_type, peek, plain_name, specifier_at, step_at, tag_if_any, unary_at};

use crate::begins;
use crate::failure::Failure;
use crate::names::{is_type, spelling};
use crate::operators::{assigning_of, binary_of, keyword_specifier_of, step_of, unary_of};
use crate::typenames::Typenames;
use c_ast::{AssignOp, At, BinaryOp, SpecifierKeyword, Spelling, StepOp, UnaryOp};
use c_tokens::{Punctuator, Token, TokenKind};
use lay_base::{Keyword, List, NoMemory};
use std::alloc::Global;
use std::marker::Model;

/// The tokens that are left, which contracts see as the list of them with their texts.
#[derive(Drop)]
pub struct Cursor<'a> {
    bytes: &'a [u8],
    tokens: &'a [Token],
}

impl<'a> Model for Cursor<'a> {
    ghost use Rattle.std.specs.Prelude.{List};
    ghost use Rattle.c_ast.specs.Lexemes.{lexemes_of};
    ghost use Rattle.c_ast.specs.Spelling.{Lexeme};

    ghost Value = { List Lexeme };

    ghost view = { λ it. lexemes_of it.bytes.now it.tokens.now };
}

impl<'a> Cursor<'a> {
    /// All tokens of a file.
    pub fn new(bytes: &'a [u8], tokens: &'a [Token]) -> Cursor<'a>
        ensures { result ≡ lexemes_of bytes.now tokens.now }
    {
        Cursor { bytes, tokens }
    }

    /// How many tokens are left.
    pub fn len(&self) -> usize
        ensures count { result ≡ length self.now }
        ensures within { result < 2 ^ 63 }
    {
        self.tokens.len()
    }

    /// Whether none is left.
    pub fn is_empty(&self) -> bool
        ensures { IsTrue result ↔ (self.now ≡ []) }
    {
        self.tokens.is_empty()
    }

    /// That reading stopped here.
    pub fn stop(&self) -> Failure
        ensures { result ≡ NoParse (length self.now) }
    {
        Failure::NoParse(self.tokens.len())
    }

    /// The kind of the token at the front.
    pub fn front(&self) -> Option<TokenKind>
        ensures { result ≡ front self.now }
    {
        match self.tokens {
            [token, ..] => Some(token.kind),
            [] => None,
        }
    }

    /// Passes the token at the front, whose byte it answers; 0 where there is none.
    pub fn advance(&mut self) -> At
        ensures { (result, self.new) ≡ advance self.old }
    {
        match self.tokens {
            [token, rest @ ..] => {
                let at = token.from;
                self.tokens = rest;
                at
            }
            [] => 0,
        }
    }

    /// Whether that punctuator stands at the front.
    pub fn peek(&self, punctuator: Punctuator) -> bool
        ensures { result ≡ peek punctuator self.now }
    {
        begins::peek(self.bytes, self.tokens, punctuator)
    }

    /// Whether that keyword stands at the front.
    pub fn peek_keyword(&self, keyword: Keyword) -> bool
        ensures { result ≡ fronted (is_keyword keyword) self.now }
    {
        match self.tokens {
            [token, ..] => match token.kind {
                TokenKind::Keyword(found) => found == keyword,
                _ => false,
            },
            [] => false,
        }
    }

    /// Passes that punctuator, whose byte it answers.
    pub fn expect(&mut self, punctuator: Punctuator) -> Result<At, Failure>
        ensures { Gives (λ at. (at, self.new)) result (expect punctuator self.old) }
    {
        if self.peek(punctuator) {
            Ok(self.advance())
        } else {
            Err(self.stop())
        }
    }

    /// Passes that keyword, whose byte it answers.
    pub fn expect_keyword(&mut self, keyword: Keyword) -> Result<At, Failure>
        ensures { Gives (λ at. (at, self.new)) result (after (is_keyword keyword) self.old) }
    {
        if self.peek_keyword(keyword) {
            Ok(self.advance())
        } else {
            Err(self.stop())
        }
    }

    /// Passes that punctuator where it stands at the front, and answers its byte.
    pub fn accept(&mut self, punctuator: Punctuator) -> Option<At>
        ensures { Accepts result self.new self.old (expect punctuator self.old) }
    {
        if self.peek(punctuator) {
            Some(self.advance())
        } else {
            None
        }
    }

    /// Passes that keyword where it stands at the front, and answers its byte.
    pub fn accept_keyword(&mut self, keyword: Keyword) -> Option<At>
        ensures { Accepts result self.new self.old (after (is_keyword keyword) self.old) }
    {
        if self.peek_keyword(keyword) {
            Some(self.advance())
        } else {
            None
        }
    }

    /// Passes a comma where one stands at the front, and answers its byte.
    pub fn comma_if_any(&mut self) -> Option<At>
        ensures { (result, self.new) ≡ comma_if_any self.old }
    {
        self.accept(Punctuator::Comma)
    }

    /// The comma before the next of a list, of which there is none before the first.
    pub fn comma_before<T>(&mut self, list: &List<T>) -> Result<Option<At>, Failure>
        ensures { Gives (λ comma. (comma, self.new)) result (comma_before list.now self.old) }
    {
        if list.is_empty() {
            return Ok(None);
        }
        let comma = self.expect(Punctuator::Comma)?;
        Ok(Some(comma))
    }
}

// ---- names and literals

impl<'a> Cursor<'a> {
    /// Passes the token at the front, and answers it as trees keep it.
    pub fn word(&mut self, alloc: Global) -> Result<Spelling, Failure>
        ensures { Gives (λ x. (x, self.new)) result (any_word self.old) }
    {
        match self.tokens {
            [token, rest @ ..] => {
                let word = spelling(alloc, self.bytes, *token)?;
                self.tokens = rest;
                Ok(word)
            }
            [] => Err(self.stop()),
        }
    }

    /// Passes a name, whatever it names.
    pub fn any_name(&mut self, alloc: Global) -> Result<Spelling, Failure>
        ensures { Gives (λ x. (x, self.new)) result (any_name self.old) }
    {
        match self.tokens {
            [token, rest @ ..] if token.kind == TokenKind::Name => {
                let word = spelling(alloc, self.bytes, *token)?;
                self.tokens = rest;
                Ok(word)
            }
            _ => Err(self.stop()),
        }
    }

    /// Passes a name that names no type.
    pub fn plain_name(&mut self, alloc: Global, types: &Typenames) -> Result<Spelling, Failure>
        ensures { Gives (λ x. (x, self.new)) result (plain_name types.now self.old) }
    {
        match self.tokens {
            [token, rest @ ..]
                if token.kind == TokenKind::Name && !is_type(self.bytes, types, *token) => {
                let word = spelling(alloc, self.bytes, *token)?;
                self.tokens = rest;
                Ok(word)
            }
            _ => Err(self.stop()),
        }
    }

    /// Whether a name that names no type stands at the front.
    pub fn begins_plain_name(&self, types: &Typenames) -> bool
        ensures { result ≡ is_some (plain_name types.now self.now) }
    {
        match self.tokens {
            [token, ..] => token.kind == TokenKind::Name && !is_type(self.bytes, types, *token),
            [] => false,
        }
    }

    /// Passes a name where one stands at the front.
    pub fn tag_if_any(&mut self, alloc: Global) -> Result<Option<Spelling>, NoMemory>
        ensures { IfOk result (λ x. (x, self.new) ≡ tag_if_any self.old) }
    {
        match self.tokens {
            [token, rest @ ..] if token.kind == TokenKind::Name => {
                let word = spelling(alloc, self.bytes, *token)?;
                self.tokens = rest;
                Ok(Some(word))
            }
            _ => Ok(None),
        }
    }

    /// Whether the text at the front is that of a type's name.
    pub fn names_type(&self, types: &Typenames) -> bool
        ensures { result ≡ names_type types.now self.now }
    {
        match self.tokens {
            [token, ..] => is_type(self.bytes, types, *token),
            [] => false,
        }
    }
}

// ---- what begins at the front

impl<'a> Cursor<'a> {
    /// Whether the name of a type stands at the front.
    pub fn begins_typename(&self, types: &Typenames) -> bool
        ensures { result ≡ begins_typename types.now self.now }
    {
        begins::begins_typename(self.bytes, types, self.tokens)
    }

    /// Whether a specifier begins here (C99 6.7).
    pub fn begins_specifier(&self, types: &Typenames) -> bool
        ensures { result ≡ begins_specifier types.now self.now }
    {
        begins::begins_specifier(self.bytes, types, self.tokens)
    }

    /// Whether `(` and a type name begin here.
    pub fn begins_type_name(&self, types: &Typenames) -> bool
        ensures { result ≡ begins_type_name types.now self.now }
    {
        begins::begins_type_name(self.bytes, types, self.tokens)
    }

    /// Whether `(` begins a declarator in parentheses here, and not parameters.
    pub fn begins_enclosed(&self, types: &Typenames) -> bool
        ensures { result ≡ begins_enclosed types.now self.now }
    {
        begins::begins_enclosed(self.bytes, types, self.tokens)
    }

    /// Whether `void` stands alone here before `)`.
    pub fn begins_void(&self) -> bool
        ensures { result ≡ begins_void self.now }
    {
        begins::begins_void(self.bytes, self.tokens)
    }

    /// Whether another of a list in braces follows: a comma, and no `}` after it.
    pub fn another(&self) -> bool
        ensures { result ≡ another self.now }
    {
        begins::another(self.bytes, self.tokens)
    }

    /// The operator `++` or `--` at the front.
    pub fn step_at(&self) -> Option<StepOp>
        ensures { result ≡ step_at self.now }
    {
        match self.tokens {
            [token, ..] => step_of(token.kind),
            [] => None,
        }
    }

    /// The unary operator at the front.
    pub fn unary_at(&self) -> Option<UnaryOp>
        ensures { result ≡ unary_at self.now }
    {
        match self.tokens {
            [token, ..] => unary_of(token.kind),
            [] => None,
        }
    }

    /// The binary operator at the front.
    pub fn binary_at(&self) -> Option<BinaryOp>
        ensures { result ≡ binary_at self.now }
    {
        match self.tokens {
            [token, ..] => binary_of(token.kind),
            [] => None,
        }
    }

    /// The assignment operator at the front.
    pub fn assign_at(&self) -> Option<AssignOp>
        ensures { result ≡ assign_at self.now }
    {
        match self.tokens {
            [token, ..] => assigning_of(token.kind),
            [] => None,
        }
    }

    /// The keyword at the front that is a specifier by itself.
    pub fn specifier_at(&self) -> Option<SpecifierKeyword>
        ensures { result ≡ specifier_at self.now }
    {
        match self.tokens {
            [token, ..] => keyword_specifier_of(token.kind),
            [] => None,
        }
    }
}

/// The depth of a node over parts of a depth, which is to be at most one more than `inside`. The
/// tokens are those after the node.
pub fn deeper_than(inside: u16, depth: u32, tokens: &Cursor) -> Result<u32, Failure>
    ensures { Gives (λ x. x) result (deeper inside depth) }
{
    if depth <= inside as u32 {
        Ok(depth + 1)
    } else {
        Err(tokens.stop())
    }
}
