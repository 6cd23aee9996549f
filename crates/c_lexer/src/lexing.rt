//! All tokens of a text.

ghost use Rattle.std.specs.Prelude.{◌≡◌, ◌≤◌, ◌<◌, ◌+◌, ◌++◌, length, true, IfOk, OnOk, option_to_list};
ghost use Rattle.c_lexer.specs.Scanning.{scan, token_in, step_at, ScanGives, fault_at};
ghost use Rattle.c_lexer.specs.Answers.{LexGives};
ghost use Rattle.c_lexer.specs.Readings.{HaveOneReading};
ghost use Rattle.c_tokens.specs.TokenTexts.{TokensHaveTexts};
ghost use Rattle.c_tokens.specs.TokenPlaces.{TokensHavePlaces};

use crate::fault::LexFault;
use crate::parts::{after_white, begins_line_after_part, part_at, punctuator_alone};
use crate::words::token_of;
use c_tokens::{FaultKind, PartKind, Token, TokenKind, Tokens};
use lay_base::{Bytes, List, NoMemory, copied, push};
use std::alloc::Global;

/// The token that a part is, where it is one.
fn token_in(at: u32, kind: PartKind, text: &[u8]) -> Result<Option<Token>, FaultKind>
    requires { at + length text.now ≤ 4194304 }
    ensures { result ≡ token_in at kind text.now }
{
    let PartKind::Word(shape) = kind else {
        return Ok(None);
    };
    let token = Token {
        kind: token_of(shape, text)?,
        from: at,
        to: at + text.len() as u32,
    };
    Ok(Some(token))
}

/// What the part at the front gives: the token that it is, where it is one, how many bytes it has,
/// and whether only white space stands after it on its line.
#[derive(Clone, Copy)]
pub struct Step {
    pub found: Option<Token>,
    pub size: usize,
    pub begins_line: bool,
}

#[tactic(auto, unfolding(crate::specs::Scanning::step_at))]
fn step_over_part(at: u32, begins_line: bool, text: &[u8]) -> Result<Step, FaultKind>
    requires { at + length text.now ≤ 4194304 }
    ensures is { result ≡ step_at at begins_line text.now }
    ensures within { IfOk result (λ step. (0 < step.size) × (step.size ≤ length text.now)) }
{
    let (kind, size) = part_at(begins_line, text)?;
    let (part, _) = text.split_at(size);
    Ok(Step {
        found: token_in(at, kind, part)?,
        size,
        begins_line: begins_line_after_part(begins_line, kind, part),
    })
}

/// What the part at the front gives. Most words are punctuators of one byte.
fn step_at(at: u32, begins_line: bool, text: &[u8]) -> Result<Step, FaultKind>
    requires { at + length text.now ≤ 4194304 }
    ensures is { result ≡ step_at at begins_line text.now }
    ensures within { IfOk result (λ step. (0 < step.size) × (step.size ≤ length text.now)) }
{
    let Some(punctuator) = punctuator_alone(text) else {
        return step_over_part(at, begins_line, text);
    };
    let token = Token {
        kind: TokenKind::Punctuator(punctuator),
        from: at,
        to: at + 1,
    };
    Ok(Step {
        found: Some(token),
        size: 1,
        begins_line: false,
    })
}

fn add(tokens: &mut Vec<Token>, found: Option<Token>) -> Result<(), NoMemory>
    ensures added { OnOk result (tokens.new.items ≡ tokens.old.items ++ option_to_list found) }
{
    if let Some(token) = found {
        push(tokens, token)?;
    }
    Ok(())
}

fn fault_at(kind: FaultKind, at: u32) -> LexFault
    ensures { result ≡ fault_at kind at }
{
    match kind {
        FaultKind::BadByte => LexFault::BadByte(at),
        FaultKind::BadLiteral => LexFault::BadLiteral(at),
        FaultKind::Unclosed => LexFault::Unclosed(at),
        FaultKind::TooWide => LexFault::TooWide(at),
    }
}

#[tactic(auto, using(crate::proofs::Scans::begins))]
fn tokens_of(alloc: Global, bytes: &[u8]) -> Result<Vec<Token>, LexFault>
    requires { length bytes.now ≤ 4194304 }
    ensures { ScanGives (λ tokens. tokens.items) (scan (length bytes.now) 0 true bytes.now) result }
{
    let mut tokens = Vec::new(alloc);
    let mut rest = bytes;
    let mut at = 0;
    let mut begins_line = true;
    while !rest.is_empty() {
        if let Some(begins) = after_white(begins_line, rest) {
            (_, rest) = rest.split_at(1);
            at += 1;
            begins_line = begins;
        } else {
            let step = match step_at(at, begins_line, rest) {
                Ok(step) => step,
                Err(kind) => return Err(fault_at(kind, at)),
            };
            add(&mut tokens, step.found)?;
            (_, rest) = rest.split_at(step.size);
            at += step.size as u32;
            begins_line = step.begins_line;
        }
    }
    Ok(tokens)
}

/// The tokens of a file's text, or its first lexical fault (C99 6.4).
pub fn lex(alloc: Global, bytes: &[u8], file: u16) -> Result<Tokens, LexFault>
    requires { length bytes.now ≤ 4194304 }
    ensures { LexGives bytes.now file result }
{
    let list = tokens_of(alloc, bytes)?;
    let copy = copied(alloc, bytes)?;
    Ok(Tokens {
        file,
        bytes: Bytes::of(copy),
        list: List::of(list),
    })
}

/// A text has one list of tokens, or one first fault, and not both.
pub fn texts_have_one_reading()
    ensures { HaveOneReading }
{}

/// The bytes of a keyword or of a punctuator are its spelling, and those of any other token can be it.
pub fn tokens_have_texts()
    ensures { TokensHaveTexts }
{}

/// Of the places of tokens, of the end of the file and of a fault lines are presumed. Tokens come in
/// order, and are no more than the bytes.
pub fn tokens_have_places()
    ensures { TokensHavePlaces }
{}
