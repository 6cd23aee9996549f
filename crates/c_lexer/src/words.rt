//! Words: names, keywords, numbers and punctuators.

ghost use Rattle.std.specs.Prelude.{◌≡◌, ◌≤◌, ◌<◌, length, map, IfSome};
ghost use Rattle.lay_base.specs.KeywordScan.{keyword_of};
ghost use Rattle.c_lexer.specs.Scanning.{first_punctuator, is_front, name_with, punctuator_word, punctuators, token_of, word_at, word_by};

use crate::characters::letter;
use crate::numbers::{number_begins, number_of, number_run};
use crate::quoted::{character_of, string_of};
use crate::runs::name_run;
use c_tokens::{FaultKind, Punctuator, Shape, TokenKind};
use lay_base::keyword_of;

/// The most bytes that a name may have.
const LONGEST_NAME: usize = 255;

/// All punctuators with their text, none after one that it begins with.
static PUNCTUATORS: [(&[u8], Punctuator); 46] = [
    (b"[", Punctuator::OpenSquare),
    (b"]", Punctuator::CloseSquare),
    (b"(", Punctuator::Open),
    (b")", Punctuator::Close),
    (b"{", Punctuator::OpenBrace),
    (b"}", Punctuator::CloseBrace),
    (b"...", Punctuator::Dots),
    (b".", Punctuator::Dot),
    (b"->", Punctuator::Arrow),
    (b"--", Punctuator::MinusMinus),
    (b"-=", Punctuator::MinusEqual),
    (b"-", Punctuator::Minus),
    (b"++", Punctuator::PlusPlus),
    (b"+=", Punctuator::PlusEqual),
    (b"+", Punctuator::Plus),
    (b"&&", Punctuator::AndAnd),
    (b"&=", Punctuator::AndEqual),
    (b"&", Punctuator::And),
    (b"*=", Punctuator::StarEqual),
    (b"*", Punctuator::Star),
    (b"~", Punctuator::Tilde),
    (b"!=", Punctuator::NotEqual),
    (b"!", Punctuator::Not),
    (b"/=", Punctuator::SlashEqual),
    (b"/", Punctuator::Slash),
    (b"%=", Punctuator::PercentEqual),
    (b"%", Punctuator::Percent),
    (b"<<=", Punctuator::ShiftLeftEqual),
    (b"<<", Punctuator::ShiftLeft),
    (b"<=", Punctuator::LessEqual),
    (b"<", Punctuator::Less),
    (b">>=", Punctuator::ShiftRightEqual),
    (b">>", Punctuator::ShiftRight),
    (b">=", Punctuator::GreaterEqual),
    (b">", Punctuator::Greater),
    (b"==", Punctuator::EqualEqual),
    (b"=", Punctuator::Equal),
    (b"^=", Punctuator::CaretEqual),
    (b"^", Punctuator::Caret),
    (b"||", Punctuator::BarBar),
    (b"|=", Punctuator::BarEqual),
    (b"|", Punctuator::Bar),
    (b"?", Punctuator::Question),
    (b":", Punctuator::Colon),
    (b";", Punctuator::Semicolon),
    (b",", Punctuator::Comma),
];

/// Whether the bytes begin with a text.
#[tactic(auto, using(crate::proofs::PunctuatorRows::front_is))]
fn is_front(text: &[u8], bytes: &[u8]) -> bool
    ensures { result ≡ is_front text.now bytes.now }
{
    bytes.starts_with(text)
}

/// The first punctuator of some with which the bytes begin.
#[tactic(auto, unfolding(crate::specs::Scanning::word_by))]
fn word_by(rows: &[(&[u8], Punctuator)], bytes: &[u8]) -> Option<(Shape, usize)>
    ensures { result ≡ word_by (map (λ row. (row.0.now, row.1)) rows.now) bytes.now }
{
    for row in rows {
        if is_front(row.0, bytes) {
            return Some((Shape::Punctuator(row.1), row.0.len()));
        }
    }
    None
}

/// The punctuator at the front, with its length.
fn punctuator_at(bytes: &[u8]) -> Option<(Shape, usize)>
    ensures is { result ≡ punctuator_word (first_punctuator punctuators bytes.now) }
    ensures within { IfSome result (λ word. (0 < word.1) × (word.1 ≤ length bytes.now)) }
{
    word_by(PUNCTUATORS.as_slice(), bytes)
}

/// The shape and the length of the word at the front, which is neither a character nor a string.
pub fn word_at(bytes: &[u8]) -> Option<(Shape, usize)>
    ensures is { result ≡ word_at bytes.now }
    ensures within { IfSome result (λ word. (0 < word.1) × (word.1 ≤ length bytes.now)) }
{
    let [first, rest @ ..] = bytes else {
        return None;
    };
    if letter(*first) {
        return Some((Shape::Name, name_run(rest) + 1));
    }
    if number_begins(bytes) {
        return Some((Shape::Number, number_run(*first, rest) + 1));
    }
    punctuator_at(bytes)
}

fn token_of_name(word: &[u8]) -> Result<TokenKind, FaultKind>
    ensures { result ≡ name_with (length word.now) (keyword_of word.now) }
{
    match keyword_of(word) {
        Some(keyword) => Ok(TokenKind::Keyword(keyword)),
        None if word.len() <= LONGEST_NAME => Ok(TokenKind::Name),
        None => Err(FaultKind::TooWide),
    }
}

/// The token that a word is.
pub fn token_of(shape: Shape, word: &[u8]) -> Result<TokenKind, FaultKind>
    ensures { result ≡ token_of shape word.now }
{
    match shape {
        Shape::Name => token_of_name(word),
        Shape::Number => number_of(word),
        Shape::Character => character_of(word),
        Shape::Text => string_of(word),
        Shape::Punctuator(punctuator) => Ok(TokenKind::Punctuator(punctuator)),
    }
}
