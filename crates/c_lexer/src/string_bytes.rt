//! The bytes of string literals.

ghost use Rattle.std.specs.Prelude.{◌≡◌, ◌++◌, IfOk, OnOk};
ghost use Rattle.c_tokens.specs.Strings.{IsStringLiteral, AreBytesOf};
ghost use Rattle.c_tokens.specs.QuotedScan.{string_bytes};
ghost use Rattle.c_lexer.specs.StringBytes.{StringsHaveBytes};

use crate::quoted::{body_of, item_at};
use lay_base::{NoMemory, push};
use std::alloc::Global;

/// Adds the bytes of the string literal with this text, without an ending zero (C99 6.4.5), and of any other text nothing. Called for adjacent literals
/// in order, it joins them.
#[tactic(auto, using(crate::proofs::StringBytes::reads_begin, crate::proofs::StringBytes::reads_great))]
pub fn add_text_bytes(bytes: &mut Vec<u8>, text: &[u8]) -> Result<(), NoMemory>
    ensures { OnOk result (bytes.new.items ≡ bytes.old.items ++ string_bytes text.now) }
{
    let before = bytes.len();
    let mut rest = body_of(text);
    while !rest.is_empty() {
        // No character of a literal is none or too great; what was added of another text goes again.
        let Some((value, count)) = item_at(rest) else {
            bytes.truncate(before);
            return Ok(());
        };
        if value > 255 {
            bytes.truncate(before);
            return Ok(());
        }
        push(bytes, value as u8)?;
        (_, rest) = rest.split_at(count);
    }
    Ok(())
}

/// The bytes of the string literal with this text, without an ending zero (C99 6.4.5).
pub fn text_bytes(alloc: Global, text: &[u8]) -> Result<Vec<u8>, NoMemory>
    requires { IsStringLiteral text.now }
    ensures read { IfOk result (λ bytes. bytes.items ≡ string_bytes text.now) }
    ensures is { IfOk result (λ bytes. AreBytesOf text.now bytes.items) }
{
    let mut bytes = Vec::new(alloc);
    add_text_bytes(&mut bytes, text)?;
    Ok(bytes)
}

/// A string literal has one list of bytes, which `string_bytes` computes.
pub fn strings_have_bytes()
    ensures { StringsHaveBytes }
{}
