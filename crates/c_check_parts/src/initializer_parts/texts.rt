//! Arrays of characters, which hold the bytes of string literals (C99 6.7.8).

ghost use Rattle.std.specs.Prelude.{◌≡◌, IfOk, map};
ghost use Rattle.std.specs.Option.{option_copied};
ghost use Rattle.c_types.specs.Views.{type_of};
ghost use Rattle.c_ast.specs.Views.{argument_of, arguments_of, expression_of};
ghost use Rattle.c_erasure.specs.Erasure.{literal_of};
ghost use Rattle.c_erasure.specs.Initializers.{count_of, is_character, items_of, length_of, texts_of};
ghost use Rattle.c_erasure.specs.Checking.Initializers.{bytes_in, is_text as is_text_of, text_of_array};
ghost use Rattle.c_nodes.specs.Gives.{Gives};
ghost use Rattle.c_check_parts.specs.InitializerParts.Parts.{one_part, texts_alone, texts_among};

use c_annotated::{InitializerPart, PartValue};
use c_ast::{Argument, Expression, Spelling};
use c_declaring::literal_bytes;
use c_nodes::Fault;
use c_types::{Ty, width};
use lay_base::{Bytes, List, NoMemory, Rule};
use std::alloc::Global;

/// The string literals that an expression is.
fn texts_alone(a: &Expression) -> Option<&List<Spelling>>
    ensures { option_copied result ≡ texts_alone (expression_of a.now) }
{
    match a {
        Expression::Texts(texts) => Some(texts),
        _ => None,
    }
}

/// The string literals of the only item in braces.
#[tactic(auto, using(crate::proofs::InitializerParts::Braces::no_texts, crate::proofs::InitializerParts::Braces::one_text))]
fn texts_among(all: &[Argument]) -> Option<&List<Spelling>>
    ensures { option_copied result ≡ texts_among (arguments_of (map argument_of all.now)) }
{
    if all.len() == 1 {
        texts_alone(&all[0].value)
    } else {
        None
    }
}

/// The string literals that an initializer is, in braces or not.
#[tactic(auto, using(crate::proofs::InitializerParts::Braces::texts_in_braces))]
pub fn texts_of(a: &Expression) -> Option<&List<Spelling>>
    ensures { option_copied result ≡ texts_of (expression_of a.now) }
{
    match a {
        Expression::Texts(texts) => Some(texts),
        Expression::Braces(_, all, _, _) => texts_among(all.as_slice()),
        _ => None,
    }
}

/// Whether a type is a character type (C99 6.2.5).
pub fn is_character(t: &Ty) -> bool
    ensures { result ≡ is_character (type_of t.now) }
{
    match t {
        Ty::Int(kind) => width(*kind) == 1,
        _ => false,
    }
}

/// Whether an initializer of an array of elements of that type is the text of the whole array.
pub fn is_text(element: &Ty, texts: Option<&List<Spelling>>) -> bool
    ensures { result ≡ is_text_of (type_of element.now) (option_copied texts.entry) }
{
    is_character(element) && texts.is_some()
}

/// The bytes of string literals in an array of so many characters: the zero at their end is left out where there is no room for it.
fn bytes_in(from: u32, n: u64, bytes: Bytes) -> Result<Bytes, Fault>
    ensures { Gives (λ held. held) result (bytes_in from n bytes) }
{
    let length = bytes.len();
    let room = n as usize;
    if length <= room {
        Ok(bytes)
    } else if length == room + 1 {
        let mut held = bytes.into_vec();
        held.truncate(room);
        Ok(Bytes::of(held))
    } else {
        Err(Fault::IllTyped(Rule::Init, from))
    }
}

/// An array of so many elements, which begins at the byte `at` of the whole, by the bytes of string literals. The initializer begins at `from`.
pub fn text_of_array(
    alloc: Global,
    from: u32,
    at: u32,
    n: u64,
    is_text: bool,
    texts: Option<&List<Spelling>>,
) -> Result<InitializerPart, Fault>
    ensures { Gives one_part result (text_of_array from at n is_text (option_copied texts.entry)) }
{
    match texts {
        Some(all) if is_text => {
            let bytes = bytes_in(from, n, literal_bytes(alloc, all.as_slice())?)?;
            Ok(InitializerPart {
                offset: at,
                value: PartValue::Text(bytes),
            })
        }
        _ => Err(Fault::IllTyped(Rule::Init, from)),
    }
}

#[tactic(auto, using(crate::proofs::InitializerParts::Braces::counted))]
fn count_of(all: &List<Argument>) -> usize
    ensures { result ≡ count_of (arguments_of (map argument_of all.now)) }
{
    all.len()
}

/// How many items stand in braces; none of an expression.
fn items_of(a: &Expression) -> usize
    ensures { result ≡ items_of (expression_of a.now) }
{
    match a {
        Expression::Braces(_, all, _, _) => count_of(all),
        _ => 0,
    }
}

/// How many elements of that type an array has whose length is left to its initializer.
pub fn length_of(alloc: Global, element: &Ty, a: &Expression) -> Result<u64, NoMemory>
    ensures { IfOk result (λ n. n ≡ length_of (type_of element.now) (texts_of (expression_of a.now)) (expression_of a.now)) }
{
    let length = match texts_of(a) {
        Some(all) if is_character(element) => literal_bytes(alloc, all.as_slice())?.len(),
        _ => items_of(a),
    };
    Ok(length as u64)
}
