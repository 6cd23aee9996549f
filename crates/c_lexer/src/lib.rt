//! The lexer: the tokens of a preprocessed source file, and what its line markers make of a place.
//!
//! It stands on `c_tokens`, which says what a token is, on `c_types` and on `lay_base`. It promises that the tokens are those of the text as C99
//! has it, or that a fault is the first one and stands where it says; a text has no second reading.
//!
//! Not proved: how much time and memory a text takes. `presumed_at` reads it from its start at each call; `PresumedLines` reads on from the last place, once
//! over a text for all places of its tokens.
#![tactic(auto)]

mod characters;
mod directives;
mod fault;
mod lexing;
mod numbers;
mod parts;
mod presumed_lines;
mod presuming;
mod quoted;
mod runs;
mod string_bytes;
mod words;

pub use fault::LexFault;
pub use lexing::{lex, texts_have_one_reading, tokens_have_places, tokens_have_texts};
pub use presumed_lines::{PresumedLines, presumed_at};
pub use string_bytes::{add_text_bytes, strings_have_bytes, text_bytes};
