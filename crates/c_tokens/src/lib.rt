//! The tokens of a preprocessed source file (C99 6.4), and what its line markers make of a place (6.10.4), as definitions.
//!
//! It stands on `lay_base` and `c_types`. The types here are what the lexer answers, and `specs/` says what is true of its answers.
#![tactic(auto)]

mod directive;
mod fault;
mod part;
mod presumed;
mod punctuator;
mod radix;
mod token;

pub use directive::{Directive, NameRange};
pub use fault::FaultKind;
pub use part::{PartKind, Shape};
pub use presumed::{Lines, Presumed};
pub use punctuator::Punctuator;
pub use radix::{Radix, Suffix};
pub use token::{Token, TokenKind, Tokens};
