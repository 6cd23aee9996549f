//! Annotated trees: the typed trees of a file as the checker keeps them, with their types at the nodes, and what a file declares.
//!
//! It stands on `c_typed`, whose operators and values it uses, and on `c_erasure`, whose plain trees and records its types stand for. It
//! promises that the functions on annotated trees answer what the definitions say of these.
//!
//! That a tree is well typed, and that it is that of a syntax tree, is said by `c_erasure` and proved by the crates of the checker.
#![tactic(auto)]

mod constants;
mod expression;
mod file;
mod names;
mod statement;
mod thing;

pub use constants::{constant_of, is_null};
pub use expression::{Expression, ExpressionNode, Noted, Path, PathNode, SizeOf, plain};
pub use file::{Function, Local, Mention, Object};
pub use names::{Bound, Entity, How, Tag};
pub use statement::{Arm, Initializer, InitializerPart, PartValue, Statement};
pub use thing::Thing;
