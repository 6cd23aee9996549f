//! What the checker makes of operators, calls and the expressions of statements once their parts are found: an annotated node, or the rule that
//! is broken.
//!
//! It stands on `c_nodes`, which makes the nodes, and mirrors the functions of `c_erasure` that ask nothing of the names of a file, one for one.
//! It promises that each answers what the definition of its name says, or that no memory was left.

mod assignments;
mod binary_operators;
mod calls;
mod kinds;
mod members;
mod statement_parts;
mod subscripts;
mod unary_operators;

pub use assignments::{Target, assigned, chosen, comma, copied, target_in, tested, updated};
pub use binary_operators::binary;
pub use calls::{Signature, argument, call, signature_of};
pub use kinds::{BinaryKind, kind_of, step_of, update_of};
pub use members::{arrow, dot};
pub use statement_parts::{SwitchValue, condition, initial_value, returned, switched};
pub use subscripts::{Subscripted, array_of, element, index, promote};
pub use unary_operators::{address, cast, deref, not, step, unary};
