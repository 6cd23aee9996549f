//! Walks over trees. One collects what stands at their nodes, in the order of the text: types, locals whose address is taken, and the objects
//! and functions to which the trees refer. One changes the nodes where they stand, from the leaves up.
//!
//! It stands on `c_typed`, whose trees it walks whatever stands for a type at their nodes, and on `c_annotated` for the types of the checker.
//! It promises that the first collects the lists of the definitions, `types_in`, `addressed` and `references`, and that the second makes of a
//! tree what the definition `changed` makes of it, and keeps what `gathered` gathers. Where memory is wanted, or a change answers an error,
//! nothing is said of what has been collected, changed or kept until then.
#![tactic(auto)]

mod change;
mod changed_expressions;
mod changed_statements;
mod expressions;
mod nodes;
mod statements;

pub use change::Change;
pub use changed_statements::{change_initial, change_statement};
pub use nodes::{NodeType, Nodes, Reference};
pub use statements::walk_statement;
