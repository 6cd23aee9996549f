//! The checker of statements (C99 6.8); and what stands in statements beside other statements (`statement_parts`): expressions and labels, and statements
//! as they are made of their parts.
//!
//! It stands on `c_check_expressions` and `c_check_parts`. It promises that `block_items` answers what `items_in` of the checker of `c_erasure` says of the
//! items of a block, or that no memory was left.
#![tactic(auto)]

mod recursion;
mod statement_parts;

pub use recursion::{Around, block_items};
pub use statement_parts::{
    ArmLabels, LastArm, SwitchLabels, add_labelled, block_of, close, condition, condition_if_any,
    declare_in_arm, first_arm, for_of, if_else_of, jump, labels_in, no_labels, nothing_returned,
    start_of, statement, switch_of, value_if_any, value_of_expression, value_returned,
};
