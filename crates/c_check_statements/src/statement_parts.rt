//! What stands in statements beside other statements: expressions and labels (C99 6.8), and statements as they are made of their parts.
//!
//! It stands on `c_check_expressions` and `c_check_parts`. It promises that each part is what the definition of its name in `c_erasure` says, or that
//! no memory was left.

mod arms;
mod labels;
mod making;
mod parts;

pub use arms::{LastArm, add_labelled, close, declare_in_arm, first_arm};
pub use labels::{ArmLabels, SwitchLabels, labels_in, no_labels};
pub use making::{block_of, for_of, if_else_of, statement, switch_of};
pub use parts::{
    condition, condition_if_any, jump, nothing_returned, start_of, value_if_any,
    value_of_expression, value_returned,
};
