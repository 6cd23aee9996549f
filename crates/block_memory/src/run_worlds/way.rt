//! How a part of a function is left (C99 6.8.6).

use crate::run_worlds::value::Value;

/// How a statement is left.
#[derive(Clone, Copy)]
pub enum Way {
    Normally,
    ByBreak,
    ByContinue,
    /// With the value that is returned, where there is one.
    ByReturn(Option<Value>),
}
