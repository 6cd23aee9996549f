//! Definitions of functions, and all items of a file (C99 6.9).
//!
//! It stands on `file_declarations` and `c_check_statements`. It promises that `annotated` answers what the definition of its name in `c_erasure` says of
//! the items of a file, or that no memory was left.

mod definitions;
mod items;

pub use items::annotated;
