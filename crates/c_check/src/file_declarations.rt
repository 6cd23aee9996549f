//! Declarations at file scope (C99 6.7, 6.9.2).
//!
//! It stands on `c_externals` and `c_check_parts`. It promises that `declaration` answers what `file_declaration` of `c_erasure` says, or that no memory
//! was left.

mod declarations;
mod declared;

pub use declarations::declaration;
