//! The theorems on the checker as `c_erasure` defines it: of expressions, types and declarators, of the order of what is added, and of statements; that
//! records are known where a byte of a well formed tree asks for them; and of initializers, declarations, items and whole files (`WholeFiles`): what is
//! answered stands for the tree and is well typed, and what stands for a tree in a whole file, and is well typed, is what is answered. Declarators, literals,
//! names and tags of a file come in the order of its text (C99 6.2.1, 6.4.5, 6.7, 6.9), and an annotated file depends on the names of structures without a tag
//! only at the places of such structures (`TextOrder`).
//!
//! It stands on `c_erasure`, whose functions it is about, and on `c_lexer`, `c_ast` and `c_grammar`, and has laws alone.
#![tactic(auto)]

mod text_order;
mod whole_files;

pub use text_order::texts_are_in_order;
pub use whole_files::annotated_files_are_found;
