//! What is declared where an expression stands (C99 6.2.1): the file with all that it declares up to there, and the blocks around; and what the syntax of
//! a file alone tells before its types are checked (`syntax_tags`): its tags, the ends of its structure definitions, the numbers of its structures, and
//! the tags of those that have none (C99 6.7.2.1 to 6.7.2.3).
//!
//! It stands on `c_annotated`, on `c_erasure`, which says what these lists are, and on the kit's `indexmap`. It promises that a look-up finds what the
//! definition of its name says of the lists of all that is declared, in constant time for each block.
//!
//! Not proved: how much time a look-up takes. It asks each block around, and the file by a table where more than eight names are declared.
#![tactic(auto)]

mod block;
mod bound_names;
mod file_scope;
mod places;
mod scope;
mod syntax_tags;

pub use block::Block;
pub use bound_names::BoundNames;
pub use file_scope::FileScope;
pub use scope::{Purpose, Scope, for_value, here, measured, named, place_in};
pub use syntax_tags::{Names, TagMark, TagTable, Tags, Untagged};
