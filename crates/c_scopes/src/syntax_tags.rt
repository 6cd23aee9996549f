//! What the syntax of a file alone tells, before its types are checked: its tags, the ends of its structure definitions, the numbers
//! of its structures, and the tags of structures that have none (C99 6.2.1, 6.7.2.1 to 6.7.2.3).
//!
//! It stands on `c_erasure`, which says what these lists are. It promises that a look-up finds what the definition of its name says of them.

mod names;
mod search;
mod table;
mod tags;
mod untagged;

pub use names::Names;
pub use table::{TagMark, TagTable};
pub use tags::Tags;
pub use untagged::Untagged;
