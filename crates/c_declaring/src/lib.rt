//! What expressions, specifiers and declarators add to a file: mentions of types, string literals, structures and enumerators; and what
//! they ask of its names and tags.
//!
//! It stands on `c_scopes` and `c_nodes`, and mirrors the functions of `c_erasure` that look at a file and walk over no tree. It
//! promises that each answers what the definition of its name says, with the file after it, or that no memory was left.
#![tactic(auto)]

mod enumerations;
mod literals;
mod members;
mod mentions;
mod names;
mod parameters;
mod repeated;
mod sizes;
mod steps;
mod structures;
mod tags;

pub use enumerations::{declare_enumerator, enumerated, enumeration};
pub use literals::{literal, literal_bytes};
pub use members::{add_members, member, named_type};
pub use mentions::{mention, mentions_in};
pub use names::{character, name, number, typename};
pub use parameters::{add_parameter, new_block, parameter, within};
pub use repeated::declared_name;
pub use sizes::{size_of_thing, size_of_type};
pub use steps::{array_step, with_step};
pub use structures::{Heading, begin, completed};
pub use tags::tagged;
