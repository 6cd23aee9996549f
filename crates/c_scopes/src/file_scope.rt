//! `FileScope`: a file with all that it declares up to some byte.

use crate::bound_names::BoundNames;
use crate::syntax_tags::Tags;
use c_annotated::{Function, Mention, Object};
use c_types::Records;
use lay_base::List;
use std::alloc::Global;

/// A file with all that it declares up to some byte, and what its syntax tells of the whole file.
#[derive(Drop)]
pub struct FileScope {
    /// Where there is memory for what the file declares.
    pub alloc: Global,
    /// The number of the file.
    pub number: u16,
    pub names: BoundNames,
    pub tags: Tags,
    /// The complete records, in the order in which their definitions end.
    pub records: Records,
    pub objects: List<Object>,
    pub functions: List<Function>,
    pub mentions: List<Mention>,
}
