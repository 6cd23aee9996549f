//! Outlines: what becomes of a record, and which fields each of its parts has.

use crate::plans::Decision;
use lay_base::List;

/// What becomes of a record, and the fields of each part in their order, by their numbers.
#[derive(Drop)]
pub struct Outline {
    pub decision: Decision,
    pub parts: List<List<usize>>,
}
