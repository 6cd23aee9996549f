//! Plans: where the fields of the records of a program lie anew.

use affinity::Weights;
use lay_base::List;
use legality::Violation;

/// What becomes of a record.
#[derive(Clone, Copy)]
pub enum Decision {
    /// It lies as it is declared, since it violates a test.
    Refused(Violation),
    /// It keeps one part.
    Reordered,
    /// Its cold fields are in a part of their own, to which the hot part has a link.
    Split,
    /// Each part is in an array of its own.
    Peeled,
}

/// Where a field lies: the number of its part, and its first byte there.
#[derive(Clone, Copy)]
pub struct PartField {
    pub part: u8,
    pub offset: u32,
}

/// Where the fields of a record lie, in declared order, and the size of each part, in bytes. A field that is dead lies nowhere.
#[derive(Drop)]
pub struct RecordPlan {
    pub decision: Decision,
    pub fields: List<Option<PartField>>,
    pub sizes: List<u32>,
}

/// What becomes of each record of a program, in the order of their numbers.
#[derive(Drop)]
pub struct Plan {
    pub records: List<RecordPlan>,
}

/// A plan, and the weights by which it was made.
#[derive(Drop)]
pub struct Planned {
    pub plan: Plan,
    pub weights: Weights,
}
