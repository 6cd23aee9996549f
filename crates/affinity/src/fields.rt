//! How often the fields of one record are accessed, alone and two together.

ghost use Rattle.std.specs.Prelude.{◌≡◌};
ghost use Rattle.affinity.specs.FieldWeights.{affinity_in, hotness_in, is_read_in};

use lay_base::List;

/// What the weights of groups say of the fields of one record, in declared order.
#[derive(Drop)]
pub struct FieldWeights {
    /// Whether a field's value is ever loaded.
    pub read: List<bool>,
    /// How often a field is accessed: the sum of the weights of its accesses.
    pub hotness: List<u128>,
    /// How often two fields are accessed together, for each field a list over all of them: the sum of the weights of the groups that access both.
    pub affinity: List<List<u128>>,
}

impl FieldWeights {
    /// Whether the value of the field of that number is ever loaded.
    pub fn is_read(&self, field: usize) -> bool
        ensures { result ≡ is_read_in self.now field }
    {
        match self.read.get(field) {
            Some(read) => *read,
            None => false,
        }
    }

    /// How often the field of that number is accessed.
    pub fn hotness(&self, field: usize) -> u128
        ensures { result ≡ hotness_in self.now field }
    {
        match self.hotness.get(field) {
            Some(sum) => *sum,
            None => 0,
        }
    }

    /// How often the fields of these numbers are accessed together.
    pub fn affinity(&self, one: usize, other: usize) -> u128
        ensures { result ≡ affinity_in self.now one other }
    {
        match self.affinity.get(one) {
            None => 0,
            Some(sums) => match sums.get(other) {
                Some(sum) => *sum,
                None => 0,
            },
        }
    }
}
