//! How often functions were entered, and the bodies of loops began.

ghost use Rattle.std.specs.Prelude.{◌≡◌};
ghost use Rattle.source_state.specs.CountsView.{counting_of};
ghost use Rattle.source_state.specs.Steps.Counting.{raised, with_begin, with_entry};

/// The counts of each function, and of each loop of each function, by their numbers.
#[derive(Drop)]
pub struct Counters {
    pub entries: Vec<u64>,
    pub begins: Vec<Vec<u64>>,
}

/// One of the counts rises, where there is one; it stops at its last value.
fn raise(counts: &mut Vec<u64>, number: usize)
    ensures { counts.new.items ≡ raised counts.old.items number }
{
    if number < counts.len() {
        counts[number] = counts[number].saturating_add(1);
    }
}

impl Counters {
    /// A function is entered.
    pub fn enter(&mut self, function: usize)
        ensures { counting_of self.new ≡ with_entry (counting_of self.old) function }
    {
        raise(&mut self.entries, function);
    }

    /// The body of a loop of a function begins.
    pub fn begin(&mut self, function: usize, number: u64)
        ensures { counting_of self.new ≡ with_begin (counting_of self.old) function number }
    {
        if function < self.begins.len() {
            raise(&mut self.begins[function], number as usize);
        }
    }
}
