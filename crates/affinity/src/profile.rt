//! The weights of groups by a profile.

ghost use Rattle.std.specs.Prelude.{◌≡◌, ◌++◌, ◌∷◌, [], IfOk, OnOk};
ghost use Rattle.c_facts.specs.Groups.{counts_in};

use c_typed::{Counts, FunCount};
use lay_base::{List, NoMemory, add, append};
use std::alloc::Global;

fn add_function(all: &mut List<u64>, f: &FunCount) -> Result<(), NoMemory>
    ensures { OnOk result (all.new ≡ all.old ++ f.now.entries ∷ f.now.loops) }
{
    add(all, f.entries)?;
    append(all.as_mut_vec(), f.loops.as_slice())
}

/// The counts one behind the other: of each function its entries, then those of its loops.
pub fn counts_in(alloc: Global, counts: &Counts) -> Result<List<u64>, NoMemory>
    ensures { IfOk result (λ all. all ≡ counts_in counts.now) }
{
    let mut all = List::new(alloc);
    for f in counts.functions.as_slice() {
        add_function(&mut all, f)?;
    }
    Ok(all)
}
