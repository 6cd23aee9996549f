//! The counts of a run in the order of a profile.

ghost use Rattle.std.specs.Prelude.{◌≡◌, ◌<◌, ◌^◌, IfOk, map};
ghost use Rattle.c_typed.specs.RunCounts.Counting.{count_at, counts_by, name_at, numbers_below};
ghost use Rattle.c_typed.specs.RunCounts.Loops.{loops_at};
ghost use Rattle.c_typed.specs.Programs.{program_data};
ghost use Rattle.source_state.specs.CountsView.{counting_of};
ghost use Rattle.source_start.specs.Counted.{begin_in, entry_in};
ghost use Rattle.source_start.specs.Fits.{StartsFit};

use crate::counters::{begin, entry, loops_at};
use c_typed::{Counts, FunCount, Typed, profile_order};
use lay_base::{List, Name, NoMemory, add, copied, push};
use source_state::Counters;
use std::alloc::Global;

/// A copy of the name of the function of that number.
fn name_at(alloc: Global, p: &Typed, f: usize) -> Result<Name, NoMemory>
    ensures { IfOk result (λ name. name ≡ name_at (program_data p.now) f) }
{
    let name = match p.functions.get(f) {
        None => b"",
        Some(f) => f.name.as_slice(),
    };
    Ok(Name::of(copied(alloc, name)?))
}

/// How often the bodies of the first loops of a function began.
#[tactic(auto, using(crate::proofs::Walks::next_number))]
fn begins(alloc: Global, counters: &Counters, f: usize, count: u32) -> Result<List<u64>, NoMemory>
    ensures { IfOk result (λ all. all ≡ map (begin_in (counting_of counters.now) f) (numbers_below count)) }
{
    let mut all = Vec::new(alloc);
    for l in 0..count {
        push(&mut all, begin(counters, f, l))?;
    }
    Ok(List::of(all))
}

/// The counts of the function of that number.
fn count_at(alloc: Global, p: &Typed, counters: &Counters, f: usize) -> Result<FunCount, NoMemory>
    requires { loops_at (program_data p.now) f < 2 ^ 32 }
    ensures { IfOk result (λ count. count ≡
        count_at (entry_in (counting_of counters.now)) (begin_in (counting_of counters.now)) (program_data p.now) f) }
{
    let name = name_at(alloc, p, f)?;
    let loops = begins(alloc, counters, f, loops_at(p, f))?;
    Ok(FunCount {
        name,
        entries: entry(counters, f),
        loops,
    })
}

/// The counts of each function that the program defines, in the order of a profile.
#[tactic(auto, using(crate::proofs::FewLoops::few_loops))]
pub fn counts(alloc: Global, p: &Typed, counters: &Counters) -> Result<Counts, NoMemory>
    requires { StartsFit (program_data p.now) }
    ensures { IfOk result (λ counts. counts ≡
        counts_by (entry_in (counting_of counters.now)) (begin_in (counting_of counters.now)) (program_data p.now)) }
{
    let order = profile_order(alloc, p)?;
    let mut functions = List::new(alloc);
    for f in order.as_slice() {
        let count = count_at(alloc, p, counters, f.number)?;
        add(&mut functions, count)?;
    }
    Ok(Counts { functions })
}
