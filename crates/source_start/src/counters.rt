//! Counts that are all 0, and what is read of counts.

ghost use Rattle.std.specs.Prelude.{◌≡◌, ◌<◌, ◌^◌, All, IfOk, replicate};
ghost use Rattle.c_typed.specs.RunCounts.Loops.{loops_at, loops_of};
ghost use Rattle.c_typed.specs.Programs.{data_of, program_data};
ghost use Rattle.source_state.specs.CountsView.{counting_of};
ghost use Rattle.source_start.specs.Counted.{begin_in, entry_in};
ghost use Rattle.source_start.specs.Fits.{StartsFit};
ghost use Rattle.source_start.specs.Zeros.{no_counts, rows_of};

use c_typed::{Typed, loops_of};
use lay_base::{NoMemory, filled, push};
use source_state::Counters;
use std::alloc::Global;

/// How many loops the function of that number has.
pub(crate) fn loops_at(p: &Typed, f: usize) -> u32
    requires { loops_at (program_data p.now) f < 2 ^ 32 }
    ensures { result ≡ loops_at (program_data p.now) f }
{
    match p.functions.get(f) {
        None => 0,
        Some(f) => loops_of(f),
    }
}

/// So many counts.
fn zeros(alloc: Global, count: usize) -> Result<Vec<u64>, NoMemory>
    ensures { IfOk result (λ counts. counts.items ≡ replicate count 0) }
{
    filled(alloc, 0, count)
}

/// The counts of the loops of each function.
fn rows(alloc: Global, p: &Typed) -> Result<Vec<Vec<u64>>, NoMemory>
    requires { All (λ f. loops_of (data_of f) < 2 ^ 32) p.now.functions }
    ensures { IfOk result (λ rows. rows_of rows.items ≡ (no_counts (program_data p.now)).begins) }
{
    let mut rows = Vec::new(alloc);
    for f in p.functions.as_slice() {
        let row = zeros(alloc, loops_of(f) as usize)?;
        push(&mut rows, row)?;
    }
    Ok(rows)
}

/// The counts of each function, and of each loop of each function, before a run.
#[tactic(auto, using(crate::proofs::FewLoops::few_in_each))]
pub fn no_counts(alloc: Global, p: &Typed) -> Result<Counters, NoMemory>
    requires { StartsFit (program_data p.now) }
    ensures { IfOk result (λ counters. counting_of counters ≡ no_counts (program_data p.now)) }
{
    let entries = zeros(alloc, p.functions.len())?;
    let begins = rows(alloc, p)?;
    Ok(Counters { entries, begins })
}

/// How often a function was entered.
pub(crate) fn entry(counters: &Counters, f: usize) -> u64
    ensures { result ≡ entry_in (counting_of counters.now) f }
{
    match counters.entries.get(f) {
        Some(n) => *n,
        None => 0,
    }
}

/// How often the body of a loop began.
pub(crate) fn begin(counters: &Counters, f: usize, l: u32) -> u64
    ensures { result ≡ begin_in (counting_of counters.now) f l }
{
    match counters.begins.get(f) {
        Some(loops) => match loops.get(l as usize) {
            Some(n) => *n,
            None => 0,
        },
        None => 0,
    }
}
