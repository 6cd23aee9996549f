//! How many records, functions and loops a program has.

ghost use Rattle.std.specs.Prelude.{◌≡◌, ◌<◌, ◌^◌, length};
ghost use Rattle.c_typed.specs.RunCounts.Loops.{loops_at};
ghost use Rattle.c_typed.specs.RunCounts.Order.{defined_in};
ghost use Rattle.c_typed.specs.Programs.{program_data};

use crate::program::Typed;
use crate::run_counts::loops::loops_of;

/// How many records there are.
pub fn record_count(p: &Typed) -> usize
    ensures { result ≡ length p.now.records }
{
    p.records.len()
}

/// How many functions the program defines.
pub fn function_count(p: &Typed) -> usize
    ensures { result ≡ length (defined_in (program_data p.now)) }
{
    let mut count = 0;
    for f in p.functions.as_slice() {
        if f.body.is_some() {
            count += 1;
        }
    }
    count
}

/// How many loops the function of that number has.
pub fn loop_count(p: &Typed, f: usize) -> u32
    requires within { f < length p.now.functions }
    requires small { loops_at (program_data p.now) f < 2 ^ 32 }
    ensures { result ≡ loops_at (program_data p.now) f }
{
    loops_of(&p.functions.as_slice()[f])
}
