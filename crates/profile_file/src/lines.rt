//! The lines of a profile.

ghost use Rattle.std.specs.Prelude.{◌≡◌, IfOk, MatchOption, None, option_map};
ghost use Rattle.profile_file.specs.Reading.{AreLoops, IsFunction, function_at, loop_at};

use crate::numbers::{after, count_at, name_at};
use c_typed::FunCount;
use lay_base::{List, Name, NoMemory, add, copied};
use std::alloc::Global;

fn loop_at(text: &[u8]) -> Option<(u64, &[u8])>
    ensures { option_map (λ found. (found.0, found.1.now)) result ≡ loop_at text.now }
{
    count_at(after(text, b"loop ")?)
}

fn function_at(text: &[u8]) -> Option<(&[u8], u64, &[u8])>
    ensures { option_map (λ found. (found.0.now, found.1, found.2.now)) result ≡ function_at text.now }
{
    let (name, rest) = name_at(after(text, b"fun ")?)?;
    let (entries, rest) = count_at(rest)?;
    Some((name, entries, rest))
}

/// As many lines of loops as stand in front, and what stands behind them.
fn read_loops(alloc: Global, text: &[u8]) -> Result<(List<u64>, &[u8]), NoMemory>
    ensures { IfOk result (λ found. AreLoops text.now found.0 found.1.now) }
{
    let mut loops = List::new(alloc);
    let mut rest = text;
    while let Some((count, more)) = loop_at(rest) {
        add(&mut loops, count)?;
        rest = more;
    }
    Ok((loops, rest))
}

fn counted<'a>(
    alloc: Global,
    name: &[u8],
    entries: u64,
    rest: &'a [u8],
) -> Result<(FunCount, &'a [u8]), NoMemory>
    ensures { IfOk result (λ found. (found.0.name ≡ name.now) × (found.0.entries ≡ entries) × AreLoops rest.now found.0.loops found.1.now) }
{
    let name = Name::of(copied(alloc, name)?);
    let (loops, rest) = read_loops(alloc, rest)?;
    let count = FunCount {
        name,
        entries,
        loops,
    };
    Ok((count, rest))
}

/// The lines of the function in front, where one stands there, and what stands behind them.
pub fn read_function(alloc: Global, text: &[u8]) -> Result<Option<(FunCount, &[u8])>, NoMemory>
    ensures { IfOk result (λ found. MatchOption found (function_at text.now ≡ None) (λ f. IsFunction text.now f.0 f.1.now)) }
{
    match function_at(text) {
        None => Ok(None),
        Some((name, entries, rest)) => Ok(Some(counted(alloc, name, entries, rest)?)),
    }
}
