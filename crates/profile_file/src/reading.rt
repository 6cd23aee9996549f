//! Reading a profile.

ghost use Rattle.std.specs.Prelude.{◌≡◌, ◌+◌, ◌^◌, ◌<◌, ◌≤◌, IfOk, length};
ghost use Rattle.profile_file.specs.Lines.{ReadGives};
ghost use Rattle.profile_file.specs.Reading.{AreAllFunctions, EndGives};

use crate::fault::ProfileFault;
use crate::lines::read_function;
use crate::numbers::after;
use c_typed::{Counts, FunCount};
use lay_base::{List, NoMemory, add};
use std::alloc::Global;

/// How many lines a function has.
fn line_count(f: &FunCount) -> u32
    requires { length f.now.loops + 1 < 2 ^ 32 }
    ensures { result ≡ 1 + length f.now.loops }
{
    1 + f.loops.len() as u32
}

/// The functions in front of what stands behind the first line, the number of the line behind them, and what stands from there on.
fn read_functions(alloc: Global, text: &[u8]) -> Result<(List<FunCount>, u32, &[u8]), NoMemory>
    requires { length text.now ≤ 67108864 }
    ensures { IfOk result (λ found. AreAllFunctions text.now found.0 found.1 found.2.now) }
{
    let mut line: u32 = 2;
    let mut functions = List::new(alloc);
    let mut rest = text;
    while let Some((f, more)) = read_function(alloc, rest)? {
        line += line_count(&f);
        add(&mut functions, f)?;
        rest = more;
    }
    Ok((functions, line, rest))
}

/// The counts of these functions, where the last line alone stands behind them.
fn counts_before(functions: List<FunCount>, line: u32, rest: &[u8]) -> Result<Counts, ProfileFault>
    requires { line + 1 < 2 ^ 32 }
    ensures { EndGives result functions line rest.now }
{
    match after(rest, b"end\n") {
        None => Err(ProfileFault::BadProfile(line)),
        Some([]) => Ok(Counts { functions }),
        Some([_, ..]) => Err(ProfileFault::BadProfile(line + 1)),
    }
}

/// The counts that have these bytes as their text. `BadProfile` names the first line that breaks the form, and comes exactly where no
/// counts have this text.
pub fn read(alloc: Global, bytes: &[u8]) -> Result<Counts, ProfileFault>
    requires { length bytes.now ≤ 67108864 }
    ensures { ReadGives result bytes.now }
{
    let Some(text) = after(bytes, b"layc-profile 1\n") else {
        return Err(ProfileFault::BadProfile(1));
    };
    match read_functions(alloc, text) {
        Ok((functions, line, rest)) => counts_before(functions, line, rest),
        Err(want) => Err(ProfileFault::Memory(want)),
    }
}
