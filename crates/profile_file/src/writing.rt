//! Writing a profile.

ghost use Rattle.std.specs.Prelude.{◌≡◌, ◌++◌, ◌∷◌, [], IfOk, OnOk, decimal, flat_map, map};
ghost use Rattle.profile_file.specs.Text.{ended, first_line, function_lines, last_line, loop_line, profile_text, text_of};

use c_typed::{Counts, FunCount};
use itoa::Buffer;
use lay_base::{NoMemory, append};
use std::alloc::Global;

fn put_number(out: &mut Vec<u8>, n: u64) -> Result<(), NoMemory>
    ensures { OnOk result (out.new.items ≡ out.old.items ++ decimal n ++ 10 ∷ []) }
{
    let mut buffer = Buffer::new();
    append(out, buffer.format(n).as_bytes())?;
    append(out, b"\n")
}

fn put_loop(out: &mut Vec<u8>, n: u64) -> Result<(), NoMemory>
    ensures { OnOk result (out.new.items ≡ out.old.items ++ ended (loop_line n)) }
{
    append(out, b"loop ")?;
    put_number(out, n)
}

fn put_loops(out: &mut Vec<u8>, loops: &[u64]) -> Result<(), NoMemory>
    ensures { OnOk result (out.new.items ≡ out.old.items ++ text_of (map loop_line loops.now)) }
{
    for n in loops {
        put_loop(out, *n)?;
    }
    Ok(())
}

fn put_function(out: &mut Vec<u8>, f: &FunCount) -> Result<(), NoMemory>
    ensures { OnOk result (out.new.items ≡ out.old.items ++ text_of (function_lines f.now)) }
{
    append(out, b"fun ")?;
    append(out, f.name.as_slice())?;
    append(out, b" ")?;
    put_number(out, f.entries)?;
    put_loops(out, f.loops.as_slice())
}

fn put_functions(out: &mut Vec<u8>, functions: &[FunCount]) -> Result<(), NoMemory>
    ensures { OnOk result (out.new.items ≡ out.old.items ++ flat_map (λ f. text_of (function_lines f)) functions.now) }
{
    for f in functions {
        put_function(out, f)?;
    }
    Ok(())
}

// The text of counts, piece by piece.
fn pieces(alloc: Global, c: &Counts) -> Result<Vec<u8>, NoMemory>
    ensures { IfOk result (λ text. text.items ≡ ended first_line ++ (flat_map (λ f. text_of (function_lines f)) c.now.functions ++ ended last_line)) }
{
    let mut out = Vec::new(alloc);
    append(&mut out, b"layc-profile 1\n")?;
    put_functions(&mut out, c.functions.as_slice())?;
    append(&mut out, b"end\n")?;
    Ok(out)
}

/// The text of counts.
pub fn write(alloc: Global, c: &Counts) -> Result<Vec<u8>, NoMemory>
    ensures { IfOk result (λ text. text.items ≡ profile_text c.now) }
{
    pieces(alloc, c)
}
