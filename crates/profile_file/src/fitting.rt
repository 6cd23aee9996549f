//! Whether counts fit a program.

ghost use Rattle.std.specs.Prelude.{◌≡◌, ◌<◌, ◌^◌, ◌≤◌, OnOk, ℕ, length, map};
ghost use Rattle.std.specs.List.{All};
ghost use Rattle.c_typed.specs.RunCounts.Counting.{name_at};
ghost use Rattle.c_typed.specs.RunCounts.Loops.{loops_at, loops_of as loops_in_function};
ghost use Rattle.c_typed.specs.RunCounts.Order.{defined_in, profile_order};
ghost use Rattle.c_typed.specs.RunCounts.Stale.{functions_differ, loops_stale, names_in, order_stale, place_of, stale, unless_stale};
ghost use Rattle.c_typed.specs.Programs.{data_of, program_data};

use c_typed::{Counts, Defined, FunCount, Typed, function_count, loops_of};
use lay_base::{Stale, StaleKind};

/// The name of the function of that number.
fn name_at(p: &Typed, number: usize) -> &[u8]
    ensures { result.now ≡ name_at (program_data p.now) number }
{
    match p.functions.get(number) {
        None => b"",
        Some(f) => f.name.as_slice(),
    }
}

/// How many loops the function of that number has.
fn loops_at(p: &Typed, number: usize) -> u32
    requires { loops_at (program_data p.now) number < 2 ^ 32 }
    ensures { result ≡ loops_at (program_data p.now) number }
{
    match p.functions.get(number) {
        None => 0,
        Some(f) => loops_of(f),
    }
}

/// The first place of a name in a profile, or the number of the profile's names.
fn place_of(functions: &[FunCount], name: &[u8]) -> usize
    ensures { result ≡ place_of (map (λ f. f.name) functions.now) name.now }
{
    let mut place = 0;
    for f in functions {
        if name == f.name.as_slice() {
            return place;
        }
        place += 1;
    }
    place
}

/// Whether there are as many functions.
fn functions_fit(c: &Counts, p: &Typed) -> Result<(), Stale>
    requires { length (defined_in (program_data p.now)) < 2 ^ 32 }
    ensures value { result ≡ unless_stale (functions_differ (length (defined_in (program_data p.now))) (length c.now.functions)) }
    ensures few { OnOk result (length c.now.functions < 2 ^ 32) }
{
    let expected = function_count(p) as u64;
    let found = c.functions.len() as u64;
    if expected == found {
        return Ok(());
    }
    Err(Stale {
        kind: StaleKind::Functions,
        function: 0,
        expected,
        found,
    })
}

/// Whether the names are the same at each place.
fn names_fit(c: &Counts, p: &Typed, order: &[Defined]) -> Result<(), Stale>
    requires order { order.now ≡ profile_order (program_data p.now) }
    requires profile { length c.now.functions < 2 ^ 32 }
    ensures { result ≡ unless_stale (order_stale c.now (program_data p.now)) }
{
    for (i, f) in c.functions.as_slice().iter().enumerate() {
        let Some(next) = order.get(i) else {
            return Ok(());
        };
        let name = name_at(p, next.number);
        if name != f.name.as_slice() {
            return Err(Stale {
                kind: StaleKind::Order,
                function: i as u32,
                expected: i as u64,
                found: place_of(c.functions.as_slice(), name) as u64,
            });
        }
    }
    Ok(())
}

/// Whether the numbers of loops are the same at each place.
fn loops_fit(c: &Counts, p: &Typed, order: &[Defined]) -> Result<(), Stale>
    requires order { order.now ≡ profile_order (program_data p.now) }
    requires profile { length c.now.functions < 2 ^ 32 }
    requires loops { (number : ℕ) → loops_at (program_data p.now) number < 2 ^ 32 }
    ensures { result ≡ unless_stale (loops_stale c.now (program_data p.now)) }
{
    for (i, f) in c.functions.as_slice().iter().enumerate() {
        let Some(next) = order.get(i) else {
            return Ok(());
        };
        let expected = u64::from(loops_at(p, next.number));
        let found = f.loops.len() as u64;
        if expected != found {
            return Err(Stale {
                kind: StaleKind::Loops,
                function: i as u32,
                expected,
                found,
            });
        }
    }
    Ok(())
}

/// Whether counts are those of a program's functions and loops: in number, by name and in order, else the first difference. The order of
/// the program's functions is made by `profile_order`. It takes no memory.
pub fn fits(c: &Counts, p: &Typed, order: &[Defined]) -> Result<(), Stale>
    requires order { order.now ≡ profile_order (program_data p.now) }
    requires functions { length p.now.functions < 2 ^ 32 }
    requires loops { All (λ f. loops_in_function (data_of f) < 2 ^ 32) p.now.functions }
    ensures { result ≡ unless_stale (stale c.now (program_data p.now)) }
{
    functions_fit(c, p)?;
    names_fit(c, p, order)?;
    loops_fit(c, p, order)
}
