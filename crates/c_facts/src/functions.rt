//! The facts of the functions of a program.

ghost use Rattle.std.specs.Prelude.{◌≡◌, IfOk};
ghost use Rattle.c_typed.specs.Programs.{data_of, program_data};
ghost use Rattle.c_facts.specs.Programs.{facts_at, facts_by_function, facts_in, facts_of};
ghost use Rattle.c_facts.specs.Puts.{Puts};

use crate::fact::Fact;
use crate::found::{Found, put};
use crate::statements::statement;
use c_typed::{Defined, Function, Typed, profile_order};
use lay_base::{List, NoMemory};
use std::alloc::Global;

fn body(found: &mut Found, f: &Function)
    ensures { Puts found.old found.new (facts_by_function (data_of f.now)) }
{
    match &f.body {
        None => {}
        Some(body) => statement(found, body),
    }
}

fn function(found: &mut Found, p: &Typed, number: usize)
    ensures { Puts found.old found.new (facts_at (program_data p.now) number) }
{
    match p.functions.get(number) {
        None => {}
        Some(f) => body(found, f),
    }
}

fn functions(found: &mut Found, p: &Typed, order: &[Defined])
    ensures { Puts found.old found.new (facts_in (program_data p.now) order.now) }
{
    for defined in order {
        put(found, Fact::FunctionBegins);
        function(found, p, defined.number);
    }
}

/// What the functions of a program say of types and fields, function by function in the order of profiles.
pub fn facts(alloc: Global, p: &Typed) -> Result<List<Fact>, NoMemory>
    ensures { IfOk result (λ all. all ≡ facts_of (program_data p.now)) }
{
    let order = profile_order(alloc, p)?;
    let mut found = Found {
        list: List::new(alloc),
        want: None,
    };
    functions(&mut found, p, order.as_slice());
    match found.want {
        Some(want) => Err(want),
        None => Ok(found.list),
    }
}
