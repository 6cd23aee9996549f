//! What the code of a function is made from.

ghost use Rattle.std.specs.Prelude.{◌≡◌, ◌++◌, ◌<◌, ◌^◌, ◌-◌, length};

use c_typed::Function;
use source_values::Types;
use std::alloc::Global;

/// A function of a program, and where its code finds memory.
#[derive(Clone, Copy)]
pub struct Ground<'a> {
    pub alloc: Global,
    pub types: &'a Types<'a>,
    pub function: &'a Function,
    pub number: usize,
    /// The first temporary behind the locals.
    pub room: u32,
    ghost few: { room < 2 ^ 32 - 1 },
    ghost behind: { room ≡ length (function.now.parameters ++ function.now.locals) },
}
