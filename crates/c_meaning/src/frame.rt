//! What a function that runs has of its own (C99 6.2.4).

use block_memory::{Ptr, Value};

/// A local of a function that runs.
#[derive(Clone, Copy)]
pub enum Slot {
    /// A number or a pointer whose address is never taken; none before a value is stored.
    ByName(Option<Value>),
    /// Any other, by the number of its block; none outside of its scope.
    InBlock(Option<u64>),
}

/// Where a path leads.
#[derive(Clone, Copy)]
pub enum Spot {
    /// A local that is kept by its name, by its number.
    Kept(u32),
    /// A place in memory.
    Placed(Ptr),
}
