//! The engine between two steps.

use c_meaning::Slot;
use lay_base::{NoMemory, Place};
use source_state::{Moved, Room, Stack};
use source_values::Types;
use tac_ir::{Routine, Tac};

/// Where a step has no place of its own.
pub(crate) const NO_PLACE: Place = Place { file: 0, at: 0 };

/// What a step comes to.
pub(crate) type Comes = Result<Moved, NoMemory>;

/// A call that waits for its result.
#[derive(Drop)]
pub struct Caller<'a> {
    /// The temporary that takes the result.
    pub to: u32,
    pub routine: &'a Routine,
    /// How many of its steps are left.
    pub left: usize,
    pub frame: Vec<Slot>,
}

/// What runs, the calls that wait, where the function that runs is, and what is kept beside them.
#[derive(Drop)]
pub struct Engine<'a> {
    /// Of the program whose types the code speaks of.
    pub types: &'a Types<'a>,
    pub code: &'a Tac,
    /// The last first.
    pub callers: Stack<Caller<'a>>,
    pub routine: &'a Routine,
    /// How many of its steps are left.
    pub left: usize,
    /// The temporary that takes what `getchar` gives.
    pub to: u32,
    pub room: Room,
}
