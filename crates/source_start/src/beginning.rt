//! The start of a run.

ghost use Rattle.std.specs.Prelude.{◌≡◌, ℕ, OnOk};
ghost use Rattle.c_typed.specs.Programs.{program_data};
ghost use Rattle.source_start.specs.Fits.{StartsFit};
ghost use Rattle.source_state.specs.RoomView.{core_of, empty_core};
ghost use Rattle.source_state.specs.Steps.AtStart.{core_at_start};
ghost use Rattle.source_state.specs.Steps.Counting.{Counting};

use crate::objects::add_objects;
use block_memory::Store;
use lay_base::NoMemory;
use source_state::Room;
use source_values::Types;
use std::alloc::Global;

/// Puts into an empty room what a run of the program starts with.
pub fn start(alloc: Global, types: &Types<'_>, room: &mut Room) -> Result<(), NoMemory>
    requires { StartsFit (program_data types.now) }
    ensures { (turns : ℕ) (counts : Counting) → core_of room.old ≡ empty_core turns counts
        → OnOk result (core_of room.new ≡ core_at_start (program_data types.now) turns counts) }
{
    let mut store = Store::new(alloc);
    let live = add_objects(alloc, &mut store, types)?;
    room.take_store(store, live);
    Ok(())
}
