//! What a C program does (C99 5.1.2.3), by recursion on the typed tree; which pointers may name the blocks of recognised allocations; and laws of runs.
//!
//! It stands on `lay_base`, `c_types`, `c_typed`, whose trees it gives a meaning, on `block_memory`, and on `memory_words`, `block_memory`, whose world
//! it changes. By its laws the number that bounds calls and loops never shows, a longer run begins as a shorter one, and the room of the interpreter changes
//! nothing but where it is short; a run without that limit is never out of room.
#![tactic(auto)]

mod frame;
mod laws;

pub use frame::{Slot, Spot};
pub use laws::{operations_keep_types, runs_have_room, weights_are_shown};
