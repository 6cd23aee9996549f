//! What a run does to the world, whatever the language: turns, memory, input and one trace of events; operators on values, calls of the library, loops.
//! Definitions alone.
//!
//! It stands on `lay_base`, `c_types`, `c_typed`, whose operators and library functions it gives a meaning, and on `memory_words` and `block_memory`, whose
//! pointers and memory it has.

mod value;
mod way;

pub use value::Value;
pub use way::Way;
