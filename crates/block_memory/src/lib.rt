//! Memory as blocks of cells (C99 6.2.4, 6.2.6.1, 7.20.3): pointers, cells, and every access with its tests; and what a run does to the world, whatever
//! the language (`run_worlds`): turns, memory, input and one trace of events, and how it ends.
//!
//! It stands on `memory_words`, whose words hold the cells and in whose lists the slots of blocks lie, on `lay_base`, which names what is undefined, and on
//! `c_types`, which gives the widths of integers. It promises that each call of the store does what the definition of its name says, or answers the kind of
//! undefined behaviour and changes nothing, or that no memory was left. Of runs it has definitions alone.
//!
//! Not proved: how long anything takes. A load or store of four bytes or of a pointer goes to one word; shorter numbers go to it once for each byte. Fills go
//! word by word, and so do copies where both ranges begin at a multiple of four; other copies, and comparisons, go cell by cell. Nor how much memory is taken:
//! 8 bytes for each block that was made, in a list that may have room for twice as many; 8 for each four bytes of a live block; 20 for each pointer other than
//! null that is kept at a multiple of four, and 100 for any other four cells with a part of a pointer. Words of blocks that have ended wait for others, and are
//! never given back before the store is.
#![tactic(auto)]

mod accesses;
mod arena;
mod comparing;
mod holding;
mod kinds;
mod lifetimes;
mod numbers;
mod place;
mod pointers;
mod ranges;
mod room;
mod run_worlds;
mod slot;
mod slots;
mod store;
mod writes;

pub use kinds::{Access, BlockKind};
pub use memory_words::{Cell, Ptr};
pub use pointers::difference;
pub use run_worlds::{Value, Way};
pub use store::Store;
