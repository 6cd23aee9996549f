//! What every layer stands on: containers that contracts see as plain data, places in files,
//! the objects through which a program meets the outside, and the names in its refusals.
//!
//! It stands on std, and on the kit's `indexmap` and `smallvec`. It promises that no address and no capacity is part of a value, that an object of
//! the outside fails only where its count of faults says so, and that want of memory is answered only by a call that asked for memory and was refused.
//!
//! Neither proved nor tested: the text of `Debug`, and that memory is ever left. Trusted: the toolchain, and std's statements on vectors and boxes.
#![tactic(auto)]

mod bytes;
mod faults;
mod keywords;
mod list;
mod memory_objects;
mod no_memory;
mod operators;
mod outside;
mod place;
mod shared_value;
mod value_box;

pub use bytes::{Bytes, Name};
pub use faults::{
    ElfField, Keyword, LimitKind, RoomKind, Rule, Stale, StaleKind, TrapKind, UndefinedKind,
};
pub use keywords::{keyword_of, keyword_text};
pub use list::List;
pub use memory_objects::{MemHost, MemSink, MemSource};
pub use no_memory::{
    NoMemory, add, append, arguments, boxed, buffered, copied, filled, insert_at, push, put,
    put_key, read_at_most, reserve, resize, shared, short_copy, split_off, with_capacity,
    with_room,
};
pub use operators::{divide, remain, shift_left, shift_right};
pub use outside::{Host, HostRead, HostWrite, Sink, SinkFault, Source, SourceFault};
pub use place::{File, Files, Place};
pub use shared_value::Shared;
pub use value_box::Boxed;
