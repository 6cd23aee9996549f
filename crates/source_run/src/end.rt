//! How a run of the interpreter ends.

use lay_base::{NoMemory, Place, RoomKind, UndefinedKind};

/// How a run ends.
#[derive(Clone, Copy)]
pub enum RunEnd {
    /// The program ended, with a status.
    Ends(u8),
    /// The step of the expression at a place has no defined meaning.
    Undefined(UndefinedKind, Place),
    /// So many turns began, and the next would begin.
    TurnLimit(u64),
    /// The limit would be passed with that many bytes, or calls.
    Room(RoomKind, u64),
    /// The input failed.
    ReadFault,
    /// The output failed.
    WriteFault,
    /// No memory was left.
    Memory(NoMemory),
}
