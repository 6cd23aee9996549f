//! Why a record is refused.

use lay_base::NoMemory;

/// Why a record is not added.
#[derive(Clone, Copy)]
pub enum RecordFault {
    /// Its size passes 16,777,216 bytes: the size, or `u64::MAX` where it passes that too.
    TooBig(u64),
    /// No memory was left.
    Memory(NoMemory),
}
