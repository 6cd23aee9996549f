//! Why lines are no row.

use lay_base::NoMemory;
use std::alloc::{AllocError, AllocFailed};
use thiserror::Error;

/// Why lines are no row.
#[derive(Clone, Copy, Debug, Error)]
pub enum RowFault {
    #[error("a line belongs to no row")]
    NoRow,
    #[error("out of memory")]
    Memory,
}

impl From<AllocError> for RowFault {
    fn from(_fault: AllocError) -> RowFault {
        RowFault::Memory
    }
}

impl<T: Drop> From<AllocFailed<T>> for RowFault {
    fn from(_fault: AllocFailed<T>) -> RowFault {
        RowFault::Memory
    }
}

impl From<NoMemory> for RowFault {
    fn from(_fault: NoMemory) -> RowFault {
        RowFault::Memory
    }
}
