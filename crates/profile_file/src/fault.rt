//! Why bytes are refused as a profile.

use lay_base::NoMemory;
use thiserror::Error;

/// Why bytes are not read as counts.
#[derive(Debug, Drop, Error)]
pub enum ProfileFault {
    /// The first line that breaks the form, counted from 1.
    #[error("line {0} of the profile is refused")]
    BadProfile(u32),
    /// No memory was left.
    #[error("out of memory")]
    Memory(NoMemory),
}
