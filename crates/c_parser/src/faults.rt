//! Why a file has no tree.

use lay_base::{Keyword, NoMemory, Place};

/// Why a file has no tree.
#[derive(Clone, Copy)]
pub enum ParseFault {
    /// The tokens are no file's. The place is that of the token at which reading stopped, or the end
    /// of the file.
    NoParse(Place),
    /// A keyword that is not supported, at its place.
    Unsupported(Keyword, Place),
    /// Memory is out.
    Memory(NoMemory),
}
