//! Source files, and places in them.

use crate::bytes::{Bytes, Name};
use crate::list::List;

/// Byte `at` of the file with that number, both counted from 0.
#[derive(Clone, Copy)]
pub struct Place {
    pub file: u16,
    pub at: u32,
}

/// A file under its name.
#[derive(Drop)]
pub struct File {
    pub name: Name,
    pub bytes: Bytes,
}

/// Files in the order in which they were named.
pub type Files = List<File>;
