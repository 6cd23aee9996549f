//! Counts of a program.

use lay_base::{List, Name};

/// The counts of each function that a program defines, in the order of the files and places of their definitions.
#[derive(Drop)]
pub struct Counts {
    pub functions: List<FunCount>,
}

/// How often a function was entered, and how often the body of each of its loops began, in the order of the text.
#[derive(Drop)]
pub struct FunCount {
    pub name: Name,
    pub entries: u64,
    pub loops: List<u64>,
}
