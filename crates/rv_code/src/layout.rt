//! Where things lie in memory and in frames.

use lay_base::List;

/// Where the objects and the functions of a program lie, by their numbers.
#[derive(Drop)]
pub struct Places {
    pub objects: List<u32>,
    pub entries: List<u32>,
}

/// What a function's code knows of the function's frame and of where it lies itself.
#[derive(Drop)]
pub struct Layout {
    /// Of each local, how many bytes from the stack pointer on its block begins.
    pub blocks: List<u32>,
    /// The bytes of the frame.
    pub size: u32,
    /// Where each text lies that a block of a local gets.
    pub texts: List<u32>,
    /// How many words the code takes that is left, by how many steps are left.
    pub behind: List<u32>,
    /// Where the code of the function ends.
    pub end: u32,
}
