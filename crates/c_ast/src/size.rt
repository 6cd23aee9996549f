//! The depth and the number of nodes of a tree, as one value.

/// How many nodes of a tree, at most, stand one below another, and how many there are.
#[derive(Clone, Copy)]
pub struct Size {
    pub depth: u32,
    pub nodes: u64,
}
