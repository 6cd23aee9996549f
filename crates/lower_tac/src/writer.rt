//! What is written.

use lay_base::NoMemory;
use tac_ir::Step;

/// The steps of a function, the last one first.
#[derive(Drop)]
pub struct Writer {
    pub steps: Vec<Step>,
    /// Of the last that was to be written and found no memory.
    pub want: Option<NoMemory>,
}
