//! What is written of a function.

use crate::writer::Writer;
use lay_base::{Bytes, List};

/// The code of a function as far as it is there, with its labels and texts, and how many of its loops stand before that.
#[derive(Drop)]
pub struct Draft {
    pub code: Writer,
    pub labels: Vec<usize>,
    pub texts: List<Bytes>,
    pub loops: u32,
}
