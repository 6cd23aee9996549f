//! The image of a program: its text, its data, and room for its stack and its heap.
//!
//! It stands on `rv_code`, whose code is the text behind the runtime of `rv_runtime`, and on `source_values` for the sizes of objects. It promises that `image`
//! answers the image whose parts `specs/` says, where the program fits into the parts of the address space.
#![tactic(auto)]

mod data;
mod parts;

pub use parts::image;
