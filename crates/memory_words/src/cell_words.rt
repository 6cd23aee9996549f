//! The cells of memory, four to a word of eight bytes (C99 6.2.6.1).
//!
//! It stands on `lay_base`, which names the want of memory, and on `memory_words`, in whose lists words and tables lie. It promises that `Words` is a list of
//! groups of four cells, whatever they hold.

mod cell;
mod fragments;
mod packed;
mod plain;
mod pointer;
mod table;
mod tabled;
mod word;
mod words;

pub use cell::Cell;
pub use fragments::are_fragments;
pub use plain::{cell_of, content_word, four_pointer};
pub use pointer::Ptr;
pub use word::{Content, Four, Word};
pub use words::Words;
