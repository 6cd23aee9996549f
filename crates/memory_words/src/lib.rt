//! The words in which memory lies: lists that grow by pages of equal size (`list_pages`), and cells, four to a word of eight bytes (`cell_words`,
//! C99 6.2.6.1).
//!
//! It stands on `lay_base`. It promises that a call of `PagedList` answers and changes the items as the same call of one list would, and refuses no
//! item for which room was reserved; and that `Words` is a list of groups of four cells, whatever they hold.
//!
//! Not proved: how long anything takes, and how much memory. `PagedList` refuses more than 2^29 pages. A byte among bytes, four bytes, and a whole pointer in
//! place of another one are each written in one place. A word has 8 bytes; in a table a pointer takes 16 bytes and a group 96, and each 4 more for its owner.
//! The tables take room for all words as the list grows, and what is not used of it is not touched.
#![tactic(auto)]

mod cell_words;
mod list_pages;

pub use cell_words::{
    Cell, Content, Four, Ptr, Word, Words, are_fragments, cell_of, content_word, four_pointer,
};
pub use list_pages::PagedList;
