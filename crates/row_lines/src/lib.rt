//! Lines of text that stand for bytes and files, for programs that read rows and print what came of each.
//!
//! | line | stands for |
//! |---|---|
//! | `|TEXT` | TEXT and the end of its line |
//! | `:TEXT` | TEXT alone |
//! | `hex 7F 45` | bytes, in hexadecimal |
//! | `times 3 2E` | bytes in hexadecimal, so many times |
//! | `file NAME` | a file of that name, whose bytes are those of the lines after it |
//! | `# TEXT`, and an empty line | nothing |
//!
//! What such a program prints are lines for bytes, or words and parentheses. It stands on `lay_base`.
#![tactic(auto)]

mod fault;
mod reading;
mod writer;
mod writing;

pub use fault::RowFault;
pub use reading::{bytes_in, files_in, head_of, is_comment};
pub use writer::Writer;
pub use writing::{put_lines, put_no_row};
