//! The files of a program, as a command reads them from its host, and the program that they are: or the refusal, with the texts of its places.
//!
//! It stands on `lay_base` for the host, on the front end for the program, and on `refusals`. Whatever is refused, no file has changed.

mod front_end;
mod reading;
mod source_program;

pub use front_end::{PlaceTexts, check_files, texts_of};
pub use reading::{bytes_of, check_number, read_files};
pub use source_program::{SourceProgram, program_in, with_program};
