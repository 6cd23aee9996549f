//! ELF32 files: the bytes of an executable for RISC-V and the image that they load as.
//!
//! It stands on `lay_base`, `rv_isa`, `byteorder` and `thiserror`. It promises that the file that
//! `write` gives for an image loads as that image, and that `read` gives what any bytes load as, or
//! the first field that is refused.
//!
//! Not proved: how long `read` takes (it goes over the program headers once, and compares each of the 16 segments at most with the earlier ones), that a
//! loader of another project takes the file, or refuses what `read` refuses, and the texts of `Display` and `Debug` of `ElfFault`.
#![tactic(auto)]

mod fault;
mod header;
mod reading;
mod writing;

pub use fault::ElfFault;
pub use reading::{files_are_read_back, read};
pub use writing::write;
