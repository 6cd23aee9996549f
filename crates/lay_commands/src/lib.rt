//! The commands of `layc`, over any host and any streams: from the words after the program's name to an
//! outcome and its exit status.
//!
//! The command line is declared to `clap`, which reads the words; a request has its numbers in range, and the names of the files as they were given. For the
//! rest it joins the layers below it, and adds no rule of C, of RISC-V or of ELF. The contract of `layc` says of
//! every outcome when it comes and what it leaves; the definitions that it cites are in `specs/`.
//!
//! Not proved: how long a run takes, and how much memory: of the machine it is meant to be the sizes of the segments and a table of decoded words, without a
//! copy of the file beside them; of the interpreter the files, their typed program with its code, and what lives. That the declaration of the command line is
//! the one that was meant is only tested, by rows of commands.
#![tactic(auto)]

mod command_line;
mod compiling;
mod inputs;
mod interpreting;
mod numbers;
mod outcome;
mod profiling;
mod running;
mod top;
mod words;
mod writing;

pub use outcome::{Outcome, status_of};
pub use top::layc;
