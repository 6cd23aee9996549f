//! The front end: from the files of a program to the program, or the first fault of the earliest stage that a file fails; the files as a command reads
//! them from its host, and the refusal where they are no program (`program_files`), with the texts FILE:LINE of its places (`line_texts`, C99 6.10.4).
//!
//! It stands on `c_lexer`, `c_parser`, `c_check` and `c_link`, with the laws of `c_well_typed`, and on `refusals`, and adds no rule of C. It promises that
//! `front` answers the program of the files; or, where they have none, the fault that its definition names; or that no memory was left. Files have at most
//! one program. There are tokens before each place that a fault names, and each text of a refusal is that of its place (`refusal_places`). Whatever is
//! refused, no file has changed.
//!
//! That real files hold what was written is neither proved nor tested here.
#![tactic(auto)]

mod fault;
mod laws;
mod line_texts;
mod program_files;
mod refusal_places;
mod stages;

// What a fault holds, and laws of programs: who prints these, or counts, need not name the crates that they are from.
pub use c_check::CheckFault;
pub use c_lexer::LexFault;
pub use c_link::{Gap, Trouble};
pub use c_parser::ParseFault;
pub use c_well_typed::{
    programs_are_within_limits, programs_have_few_functions, programs_have_few_loops,
};
pub use fault::CompileFault;
pub use laws::{faults_stand_in_files, programs_are_one};
pub use line_texts::place_text;
pub use program_files::{
    PlaceTexts, SourceProgram, bytes_of, check_files, check_number, program_in, read_files,
    texts_of, with_program,
};
pub use refusal_places::{named_texts_are_of_places, texts_are_of_places};
pub use stages::front;
