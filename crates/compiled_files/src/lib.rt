//! From a program of files to its file: three-address code, machine code, the image and the ELF file.
//!
//! It stands on `lower_tac`, `rv_image` and `elf32`, whose stages it calls one after the other, on `rv_emit`, whose laws relate runs of code to the machine,
//! and on the laws of `code_bounds` and `c_well_typed`. It promises that the machine on the file of a program does what the program does by its
//! meaning (`Agrees`), and with the heap just what the program does (`Real`).
//!
//! It holds laws of runs of three-address code, for any code, and of light runs of the source (`code_runs`), on which the machine's stack and heap stand. Each
//! step of code leads to one moment or to the end, whatever the steps behind it do; a run's trace only grows, and its blocks keep their numbers; the functions
//! that were entered and not left are those of the calls that are not over; and a light run has room for each frame and each allocation. Where frames and the
//! heap lie in a machine is not said there: the laws of room speak of numbers.
//!
//! `proofs/Soundness` shows that the code of a program of files is such as the laws of emission ask for (`IsSound`), `InImage` that it stands in the image,
//! `Starting` how the machine comes from its first state to the first step of `main`, and `Composed.antt` and `Theorem.antt` put them together.
#![tactic(auto)]

mod code_runs;
mod laws;
mod stages;

// Laws of a program's code and of the start of its run: who runs one need not name the crate that they are from.
pub use code_bounds::{few_are_asked, programs_start_fit, types_are_small};
pub use code_runs::{
    allocations_have_room, calls_are_within, calls_have_room, covered_runs_pass, earlier_fits,
    light_moments_fit, light_runs_fit, runs_add, runs_pass, steps_add, steps_lead, weights_rise,
};
pub use laws::{images_are_of_programs, programs_are_steady};
pub use stages::compiled;
