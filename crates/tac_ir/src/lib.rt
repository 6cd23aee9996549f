//! Three-address code: flat steps on temporaries, with each test of the source at its place, and what they do.
//!
//! It stands on the meaning of C in `c_meaning`, whose frames, calls and library it shares, and has no functions. Its definitions say what a run of the code
//! does to the world, one equation a step (`Running`), and when that is what a run of the source does (`Covers`).
#![tactic(auto)]

mod step;

pub use step::{Operand, Parameter, Routine, Row, Sort, Step, Tac, Target};
