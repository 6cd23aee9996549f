//! The three-address code of typed programs: as a definition (`lowered`), made from the back, and as it is made (`lower`).
//!
//! It stands on `c_meaning`, whose runs are meant, on `tac_ir`, whose code it makes, and on `source_values`, whose table of types it reads. It promises that
//! `lower` makes the code of the definition, and for every program, input and number of turns, within the room of the interpreter or not, that from some
//! number of steps on that code comes to the end of the source in the same world (`RunsAreSame`).
//!
//! `lower` asks for a program whose functions need few numbers of temporaries and loops (`asked_by_functions`) and whose types are small, as each program
//! that is accepted.
#![tactic(auto)]

mod dispatch;
mod draft;
mod drafting;
mod expressions;
mod functions;
mod ground;
mod initializers;
mod laws;
mod locals;
mod nodes;
mod operands;
mod scopes;
mod statements;
mod steps;
mod ways;
mod writer;
mod writing;

pub use functions::lower;
pub use laws::runs_are_same;
