//! How often the functions and loops of a program ran: which functions and loops are counted, in which order, and how counts can differ
//! from a program.
//!
//! It stands on `lay_base`, `c_types` and `c_typed`. Profiles are written and read by the crate `profile_file`.

mod counts;
mod laws;
mod loops;
mod numbers;
mod order;

pub use counts::{Counts, FunCount};
pub use laws::order_is_one;
pub use loops::{loops_in_statements, loops_of, loops_within};
pub use numbers::{function_count, loop_count, record_count};
pub use order::{Defined, profile_order};
