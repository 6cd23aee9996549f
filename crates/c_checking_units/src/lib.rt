//! A file has at most one unit, and where it has one the checker refuses nothing: the annotated file of a tree is the one that the checker answers. Where
//! the checker stops, the rule that its fault names is broken in the next item (`FirstStops`), and there are tokens before each place that it names
//! (`FaultPlaces`). The types of which an annotated file speaks are within the limits of types (`TypeLimits`).
//!
//! It stands on `c_erasure`, whose functions are the checker, and on the laws of `c_checking_laws`. It has laws alone.
#![tactic(auto)]

mod fault_places;
mod first_stops;
mod laws;
mod type_limits;

pub use fault_places::faults_have_places;
pub use first_stops::faults_break_rules;
pub use laws::{faults_have_no_unit, units_are_one};
pub use type_limits::{arrays_are_small, types_are_small};
