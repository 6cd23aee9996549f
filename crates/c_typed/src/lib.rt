//! Typed programs: what a C program is once its names are resolved, its types found and its conversions written. Which of their functions and loops
//! are counted (`run_counts`).
//!
//! It stands on `c_types`. Its definitions say which rule each node of a typed program keeps (C99 6.5 to 6.9); everything after the
//! checker is said of these programs. It promises that counts have the order of their definition.
//!
//! That every node of a program's functions keeps its rule is proved by `c_well_typed`.
#![tactic(auto)]

pub mod constants;
mod conversions;
mod expression;
mod fits;
mod operators;
mod program;
mod rules;
mod run_counts;
mod statement;
mod values;

pub use constants::Constant;
pub use conversions::{
    adjusted, as_kind, common_kind, is_array, is_function, is_integer, is_pointer, is_record,
    is_scalar, is_signed, promoted_kind,
};
pub use expression::{Expression, ExpressionNode, Path, PathNode, TypeId};
pub use fits::{Met, assigns, casts, compared, is_void, meeting, ordered};
pub use operators::{BinaryOp, CompareOp, LibraryFunction, PointerOp, StepOp, UnaryOp};
pub use program::{
    Function, Initial, InitialValue, Local, Mention, MentionKind, Object, Typed, Unit,
};
pub use rules::{
    CommonType, OperandKinds, arithmetic, choosing, comparing, differing, is_move, is_shift,
    is_stepped, moving, on_numbers, points_to_object, promoting, updating,
};
pub use run_counts::{
    Counts, Defined, FunCount, function_count, loop_count, loops_in_statements, loops_of,
    loops_within, order_is_one, profile_order, record_count,
};
pub use statement::{Arm, Initializer, InitializerPart, PartValue, Statement};
pub use values::{binary_value, holds, unary_value};
