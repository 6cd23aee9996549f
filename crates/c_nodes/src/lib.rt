//! The nodes that the checker makes of names, and what it makes nodes with: a type, a conversion, the size of a type; and the faults that it finds. What
//! it makes of operators, calls and the expressions of statements once their parts are found (`operator_nodes`), and the types that specifiers and
//! declarators make of their parts (`declarator_types`, C99 6.7.2 to 6.7.6).
//!
//! It stands on `c_annotated` and mirrors the functions of `c_erasure`'s checker that ask nothing of the names of a file, one for one. It promises that each
//! answers what the definition of its name says, or that no memory was left.
#![tactic(auto)]

mod declarator_types;
mod fault;
mod making;
mod operator_nodes;
mod primary;
mod sizes;

pub use declarator_types::{
    Base, Derivation, Integer, Shape, Storage, base_kind, closed, constant, counted, derived,
    int_value, length, next_value, object, parameter_type, scalar, small, storage_of,
    typedef_named, variable,
};
pub use fault::Fault;
pub use making::{
    Start, Value, convert, convert_to_kind, misplaced, node, object_value, pointer_to, way, worth,
};
pub use operator_nodes::{
    BinaryKind, Signature, Subscripted, SwitchValue, Target, address, argument, array_of, arrow,
    assigned, binary, call, cast, chosen, comma, condition, copied, deref, dot, element, index,
    initial_value, kind_of, not, promote, returned, signature_of, step, step_of, switched,
    target_in, tested, unary, update_of, updated,
};
pub use primary::{name, named, unmade};
pub use sizes::{
    SizedType, is_complete, is_small, may_be_pointed_to, measured, size_constant, sized,
};
