//! Conversions of values (C99 6.3).

ghost use Rattle.std.specs.Prelude.{◌≡◌};
ghost use Rattle.c_types.specs.Types.{integer};
ghost use Rattle.block_memory.specs.RunWorlds.Operators.{converted, null_or_pointer};

use block_memory::{Ptr, Value};
use c_typed::as_kind;
use c_types::IntKind;
use lay_base::UndefinedKind;

/// A number as one of a kind; a pointer is none.
pub fn convert(kind: IntKind, v: Value) -> Result<Value, UndefinedKind>
    ensures { result ≡ converted (integer kind) v }
{
    match v {
        Value::Word(word) => Ok(Value::Word(as_kind(kind, word))),
        Value::Pointer(_) => Err(UndefinedKind::Pointer),
    }
}

/// A pointer as it is, and 0 as a null pointer; no other number is one.
pub fn null_or_pointer(v: Value) -> Result<Value, UndefinedKind>
    ensures { result ≡ null_or_pointer v }
{
    match v {
        Value::Word(word) => {
            if word == 0 {
                Ok(Value::Pointer(Ptr::Null))
            } else {
                Err(UndefinedKind::Pointer)
            }
        }
        Value::Pointer(_) => Ok(v),
    }
}
