//! Laws about the definitions.

ghost use Rattle.c_typed.specs.RunCounts.Order.{IsProfileOrder, profile_order};
ghost use Rattle.c_typed.specs.Programs.{ProgramData};

/// The order of the functions has each function that the program defines once, and its places ascend. Of functions with one place, which
/// no linked program has, the one with the lower number comes first.
pub fn order_is_one()
    ensures { (p : ProgramData) → IsProfileOrder p (profile_order p) }
{}
