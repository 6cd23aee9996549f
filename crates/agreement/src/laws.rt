//! What of agreement follows from the rest of it.

ghost use Rattle.agreement.specs.Laws.{DoesNothingElse};

/// A machine that ends where the source ends, and runs on for no fewer steps than the source has turns where that goes on, does nothing else where every run
/// of the source is defined. So the third clause of agreement for an input follows from the first two.
pub fn nothing_else_is_done()
    ensures { DoesNothingElse }
{}
