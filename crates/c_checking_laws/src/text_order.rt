//! Laws about the order of texts.

ghost use Rattle.c_checking_laws.specs.TextOrder.TextOrder.{TextsAreInOrder};

/// In a file declarators, string literals and `static` locals come one after the other, and so do names
/// and the beginnings of their scopes, and tags. No enumeration has a tag that begins as those of
/// structures without a tag do.
pub fn texts_are_in_order()
    ensures { TextsAreInOrder }
{}
