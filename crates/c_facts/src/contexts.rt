//! Where an expression stands.

ghost use Rattle.std.specs.Prelude.{◌≡◌};
ghost use Rattle.c_facts.specs.Contexts.{is_free, is_permitted, passes, permitted_if};

use c_typed::LibraryFunction;

/// Where an expression stands, as far as its facts depend on that.
#[derive(Clone, Copy)]
pub enum Context {
    Plain,
    /// Where a variable may stand that becomes one variable for each part of its records.
    Permitted,
    /// As an argument of a function of the library.
    Argument(LibraryFunction),
}

pub fn is_permitted(context: Context) -> bool
    ensures { result ≡ is_permitted context }
{
    matches!(context, Context::Permitted)
}

pub fn permitted_if(permits: bool) -> Context
    ensures { result ≡ permitted_if permits }
{
    if permits {
        Context::Permitted
    } else {
        Context::Plain
    }
}

/// The function of the library to which a conversion passes its operand.
pub fn passes(context: Context, written: bool) -> Option<LibraryFunction>
    ensures { result ≡ passes context written }
{
    match context {
        Context::Argument(which) => { if written { None } else { Some(which) } }
        _ => None,
    }
}

pub fn is_free(which: Option<LibraryFunction>) -> bool
    ensures { result ≡ is_free which }
{
    matches!(which, Some(LibraryFunction::Free))
}
