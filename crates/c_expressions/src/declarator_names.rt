//! Declarators with and without a name.

ghost use Rattle.std.specs.Prelude.{◌≡◌};
ghost use Rattle.std.specs.Option.{option_map};
ghost use Rattle.c_ast.specs.WellFormed.{has_name};
ghost use Rattle.c_ast.specs.Views.{declarator_if_any, declarator_of};

use c_ast::Declarator;
use lay_base::Boxed;

/// Whether a declarator has a name.
pub fn has_name(declarator: &Declarator) -> bool
    ensures { result ≡ has_name (declarator_of declarator.now) }
{
    match declarator {
        Declarator::Identifier(_) => true,
        Declarator::Enclosed(_, d, _) => has_name(d.get()),
        Declarator::Pointer(_, _, Some(d)) => has_name(d.get()),
        Declarator::Array(Some(d), _, _, _) => has_name(d.get()),
        Declarator::Function(Some(d), _, _, _) => has_name(d.get()),
        _ => false,
    }
}

/// Whether there is a declarator that has a name.
pub fn is_named(declarator: &Option<Boxed<Declarator>>) -> bool
    ensures { result ≡ has_name (declarator_if_any (option_map declarator_of declarator.now)) }
{
    match declarator {
        Some(declarator) => has_name(declarator.get()),
        None => false,
    }
}
