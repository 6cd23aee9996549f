//! Where parts begin that may be missing, and from where on enumerators are known.

ghost use Rattle.std.specs.Prelude.{◌≡◌, [], ◌∷◌, MatchOption, drop, map};
ghost use Rattle.std.specs.Option.{option_map};
ghost use Rattle.c_ast.specs.Places.{first, first_declarator};
ghost use Rattle.c_ast.specs.Views.{argument_of, declarator_if_any, declarator_of, enumerator_of, enumerators_of, specifier_of};
ghost use Rattle.c_erasure.specs.Erasure.{after_all, comma_or};
ghost use Rattle.c_erasure.specs.Specifiers.{is_word};

use c_ast::{
    Argument, At, Declarator, Enumerator, Specifier, first_of_declarator, first_of_expression,
};
use c_types::Ty;
use lay_base::Boxed;

/// Where a declarator begins, or what stands after it where there is none.
pub fn first_if_any(d: &Option<Boxed<Declarator>>, after: At) -> At
    ensures { result ≡ first_declarator (declarator_if_any (option_map declarator_of d.now)) after }
{
    match d {
        Some(d) => first_of_declarator(d.get()),
        None => after,
    }
}

/// The last byte at which the enumerator before some others is not yet known: the comma of the next one, or what stands after all.
pub fn known_from(rest: &[Enumerator], after: At) -> At
    ensures { result ≡ comma_or (enumerators_of (map enumerator_of rest.now)) after }
{
    match rest {
        [next, ..] => next.comma.unwrap_or(after),
        [] => after,
    }
}

/// All but the first.
pub fn after_first(all: &[Enumerator]) -> &[Enumerator]
    ensures { result.now ≡ drop 1 all.now }
{
    match all {
        [_, more @ ..] => more,
        [] => all,
    }
}

/// The first of some types, and the others.
pub fn first_and_rest(all: &[Ty]) -> Option<(&Ty, &[Ty])>
    ensures { MatchOption result (all.now ≡ []) (λ it. all.now ≡ it.0.now ∷ it.1.now) }
{
    match all {
        [first, more @ ..] => Some((first, more)),
        [] => None,
    }
}

/// The comma after the last enumerator, or the brace.
pub fn token_after(comma: Option<At>, right: At) -> At
    ensures { result ≡ after_all comma right }
{
    comma.unwrap_or(right)
}

/// Whether a specifier is a keyword by itself.
pub fn is_keyword(specifier: &Specifier) -> bool
    ensures { result ≡ is_word (specifier_of specifier.now) }
{
    match specifier {
        Specifier::Keyword(_, _) => true,
        _ => false,
    }
}

/// Where an argument begins.
pub fn first_of_argument(item: &Argument) -> At
    ensures { result ≡ first (argument_of item.now).1 }
{
    first_of_expression(&item.value)
}
