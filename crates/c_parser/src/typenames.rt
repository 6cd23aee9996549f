//! The names that the typedefs of a file declare (C99 6.7.7).

ghost use Rattle.std.specs.Prelude.{◌≡◌, ◌++◌, map, IfOk, OnOk, option_to_list, option_map};
ghost use Rattle.c_ast.specs.WellFormed.{declared_name, declared_names, has_typedef, types_after};
ghost use Rattle.c_ast.specs.Views.{init_declarator_of, declaration_of, item_of, declarator_of, specifier_of, specifiers_of};

use c_ast::{Declarator, InitDeclarator, Item, Specifier, SpecifierKeyword};
use c_cursor::Typenames;
use lay_base::NoMemory;
use std::alloc::Global;

/// The name of a declarator, if it has one.
fn name_in(declarator: &Declarator) -> Option<&[u8]>
    ensures { option_to_list (option_map (λ name. name.now) result) ≡ declared_name (declarator_of declarator.now) }
{
    match declarator {
        Declarator::Identifier(word) => Some(word.text.as_slice()),
        Declarator::Enclosed(_, d, _) => name_in(d.get()),
        Declarator::Pointer(_, _, Some(d)) => name_in(d.get()),
        Declarator::Array(Some(d), _, _, _) => name_in(d.get()),
        Declarator::Function(Some(d), _, _, _) => name_in(d.get()),
        _ => None,
    }
}

/// Whether `typedef` stands among the specifiers.
fn has_typedef(specifiers: &[Specifier]) -> bool
    ensures { result ≡ has_typedef (specifiers_of (map specifier_of specifiers.now)) }
{
    for specifier in specifiers {
        if let Specifier::Keyword(SpecifierKeyword::Typedef, _) = specifier {
            return true;
        }
    }
    false
}

/// Adds the names of all declarators.
fn add_names(
    alloc: Global,
    types: &mut Typenames,
    declarators: &[InitDeclarator],
) -> Result<(), NoMemory>
    ensures { OnOk result (types.new ≡ types.old ++ declared_names (map init_declarator_of declarators.now)) }
{
    for one in declarators {
        if let Some(name) = name_in(&one.declarator) {
            types.add(alloc, name)?;
        }
    }
    Ok(())
}

/// Adds the names that an item declares as types.
pub fn add_types(alloc: Global, types: &mut Typenames, item: &Item) -> Result<(), NoMemory>
    ensures { OnOk result (types.new ≡ types_after types.old (item_of item.now)) }
{
    match item {
        Item::Declaration(d) if has_typedef(d.specifiers.as_slice()) => add_names(
            alloc,
            types,
            d.declarators.as_slice(),
        ),
        _ => Ok(()),
    }
}
