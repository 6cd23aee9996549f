//! Declarations at file scope (C99 6.7).

ghost use Rattle.std.specs.Prelude.{◌≡◌, ◌+◌, drop, map};
ghost use Rattle.std.specs.Option.{option_map};
ghost use Rattle.c_types.specs.Views.{records_of, type_of};
ghost use Rattle.c_ast.specs.Trees.{and_specifier, no_specifiers};
ghost use Rattle.c_ast.specs.Views.{declaration_of, init_declarator_of, specifier_of, specifiers_of, value_of};
ghost use Rattle.c_erasure.specs.Declarators.{declared_name as declared_name_in};
ghost use Rattle.c_erasure.specs.Files.{declares_tag as declares_tag_in, may_stand_in_file as may_stand_in_file_in};
ghost use Rattle.c_erasure.specs.Marks.{after_declarator, name_from as name_from_in};
ghost use Rattle.c_erasure.specs.Checking.Files.{declarator_named, file_declaration, file_declarators};
ghost use Rattle.c_nodes.specs.DeclaratorTypes.DeclaratorViews.{derivations_of};
ghost use Rattle.c_nodes.specs.DeclaratorTypes.SpecifierViews.{storage_view};
ghost use Rattle.c_externals.specs.Filing.{Files};
ghost use Rattle.c_nodes.specs.Gives.{Gives};
ghost use Rattle.c_scopes.specs.Scoping.{file_of};
ghost use Rattle.c_check.specs.FileDeclarations.Declared.{named_declarator, type_made as type_made_in};

use crate::file_declarations::declared::declare_as;
use c_ast::{
    Declaration, InitDeclarator, Specifier, Spelling, first_of_declaration, first_of_declarator,
};
use c_check_expressions::{base, derivations};
use c_check_parts::sized;
use c_declaring::declared_name;
use c_externals::{Named, at_file_scope};
use c_nodes::{Derivation, Fault, Storage, derived, storage_of};
use c_scopes::FileScope;
use c_types::{Records, Ty, copy};
use lay_base::{List, Rule};
use std::alloc::Global;

/// The type that steps make of a type, with the length that an initializer gives. `at` is where the name stands.
fn type_made(
    alloc: Global,
    records: &Records,
    steps: List<Derivation>,
    base: &Ty,
    d: &InitDeclarator,
    at: u32,
) -> Result<Ty, Fault>
    ensures { Gives type_of result
        (type_made_in (records_of records.now) (derivations_of steps) (type_of base.now) (option_map value_of d.now.value) at) }
{
    let base = copy(alloc, base)?;
    let shape = derived(alloc, records, steps, base)?;
    sized(alloc, records, at, shape, &d.value)
}

/// A declarator with a name, which is in scope from `from` on.
fn declare_name(
    words: Storage,
    base: &Ty,
    d: &InitDeclarator,
    x: &Spelling,
    from: u32,
    nodes: u64,
    file: &mut FileScope,
) -> Result<(), Fault>
    ensures { Files result
        (named_declarator (file_of file.old) (storage_view words) (type_of base.now) (init_declarator_of d.now) from nodes x.now) file.new }
{
    let before = file.mentions.len();
    let steps = derivations(&d.declarator, file, at_file_scope())?;
    let t = type_made(file.alloc, &file.records, steps, base, d, x.from)?;
    let it = Named {
        words,
        x,
        before,
        place: first_of_declarator(&d.declarator),
        from,
        nodes,
    };
    declare_as(it, t, d, file)
}

fn declare(
    words: Storage,
    base: &Ty,
    d: &InitDeclarator,
    from: u32,
    nodes: u64,
    file: &mut FileScope,
) -> Result<(), Fault>
    ensures { let d = init_declarator_of d.now in
        Files result (declarator_named (file_of file.old) (storage_view words) (type_of base.now) d from nodes (declared_name_in d.declarator)) file.new }
{
    match declared_name(&d.declarator) {
        None => Err(Fault::IllTyped(Rule::Specifiers, first_of_declarator(&d.declarator))),
        Some(x) => declare_name(words, base, d, x, from, nodes, file),
    }
}

/// Where the declarator with that number ends: at the comma before the next one, or at the semicolon.
#[tactic(auto, using(crate::proofs::FileDeclarations::InTurn::next_comma, crate::proofs::FileDeclarations::InTurn::last_declarator))]
fn end_of(declarators: &[InitDeclarator], number: usize, semicolon: u32) -> u32
    ensures { result ≡ after_declarator (map init_declarator_of (drop (number + 1) declarators.now)) semicolon }
{
    if number >= declarators.len() {
        return semicolon;
    }
    match declarators.get(number + 1) {
        Some(next) => next.comma.unwrap_or(semicolon),
        None => semicolon,
    }
}

/// Where the name of a declarator begins to be in scope, which ends at `end`.
fn name_from(d: &InitDeclarator, end: u32) -> u32
    ensures { result ≡ name_from_in (option_map value_of d.now.value) end }
{
    match &d.value {
        Some(value) => value.equal,
        None => end,
    }
}

/// The declarators of a declaration, one after the other.
fn declare_all(
    words: Storage,
    base: &Ty,
    declarators: &[InitDeclarator],
    semicolon: u32,
    nodes: u64,
    file: &mut FileScope,
) -> Result<(), Fault>
    ensures { Files result
        (file_declarators (map init_declarator_of declarators.now) (file_of file.old) (storage_view words) (type_of base.now) semicolon nodes) file.new }
{
    for (number, d) in declarators.iter().enumerate() {
        let from = name_from(d, end_of(declarators, number, semicolon));
        match declare(words, base, d, from, nodes, file) {
            Ok(()) => {}
            Err(fault) => return Err(fault),
        }
    }
    Ok(())
}

/// Whether a specifier declares a tag or enumerators itself.
fn declares(specifier: &Specifier) -> bool
    ensures { result ≡ declares_tag_in (and_specifier (specifier_of specifier.now) no_specifiers) }
{
    match specifier {
        Specifier::Struct(_, _) | Specifier::EnumBody(_, _, _, _, _, _) => true,
        Specifier::StructBody(_, x, _, _, _) => x.is_some(),
        _ => false,
    }
}

/// Whether specifiers declare a tag or enumerators.
#[tactic(auto, using(crate::proofs::FileDeclarations::Tags::declared_first))]
fn declares_tag(specifiers: &[Specifier]) -> bool
    ensures { result ≡ declares_tag_in (specifiers_of (map specifier_of specifiers.now)) }
{
    for specifier in specifiers {
        if declares(specifier) {
            return true;
        }
    }
    false
}

/// Whether a storage class may stand at file scope (C99 6.9).
fn may_stand_in_file(words: Storage) -> bool
    ensures { result ≡ may_stand_in_file_in (storage_view words) }
{
    match words {
        Storage::None | Storage::Typedef | Storage::Extern | Storage::Static => true,
        Storage::Auto | Storage::Register | Storage::Several => false,
    }
}

/// A declaration of the file, in an item of that many nodes.
pub fn declaration(d: &Declaration, nodes: u64, file: &mut FileScope) -> Result<(), Fault>
    ensures { Files result (file_declaration (declaration_of d.now) (file_of file.old) nodes) file.new }
{
    let words = storage_of(d.specifiers.as_slice());
    if !may_stand_in_file(words) {
        return Err(Fault::IllTyped(Rule::Specifiers, first_of_declaration(d)));
    }
    let base = base(&d.specifiers, file, at_file_scope())?;
    if d.declarators.is_empty() && !declares_tag(d.specifiers.as_slice()) {
        return Err(Fault::IllTyped(Rule::Specifiers, first_of_declaration(d)));
    }
    let declarators = d.declarators.as_slice();
    declare_all(words, &base, declarators, d.semicolon, nodes, file)
}
