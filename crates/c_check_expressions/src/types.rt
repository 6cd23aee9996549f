//! Type names and specifiers (C99 6.7.2, 6.7.6).

ghost use Rattle.std.specs.Prelude.{map};
ghost use Rattle.std.specs.Option.{option_map};
ghost use Rattle.c_types.specs.Views.{field_of, type_of};
ghost use Rattle.c_ast.specs.Places.{first_specifiers};
ghost use Rattle.c_ast.specs.Views.{enumerator_of, enumerator_value_of, enumerators_of, member_declaration_of, member_declarations_of, member_declarator_of};
ghost use Rattle.c_ast.specs.Views.{member_declarators_of, one_value_of, specifier_of, specifiers_of, type_name_of};
ghost use Rattle.c_erasure.specs.Checking.Declaring.{base_kind as base_kind_of};
ghost use Rattle.c_erasure.specs.Checking.Finding.{base_type, enumerator_value, enumerators, member_declarators, members, one_of, specified, type_name};
ghost use Rattle.c_scopes.specs.Scoping.{file_of, scope_of};
ghost use Rattle.c_check_expressions.specs.Finds.{Finds};
ghost use Rattle.c_check_expressions.specs.Parts.{base_alone, enumeration_found, enumerator_found, line_found, member_found, structure_found};

use crate::declarators::{derivations, derivations_if_any};
use crate::expressions::constant;
use crate::places::{after_first, first_if_any, is_keyword, known_from, token_after};
use crate::start::begins_at;
use c_ast::{
    Enumerator, EnumeratorValue, MemberDeclaration, MemberDeclarator, Specifier, Spelling,
    TypeName, first_of_declarator, first_of_expression, first_of_specifiers,
};
use c_declaring::{
    add_members, begin, completed, declare_enumerator, enumerated, enumeration, member,
    mentions_in, named_type, tagged, typename,
};
use c_nodes::{Base, Fault, Storage, base_kind, int_value, next_value, storage_of};
use c_scopes::{FileScope, Scope};
use c_types::{Field, Ty};
use lay_base::{Boxed, List, Rule, add, boxed};

/// The type that a type name names (C99 6.7.6).
#[cycle(finding)]
#[tactic(auto, unfolding(c_erasure::specs::Checking::Finding::type_name))]
pub fn type_name(n: &TypeName, file: &mut FileScope, scope: Scope) -> Result<Ty, Fault>
    ensures { Finds type_of result (type_name (type_name_of n.now) (scope_of file.old scope.entry)) file.new }
{
    let at = first_if_any(&n.declarator, first_of_specifiers(n.specifiers.as_slice()));
    match base_alone(&n.specifiers, file, scope) {
        Err(fault) => Err(fault),
        Ok(t) => {
            let before = mentions_in(file);
            match derivations_if_any(&n.declarator, file, scope) {
                Err(fault) => Err(fault),
                Ok(steps) => named_type(file, scope, before, at, steps, t),
            }
        }
    }
}

/// The type that specifiers name, among which no storage class stands.
#[cycle(finding)]
fn base_alone(
    specifiers: &List<Specifier>,
    file: &mut FileScope,
    scope: Scope,
) -> Result<Boxed<Ty>, Fault>
    ensures { Finds type_of result (base_alone (specifiers_of (map specifier_of specifiers.now)) (scope_of file.old scope.entry)) file.new }
{
    match storage_of(specifiers.as_slice()) {
        Storage::None => boxed_base(specifiers, file, scope),
        _ => Err(Fault::IllTyped(Rule::Specifiers, first_of_specifiers(specifiers.as_slice()))),
    }
}

/// The type that specifiers name (C99 6.7.2).
#[cycle(finding)]
pub fn boxed_base(
    specifiers: &List<Specifier>,
    file: &mut FileScope,
    scope: Scope,
) -> Result<Boxed<Ty>, Fault>
    ensures { Finds type_of result (base_type (base_kind_of (specifiers_of (map specifier_of specifiers.now)))
        (first_specifiers (specifiers_of (map specifier_of specifiers.now))) (file_of file.old)
        (one_of (specifiers_of (map specifier_of specifiers.now)) (scope_of file.old scope.entry))) file.new }
{
    match base(specifiers, file, scope) {
        Err(fault) => Err(fault),
        Ok(t) => match boxed(file.alloc, t) {
            Ok(t) => Ok(t),
            Err(want) => Err(Fault::Memory(want)),
        },
    }
}

/// The type that specifiers name (C99 6.7.2), beside which storage classes may stand.
#[cycle(finding)]
pub fn base(specifiers: &List<Specifier>, file: &mut FileScope, scope: Scope) -> Result<Ty, Fault>
    ensures { Finds type_of result (base_type (base_kind_of (specifiers_of (map specifier_of specifiers.now)))
        (first_specifiers (specifiers_of (map specifier_of specifiers.now))) (file_of file.old)
        (one_of (specifiers_of (map specifier_of specifiers.now)) (scope_of file.old scope.entry))) file.new }
{
    match base_kind(specifiers.as_slice()) {
        Base::Void => Ok(Ty::Void),
        Base::Int(kind) => Ok(Ty::Int(kind)),
        Base::One => one_of(specifiers, file, scope),
        Base::Missing => Err(Fault::IllTyped(
            Rule::Specifiers,
            first_of_specifiers(specifiers.as_slice()),
        )),
    }
}

/// The type of the first specifier that is no keyword.
#[cycle(finding)]
fn one_of(specifiers: &List<Specifier>, file: &mut FileScope, scope: Scope) -> Result<Ty, Fault>
    ensures { Finds type_of result (one_of (specifiers_of (map specifier_of specifiers.now)) (scope_of file.old scope.entry)) file.new }
{
    for specifier in specifiers.as_slice() {
        if !is_keyword(specifier) {
            return specified(specifier, file, scope);
        }
    }
    Err(Fault::IllTyped(Rule::Specifiers, 0))
}

/// The type that one specifier names.
#[cycle(finding)]
#[tactic(auto, unfolding(c_erasure::specs::Checking::Finding::specified))]
fn specified(specifier: &Specifier, file: &mut FileScope, scope: Scope) -> Result<Ty, Fault>
    ensures { Finds type_of result (specified (specifier_of specifier.now) (scope_of file.old scope.entry)) file.new }
{
    match specifier {
        Specifier::Keyword(_, at) => Err(Fault::IllTyped(Rule::Specifiers, *at)),
        Specifier::Typename(x) => typename(file, scope, x),
        Specifier::Struct(at, x) => tagged(file, scope, *at, x),
        Specifier::StructBody(at, x, _, all, _) => structure(all, file, scope, *at, x),
        Specifier::Enum(_, x) => enumerated(file, x),
        Specifier::EnumBody(at, x, _, all, comma, right) => {
            let after = token_after(*comma, *right);
            enumeration_of(all, file, scope, *at, after, x)
        }
    }
}

/// The definition of a structure (C99 6.7.2.1), whose `struct` stands at `at`.
#[cycle(finding)]
#[tactic(auto, using(crate::proofs::Structures::may_begin, crate::proofs::Structures::may_not_begin, crate::proofs::FieldObjects::fields_are_objects))]
fn structure(
    all: &List<MemberDeclaration>,
    file: &mut FileScope,
    scope: Scope,
    at: u32,
    x: &Option<Spelling>,
) -> Result<Ty, Fault>
    ensures { Finds type_of result
        (structure_found at x.now (member_declarations_of (map member_declaration_of all.now)) (scope_of file.old scope.entry)) file.new }
{
    match begin(file, scope, at, x) {
        Err(fault) => Err(fault),
        Ok(heading) => match members(all, file, scope) {
            Err(fault) => Err(fault),
            Ok(fields) => completed(file, at, x, all, heading, fields),
        },
    }
}

/// The fields of a structure.
#[cycle(finding)]
fn members(
    all: &List<MemberDeclaration>,
    file: &mut FileScope,
    scope: Scope,
) -> Result<List<Field>, Fault>
    ensures { Finds (map field_of) result (members (member_declarations_of (map member_declaration_of all.now)) (scope_of file.old scope.entry)) file.new }
{
    let mut done = List::new(file.alloc);
    for line in all.as_slice() {
        match line_members(line, file, scope) {
            Err(fault) => return Err(fault),
            Ok(own) => match add_members(&mut done, own) {
                Ok(()) => {}
                Err(want) => return Err(Fault::Memory(want)),
            },
        }
    }
    Ok(done)
}

/// The fields of one declaration of a structure.
#[cycle(finding)]
fn line_members(
    line: &MemberDeclaration,
    file: &mut FileScope,
    scope: Scope,
) -> Result<List<Field>, Fault>
    ensures { Finds (map field_of) result (line_found (member_declaration_of line.now).0 (member_declaration_of line.now).1
        (member_declaration_of line.now).2 (scope_of file.old scope.entry)) file.new }
{
    match base_alone(&line.specifiers, file, scope) {
        Err(fault) => Err(fault),
        Ok(t) => member_declarators(&line.declarators, file, scope, line.semicolon, t.get()),
    }
}

/// The fields of a type and the declarators of a line, which ends at `semicolon`.
#[cycle(finding)]
fn member_declarators(
    all: &List<MemberDeclarator>,
    file: &mut FileScope,
    scope: Scope,
    semicolon: u32,
    base: &Ty,
) -> Result<List<Field>, Fault>
    ensures { Finds (map field_of) result (member_declarators (member_declarators_of (map member_declarator_of all.now)) (type_of base.now) semicolon
        (scope_of file.old scope.entry)) file.new }
{
    let mut done = List::new(file.alloc);
    for d in all.as_slice() {
        match member_declarator(d, file, scope, semicolon, base) {
            Err(fault) => return Err(fault),
            Ok(field) => match add(&mut done, field) {
                Ok(()) => {}
                Err(want) => return Err(Fault::Memory(want)),
            },
        }
    }
    Ok(done)
}

/// A field.
#[cycle(finding)]
fn member_declarator(
    d: &MemberDeclarator,
    file: &mut FileScope,
    scope: Scope,
    semicolon: u32,
    base: &Ty,
) -> Result<Field, Fault>
    ensures { Finds field_of result (member_found (member_declarator_of d.now).1 (type_of base.now) semicolon (scope_of file.old scope.entry)) file.new }
{
    let begin = begins_at(file, scope, first_of_declarator(&d.declarator));
    let before = mentions_in(file);
    match derivations(&d.declarator, file, scope) {
        Err(fault) => Err(fault),
        Ok(steps) => member(file, scope, before, begin, &d.declarator, steps, base),
    }
}

/// The definition of an enumeration (C99 6.7.2.2), whose `enum` stands at `at`. Its last enumerator is known from `after` on.
#[cycle(finding)]
fn enumeration_of(
    all: &List<Enumerator>,
    file: &mut FileScope,
    scope: Scope,
    at: u32,
    after: u32,
    x: &Option<Spelling>,
) -> Result<Ty, Fault>
    ensures { Finds type_of result (enumeration_found at (enumerators_of (map enumerator_of all.now)) after x.now (scope_of file.old scope.entry)) file.new }
{
    if scope.block.is_some() {
        return Err(Fault::IllTyped(Rule::Scope, at));
    }
    match enumerators(all, file, scope, after) {
        Err(fault) => Err(fault),
        Ok(()) => enumeration(file, x),
    }
}

/// The enumerators of an enumeration, which are added to the names of the file.
#[cycle(finding)]
fn enumerators(
    all: &List<Enumerator>,
    file: &mut FileScope,
    scope: Scope,
    after: u32,
) -> Result<(), Fault>
    ensures { Finds (λ done. done) result (enumerators (enumerators_of (map enumerator_of all.now)) (scope_of file.old scope.entry) 0 after) file.new }
{
    let mut next: u32 = 0;
    let mut rest = all.as_slice();
    for one in all.as_slice() {
        rest = after_first(rest);
        match enumerator(one, file, scope, known_from(rest, after), next) {
            Err(fault) => return Err(fault),
            Ok(v) => next = v.wrapping_add(1),
        }
    }
    Ok(())
}

/// An enumerator, which is known from a byte on. `next` is its value where none is written.
#[cycle(finding)]
fn enumerator(
    one: &Enumerator,
    file: &mut FileScope,
    scope: Scope,
    from: u32,
    next: u32,
) -> Result<u32, Fault>
    ensures { Finds (λ v. v) result (enumerator_found (enumerator_of one.now).1 (enumerator_of one.now).2 from (scope_of file.old scope.entry) next) file.new }
{
    match enumerator_value(&one.value, file, scope, one.name.from, next) {
        Err(fault) => Err(fault),
        Ok(v) => match declare_enumerator(file, &one.name, from, v) {
            Err(fault) => Err(fault),
            Ok(()) => Ok(v),
        },
    }
}

/// The value of an enumerator, whose name stands at `at`.
#[cycle(finding)]
#[tactic(auto, unfolding(c_erasure::specs::Checking::Finding::enumerator_value))]
fn enumerator_value(
    written: &Option<EnumeratorValue>,
    file: &mut FileScope,
    scope: Scope,
    at: u32,
    next: u32,
) -> Result<u32, Fault>
    ensures { Finds (λ v. v) result
        (enumerator_value (enumerator_value_of (option_map one_value_of written.now)) (scope_of file.old scope.entry) at next) file.new }
{
    match written {
        None => next_value(at, next),
        Some(written) => match constant(written.value.get(), file, scope) {
            Err(fault) => Err(fault),
            Ok(c) => int_value(first_of_expression(written.value.get()), c),
        },
    }
}
