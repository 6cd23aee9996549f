//! Initializers and the items of those in braces (C99 6.7.8): which parts of an object they initialize.

ghost use Rattle.std.specs.Prelude.{◌≡◌, ◌+◌, ◌++◌, IfOk, Ok, map, slice_get, true};
ghost use Rattle.std.specs.Option.{option_copied};
ghost use Rattle.c_types.specs.Layouts.{offset_of, size_of};
ghost use Rattle.c_types.specs.Views.{field_of, records_of, type_of};
ghost use Rattle.c_ast.specs.Places.{first};
ghost use Rattle.c_ast.specs.Views.{argument_of, arguments_of, expression_of};
ghost use Rattle.c_annotated.specs.Views.{part_of};
ghost use Rattle.c_erasure.specs.Initializers.{texts_of};
ghost use Rattle.c_erasure.specs.Checking.Answers.{with_file};
ghost use Rattle.c_erasure.specs.Checking.Finding.{find};
ghost use Rattle.c_erasure.specs.Checking.Initializers.{elements as elements_in, fields_from, fields_of, initialized as initialized_in};
ghost use Rattle.c_erasure.specs.Checking.Initializers.{one_value as one_value_in};
ghost use Rattle.c_erasure.specs.Checking.Initializers.{text_of_array as text_of_array_in, without_braces as without_braces_in};
ghost use Rattle.c_nodes.specs.Gives.{Gives};
ghost use Rattle.c_scopes.specs.declared.file_scope.FileScope.{FileScope};
ghost use Rattle.c_scopes.specs.Scoping.{file_of, scope_of};
ghost use Rattle.c_check_expressions.specs.Finds.{Finds};
ghost use Rattle.c_check_parts.specs.InitializerParts.Parts.{one_part, parts_after};

use crate::initializer_parts::texts::{is_text, text_of_array, texts_of};
use crate::initializer_parts::values::{one_value, without_braces};
use c_annotated::InitializerPart;
use c_ast::{Argument, Expression, Spelling, first_of_expression};
use c_initial_values::{field_offset, further, size};
use c_nodes::Fault;
use c_scopes::{FileScope, Scope};
use c_types::{Records, Ty, copy};
use lay_base::{List, NoMemory, Rule, add};
use std::alloc::Global;

/// Adds a part after others.
fn add_part(parts: &mut List<InitializerPart>, part: InitializerPart) -> Result<(), Fault>
    ensures { Gives (λ done. map part_of parts.new) result (Ok (map part_of parts.old ++ one_part part)) }
{
    Ok(add(parts, part)?)
}

/// Adds what an expression without braces initializes.
fn add_plain(
    a: &Expression,
    file: &mut FileScope,
    scope: Scope,
    t: &Ty,
    at: u32,
    parts: &mut List<InitializerPart>,
) -> Result<(), Fault>
    ensures { let a = expression_of a.now in let s = scope_of file.old scope.entry in
        Finds (λ done. map part_of parts.new) result
        (parts_after (map part_of parts.old) (without_braces_in (first a) at (type_of t.now) (texts_of a) s.file (find a s))) file.new }
{
    let part = without_braces(a, file, scope, t, at, texts_of(a))?;
    add_part(parts, part)
}

/// Adds the text of an array of characters, in braces that begin at `left`.
fn add_text(
    alloc: Global,
    left: u32,
    n: u64,
    texts: Option<&List<Spelling>>,
    at: u32,
    parts: &mut List<InitializerPart>,
) -> Result<(), Fault>
    ensures { (file : FileScope) → Finds (λ done. map part_of parts.new) result
        (parts_after (map part_of parts.old) (with_file (file_of file) (text_of_array_in left at n true (option_copied texts.entry)))) file }
{
    let part = text_of_array(alloc, left, at, n, true, texts)?;
    add_part(parts, part)
}

/// Adds what one expression alone initializes, in braces that begin at `left`.
fn add_one_value(
    left: u32,
    all: &[Argument],
    file: &mut FileScope,
    scope: Scope,
    t: &Ty,
    at: u32,
    parts: &mut List<InitializerPart>,
) -> Result<(), Fault>
    ensures { let s = scope_of file.old scope.entry in
        Finds (λ done. map part_of parts.new) result
        (parts_after (map part_of parts.old) (one_value_in left (arguments_of (map argument_of all.now)) s (type_of t.now) at)) file.new }
{
    let part = one_value(left, all, file, scope, t, at)?;
    add_part(parts, part)
}

/// The types of some fields, in their order.
fn types_of_fields(alloc: Global, fields: &[c_types::Field]) -> Result<List<Ty>, NoMemory>
    ensures { IfOk result (λ types. map type_of types ≡ map (λ f. f.ty) (map field_of fields.now)) }
{
    let mut types = List::new(alloc);
    for field in fields {
        add(&mut types, copy(alloc, &field.ty)?)?;
    }
    Ok(types)
}

/// The types of the fields of the record with that number.
fn field_types(alloc: Global, records: &Records, r: usize) -> Result<List<Ty>, NoMemory>
    ensures { IfOk result (λ types. map type_of types ≡ map (λ f. f.ty) (fields_of (slice_get (records_of records.now) r))) }
{
    match records.as_slice().get(r) {
        Some(record) => types_of_fields(alloc, record.fields.as_slice()),
        None => Ok(List::new(alloc)),
    }
}

/// Where the next element of an array begins.
fn after_element(alloc: Global, records: &Records, element: &Ty, at: u32) -> Result<u32, NoMemory>
    ensures { IfOk result (λ next. next ≡ at + size_of (records_of records.now) (type_of element.now)) }
{
    further(alloc, at, size(records, element))
}

/// Where a field begins of a record that begins at the byte `at` of the whole.
fn field_at(alloc: Global, records: &Records, r: usize, k: usize, at: u32) -> Result<u32, NoMemory>
    ensures { IfOk result (λ from. from ≡ at + offset_of (records_of records.now) r k) }
{
    further(alloc, at, u64::from(field_offset(records, r, k)))
}

/// Adds the parts of an object of a type that begins at the byte `at` of the whole.
#[cycle(initializers)]
#[tactic(auto, unfolding(c_erasure::specs::Checking::Initializers::initialized))]
pub fn initialized(
    a: &Expression,
    file: &mut FileScope,
    scope: Scope,
    t: &Ty,
    at: u32,
    parts: &mut List<InitializerPart>,
) -> Result<(), Fault>
    ensures { let s = scope_of file.old scope.entry in
        Finds (λ done. map part_of parts.new) result (parts_after (map part_of parts.old) (initialized_in (expression_of a.now) s (type_of t.now) at)) file.new }
{
    match a {
        Expression::Braces(left, all, _, _) => match t {
            Ty::Array(element, n) => {
                let texts = texts_of(a);
                if is_text(element.get(), texts) {
                    add_text(file.alloc, *left, *n, texts, at, parts)
                } else {
                    elements(all.as_slice(), file, scope, element.get(), *n, at, parts)
                }
            }
            Ty::Record(r) => fields(all.as_slice(), file, scope, *r, at, parts),
            Ty::Int(_) | Ty::Pointer(_) => {
                add_one_value(*left, all.as_slice(), file, scope, t, at, parts)
            }
            Ty::Void | Ty::Function(_, _) => Err(Fault::IllTyped(Rule::Init, *left)),
        },
        _ => add_plain(a, file, scope, t, at, parts),
    }
}

/// Adds the parts of the elements of an array from one on, of which there are `n`.
#[cycle(initializers)]
fn elements(
    all: &[Argument],
    file: &mut FileScope,
    scope: Scope,
    element: &Ty,
    n: u64,
    at: u32,
    parts: &mut List<InitializerPart>,
) -> Result<(), Fault>
    ensures { let s = scope_of file.old scope.entry in
        Finds (λ done. map part_of parts.new) result
        (parts_after (map part_of parts.old) (elements_in (arguments_of (map argument_of all.now)) s (type_of element.now) n at)) file.new }
{
    let mut left = n;
    let mut from = at;
    for item in all {
        if left == 0 {
            return Err(Fault::IllTyped(Rule::Init, first_of_expression(&item.value)));
        }
        left -= 1;
        match initialized(&item.value, file, scope, element, from, parts) {
            Ok(()) => {}
            Err(fault) => return Err(fault),
        }
        match after_element(file.alloc, &file.records, element, from) {
            Ok(next) => from = next,
            Err(want) => return Err(Fault::Memory(want)),
        }
    }
    Ok(())
}

/// Adds the parts of the fields of the record with the number `r`.
#[cycle(initializers)]
fn fields(
    all: &[Argument],
    file: &mut FileScope,
    scope: Scope,
    r: usize,
    at: u32,
    parts: &mut List<InitializerPart>,
) -> Result<(), Fault>
    ensures { let s = scope_of file.old scope.entry in
        Finds (λ done. map part_of parts.new) result
        (parts_after (map part_of parts.old) (fields_from (arguments_of (map argument_of all.now)) s r 0 (fields_of (slice_get s.file.records r)) at)) file.new }
{
    // The file may change with each item, so the types are copied before.
    let types = match field_types(file.alloc, &file.records, r) {
        Ok(types) => types,
        Err(want) => return Err(Fault::Memory(want)),
    };
    let listed = types.as_slice();
    for (k, item) in all.iter().enumerate() {
        if k >= listed.len() {
            return Err(Fault::IllTyped(Rule::Init, first_of_expression(&item.value)));
        }
        match field_at(file.alloc, &file.records, r, k, at) {
            Ok(from) => match initialized(&item.value, file, scope, &listed[k], from, parts) {
                Ok(()) => {}
                Err(fault) => return Err(fault),
            },
            Err(want) => return Err(Fault::Memory(want)),
        }
    }
    Ok(())
}
