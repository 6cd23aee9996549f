//! Definitions of structures (C99 6.7.2.1).

ghost use Rattle.std.specs.Prelude.{◌≡◌, ◌≤◌, ◌<◌, All, IsTrue, false, map};
ghost use Rattle.c_types.specs.Layouts.{size_of, size_of_record};
ghost use Rattle.c_types.specs.Limits.{greatest_size};
ghost use Rattle.c_types.specs.Views.{field_of, record_of, records_of, type_of};
ghost use Rattle.c_ast.specs.Views.{member_declaration_of, member_declarations_of};
ghost use Rattle.c_erasure.specs.Broken.{member_names, tag_place as place_of_tag};
ghost use Rattle.c_erasure.specs.Checking.Declaring.{complete_with, completed_in, place_of_record as record_place, record_if_any};
ghost use Rattle.c_scopes.specs.Scoping.{file_of, scope_of};
ghost use Rattle.c_declaring.specs.Adding.{AreObjects, Begins, next_or_before};
ghost use Rattle.c_declaring.specs.Finds.{Finds};

use crate::repeated::repeated;
use crate::tags::{number_of, place_of};
use c_ast::{MemberDeclaration, Spelling};
use c_nodes::{Fault, name};
use c_scopes::{FileScope, Scope, place_in};
use c_types::{Field, Record, RecordFault, Records, Ty, checked_size_of};
use lay_base::{List, Name, Place, Rule};

/// The tag of a structure that is defined, and its place.
#[derive(Drop)]
pub struct Heading {
    pub tag: Name,
    pub place: Place,
}

/// The tag and the place of a structure that is defined, whose `struct` stands at `at`: at file scope, under a tag that is none of an
/// enumeration.
pub fn begin(
    file: &FileScope,
    scope: Scope,
    at: u32,
    x: &Option<Spelling>,
) -> Result<Heading, Fault>
    ensures { Begins result (scope_of file.now scope.entry) at x.now }
{
    if scope.block.is_some() {
        return Err(Fault::IllTyped(Rule::Scope, at));
    }
    let place = place_in(file, scope, at);
    let Some(x) = x else {
        let tag = name(file.alloc, file.tags.untagged(at))?;
        return Ok(Heading { tag, place });
    };
    let text = x.text.as_slice();
    match file.tags.tag_at(text, x.from) {
        Some(true) => Err(Fault::Redeclared(name(file.alloc, text)?, x.from, place_of(file, text))),
        _ => Ok(Heading {
            tag: name(file.alloc, text)?,
            place,
        }),
    }
}

/// Where the tag stands of a structure that is defined, or else its `struct`.
fn tag_place(at: u32, x: &Option<Spelling>) -> u32
    ensures { result ≡ place_of_tag at x.now }
{
    match x {
        Some(x) => x.from,
        None => at,
    }
}

/// Where the record with that number was defined; 0 where there is none.
fn record_place(file: &FileScope, number: Option<usize>) -> u32
    ensures { result ≡ record_place (record_if_any (file_of file.now).records number) }
{
    match number {
        Some(number) => match file.records.as_slice().get(number) {
            Some(record) => record.place.at,
            None => 0,
        },
        None => 0,
    }
}

/// Whether all fields are within the limit of sizes. Where one is not, the record passes it too.
fn are_bounded(records: &Records, it: &Record) -> bool
    requires { AreObjects records.now it.now.fields }
    ensures bounded { IsTrue result → All (λ f. size_of (records_of records.now) (type_of f.ty) ≤ greatest_size) it.now.fields }
    ensures passed { result ≡ false → greatest_size < size_of_record (records_of records.now) (record_of it.now) }
{
    for field in it.fields.as_slice() {
        if checked_size_of(records, &field.ty).is_none() {
            return false;
        }
    }
    true
}

/// Adds a record to those that are complete.
fn define(file: &mut FileScope, it: Record) -> Result<Ty, Fault>
    requires { AreObjects file.old.records it.fields }
    ensures { Finds type_of result (complete_with (file_of file.old) it.place.at (record_of it)) file.new }
{
    let at = it.place.at;
    if !are_bounded(&file.records, &it) {
        return Err(Fault::TooBig(at));
    }
    match file.records.add(it) {
        Ok(number) => Ok(Ty::Record(number)),
        Err(RecordFault::TooBig(_)) => Err(Fault::TooBig(at)),
        Err(RecordFault::Memory(want)) => Err(Fault::Memory(want)),
    }
}

/// Adds a record whose tag, which stands at `named`, has the next number.
fn complete(file: &mut FileScope, named: u32, it: Record) -> Result<Ty, Fault>
    requires { AreObjects file.old.records it.fields }
    ensures { Finds type_of result (next_or_before (file_of file.old) named (record_of it)) file.new }
{
    let number = number_of(file, it.tag.as_slice());
    if number == Some(file.records.len()) {
        return define(file, it);
    }
    let first = record_place(file, number);
    let Record { tag, .. } = it;
    Err(Fault::Redeclared(tag, named, first))
}

/// Adds the record of a structure whose definition ends, with fields of complete types. Its members' names differ.
#[tactic(auto, unfolding(c_erasure::specs::Checking::Declaring::completed_in))]
pub fn completed(
    file: &mut FileScope,
    at: u32,
    x: &Option<Spelling>,
    all: &List<MemberDeclaration>,
    heading: Heading,
    fields: List<Field>,
) -> Result<Ty, Fault>
    requires { AreObjects file.old.records fields }
    ensures { Finds type_of result (completed_in (file_of file.old) (place_of_tag at x.now)
        (member_names (member_declarations_of (map member_declaration_of all.now)))
        (record { tag = heading.tag; place = heading.place; fields = map field_of fields })) file.new }
{
    repeated(file.alloc, all)?;
    let Heading { tag, place } = heading;
    complete(file, tag_place(at, x), Record { tag, place, fields })
}
