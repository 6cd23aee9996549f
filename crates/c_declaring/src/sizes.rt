//! `sizeof` (C99 6.5.3.4), of which the file lists the type.

ghost use Rattle.std.specs.Prelude.{◌≡◌, Ok};
ghost use Rattle.c_types.specs.Layouts.{size_of};
ghost use Rattle.c_types.specs.Views.{type_of};
ghost use Rattle.c_typed.specs.declared.program.MentionKind.TheVariants.{Sizeof};
ghost use Rattle.c_erasure.specs.Checking.Declaring.{with_mention};
ghost use Rattle.c_erasure.specs.Checking.Nodes.{size_node};
ghost use Rattle.c_annotated.specs.Views.{thing_of};
ghost use Rattle.c_scopes.specs.Scoping.{file_of, scope_of};
ghost use Rattle.c_declaring.specs.Adding.{measured_size, sized_size};
ghost use Rattle.c_declaring.specs.Finds.{Finds};

use crate::mentions::{mention, mentions_in};
use c_annotated::Thing;
use c_nodes::{Fault, SizedType, Start, measured, size_constant, sized};
use c_scopes::{FileScope, Scope};
use c_typed::MentionKind;
use c_types::Ty;
use lay_base::Place;

/// The constant that a `sizeof` is, whose type is listed.
fn constant(
    file: &mut FileScope,
    scope: Scope,
    before: usize,
    at: u32,
    place: Place,
    it: SizedType,
) -> Result<Thing, Fault>
    requires { it.size ≡ size_of (file_of file.old).records (type_of it.ty) }
    ensures { Finds thing_of result (Ok (
      size_node (file_of file.old).records place (type_of it.ty),
      with_mention (scope_of file.old scope.entry) before Sizeof (type_of it.ty) at (file_of file.old),
    )) file.new }
{
    match mention(file, scope, before, MentionKind::Sizeof, &it.ty, at) {
        Ok(()) => size_constant(file.alloc, place, it),
        Err(want) => Err(Fault::Memory(want)),
    }
}

/// The size of an operand, which begins at `from`, where `sizeof` stands at `begin`.
pub fn size_of_thing(
    file: &mut FileScope,
    scope: Scope,
    begin: Start,
    from: u32,
    thing: Thing,
) -> Result<Thing, Fault>
    ensures { Finds thing_of result (measured_size (scope_of file.old scope.entry) begin.count begin.at from begin.place (file_of file.old) (thing_of thing)) file.new }
{
    let before = mentions_in(file);
    let Start {
        at,
        place,
        count,
        ..
    } = begin;
    match measured(file.alloc, &file.records, count, at, from, &thing) {
        Err(fault) => Err(fault),
        Ok(it) => constant(file, scope, before, at, place, it),
    }
}

/// The size of a type, which is listed before those from that place of the list on. `sizeof` stands at `at`, and `count` records are
/// complete where the type name ends.
pub fn size_of_type(
    file: &mut FileScope,
    scope: Scope,
    before: usize,
    count: usize,
    at: u32,
    place: Place,
    t: Ty,
) -> Result<Thing, Fault>
    ensures { Finds thing_of result (sized_size (scope_of file.old scope.entry) before count at place (file_of file.old) (type_of t)) file.new }
{
    let it = sized(&file.records, count, at, t)?;
    constant(file, scope, before, at, place, it)
}
