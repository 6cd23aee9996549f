//! Types that are named, and members of structures (C99 6.7.2.1, 6.7.6).

ghost use Rattle.std.specs.Prelude.{◌≡◌, ◌++◌, Ok, OnOk};
ghost use Rattle.c_types.specs.Views.{field_of, type_of};
ghost use Rattle.c_typed.specs.declared.program.MentionKind.TheVariants.{Named};
ghost use Rattle.c_ast.specs.Views.{declarator_of};
ghost use Rattle.c_erasure.specs.Declarators.{declared_name};
ghost use Rattle.c_erasure.specs.Checking.Declaring.{with_mention};
ghost use Rattle.c_erasure.specs.Checking.Finding.{type_of_derived};
ghost use Rattle.c_nodes.specs.DeclaratorTypes.DeclaratorViews.{derivations_of};
ghost use Rattle.c_nodes.specs.Gives.{Gives};
ghost use Rattle.c_scopes.specs.Scoping.{file_of, scope_of};
ghost use Rattle.c_declaring.specs.Adding.{field_in, field_with, type_name_in};
ghost use Rattle.c_declaring.specs.Finds.{Finds};

use crate::mentions::mention;
use crate::repeated::declared_name;
use c_ast::Declarator;
use c_nodes::{Derivation, Fault, Start, closed, derived, name, object};
use c_scopes::{FileScope, Scope};
use c_typed::MentionKind;
use c_types::{Field, Ty, copy};
use lay_base::{Boxed, List, NoMemory, Place, Rule, add};

/// The type that steps make of a type, where no length is left out. The declarator stands at `at`.
fn derived_type(file: &FileScope, at: u32, steps: List<Derivation>, base: Ty) -> Result<Ty, Fault>
    ensures { Gives type_of result (type_of_derived at (file_of file.now) (derivations_of steps) (type_of base)) }
{
    let shape = derived(file.alloc, &file.records, steps, base)?;
    closed(at, shape)
}

/// Lists a type that is named.
pub fn listed(
    file: &mut FileScope,
    scope: Scope,
    before: usize,
    at: u32,
    t: Ty,
) -> Result<Ty, Fault>
    ensures { Finds type_of result
        (Ok (type_of t, with_mention (scope_of file.old scope.entry) before Named (type_of t) at (file_of file.old))) file.new }
{
    match mention(file, scope, before, MentionKind::Named, &t, at) {
        Ok(()) => Ok(t),
        Err(want) => Err(Fault::Memory(want)),
    }
}

/// The type that a type name names, by the steps of its declarator, which stands at `at`. It is listed before those from that place of the
/// list on.
pub fn named_type(
    file: &mut FileScope,
    scope: Scope,
    before: usize,
    at: u32,
    steps: List<Derivation>,
    base: Boxed<Ty>,
) -> Result<Ty, Fault>
    ensures { Finds type_of result (type_name_in (scope_of file.old scope.entry) before at (file_of file.old) (derivations_of steps) (type_of base)) file.new }
{
    let t = derived_type(file, at, steps, base.into_inner())?;
    listed(file, scope, before, at, t)
}

/// A field of a type, which is listed.
fn field(
    file: &mut FileScope,
    scope: Scope,
    before: usize,
    place: Place,
    d: &Declarator,
    t: Ty,
) -> Result<Field, Fault>
    ensures { Finds field_of result (field_with place (type_of t) (declared_name (declarator_of d.now))
        (with_mention (scope_of file.old scope.entry) before Named (type_of t) place.at (file_of file.old))) file.new }
{
    let Some(x) = declared_name(d) else {
        return Err(Fault::IllTyped(Rule::Specifiers, place.at));
    };
    let ty = listed(file, scope, before, place.at, t)?;
    let name = name(file.alloc, x.text.as_slice())?;
    Ok(Field { name, ty, place })
}

/// A field, by the steps of its declarator. Its type is listed before those from that place of the list on.
pub fn member(
    file: &mut FileScope,
    scope: Scope,
    before: usize,
    begin: Start,
    d: &Declarator,
    steps: List<Derivation>,
    base: &Ty,
) -> Result<Field, Fault>
    ensures { Finds field_of result (field_in (scope_of file.old scope.entry) before begin.count begin.place (declared_name (declarator_of d.now))
        (file_of file.old) (derivations_of steps) (type_of base.now)) file.new }
{
    let base = copy(file.alloc, base)?;
    let t = derived_type(file, begin.place.at, steps, base)?;
    let t = object(&file.records, begin.count, begin.place.at, t)?;
    field(file, scope, before, begin.place, d, t)
}

/// Adds the fields of a line to those before.
pub fn add_members(all: &mut List<Field>, more: List<Field>) -> Result<(), NoMemory>
    ensures { OnOk result (all.new ≡ all.old ++ more) }
{
    for field in more.into_vec() {
        add(all, field)?;
    }
    Ok(())
}
