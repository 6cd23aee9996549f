//! What one name of the file scope declares, by its storage class and its type (C99 6.7, 6.9).

ghost use Rattle.std.specs.Prelude.{◌≡◌, Ok};
ghost use Rattle.std.specs.Option.{option_map};
ghost use Rattle.c_types.specs.Views.{type_of};
ghost use Rattle.c_ast.specs.Views.{init_declarator_of, value_of};
ghost use Rattle.c_erasure.specs.Checking.Files.{declare_as as declare_as_in, declare_object as declare_object_in, declare_typedef as declare_typedef_in};
ghost use Rattle.c_erasure.specs.Checking.Files.{define_object as define_object_in, without_value as without_value_in};
ghost use Rattle.c_nodes.specs.DeclaratorTypes.SpecifierViews.{storage_view};
ghost use Rattle.c_externals.specs.Filing.{Files};
ghost use Rattle.c_nodes.specs.Gives.{Gives};
ghost use Rattle.c_scopes.specs.Scoping.{file_of};
ghost use Rattle.c_check.specs.FileDeclarations.Declared.{function_declared, object_declared, type_declared};

use c_annotated::{Entity, How};
use c_ast::{InitDeclarator, InitialValue, Spelling};
use c_check_parts::constants_if_any;
use c_declaring::mention;
use c_externals::{
    Named, at_file_scope, bind, bind_object, declare_function, define_object, library_named, once,
    own_name, place_of,
};
use c_nodes::{Fault, Storage, object};
use c_scopes::FileScope;
use c_typed::{MentionKind, is_function};
use c_types::{Ty, copy};
use lay_base::{Place, Rule};

/// Neither a type nor a function has an initializer. `at` is where the name stands.
fn without_value(at: u32, value: &Option<InitialValue>) -> Result<(), Fault>
    ensures { Gives (λ done. done) result (without_value_in at (option_map value_of value.now) (Ok tt)) }
{
    match value {
        None => Ok(()),
        Some(_) => Err(Fault::IllTyped(Rule::Init, at)),
    }
}

/// The name of a type (C99 6.7.7).
fn declare_typedef(file: &mut FileScope, x: &Spelling, from: u32, t: &Ty) -> Result<(), Fault>
    ensures { Files result (declare_typedef_in (file_of file.old) x.now from (type_of t.now)) file.new }
{
    own_name(x.from, library_named(x.text.as_slice()))?;
    once(file.alloc, x, place_of(file, x.text.as_slice()))?;
    let entity = Entity::Typedef(copy(file.alloc, t)?);
    bind(file, x, from, How::Defines, entity)?;
    Ok(())
}

/// What the object with that number holds at first, where its declaration says it.
#[tactic(auto, using(crate::proofs::FileDeclarations::Objects::object_initialized))]
fn initialize(
    value: &Option<InitialValue>,
    file: &mut FileScope,
    n: usize,
    place: u32,
    t: &Ty,
) -> Result<(), Fault>
    ensures { Files result (define_object_in (file_of file.old) n place (option_map value_of value.now) (type_of t.now)) file.new }
{
    if value.is_none() {
        return Ok(());
    }
    let place = Place {
        file: file.number,
        at: place,
    };
    let initial = constants_if_any(value, file, at_file_scope(), t)?;
    define_object(file.alloc, &mut file.objects, n, place, initial);
    Ok(())
}

/// An object of that type, whose name is bound before its initializer is read.
#[tactic(auto, using(crate::proofs::FileDeclarations::Objects::bound_then_defined))]
fn declare_object(it: Named, t: &Ty, d: &InitDeclarator, file: &mut FileScope) -> Result<(), Fault>
    ensures { Files result
        (declare_object_in (file_of file.old) (storage_view it.entry.words) it.entry.x.now it.entry.place it.entry.from (type_of t.now)
        (option_map value_of d.now.value)) file.new }
{
    let n = bind_object(&d.value, file, it, t)?;
    initialize(&d.value, file, n, it.place, t)
}

/// The name of a type, of which the file speaks now.
fn type_declared(it: Named, t: &Ty, d: &InitDeclarator, file: &mut FileScope) -> Result<(), Fault>
    ensures { Files result (type_declared it.entry.before it.entry.place it.entry.from it.entry.x.now (type_of t.now)
        (option_map value_of d.now.value) (file_of file.old)) file.new }
{
    without_value(it.x.from, &d.value)?;
    let kind = MentionKind::Named;
    mention(file, at_file_scope(), it.before, kind, t, it.place)?;
    declare_typedef(file, it.x, it.from, t)
}

/// A function, of whose type the file speaks now.
fn function_declared(
    it: Named,
    t: &Ty,
    d: &InitDeclarator,
    file: &mut FileScope,
) -> Result<(), Fault>
    ensures { Files result (function_declared (storage_view it.entry.words) it.entry.before it.entry.place it.entry.from it.entry.x.now (type_of t.now)
        (option_map value_of d.now.value) it.entry.nodes (file_of file.old)) file.new }
{
    without_value(it.x.from, &d.value)?;
    let kind = MentionKind::Named;
    mention(file, at_file_scope(), it.before, kind, t, it.place)?;
    declare_function(file, it, t)
}

/// An object, whose type is complete where its name stands (C99 6.9.2).
fn object_declared(it: Named, t: Ty, d: &InitDeclarator, file: &mut FileScope) -> Result<(), Fault>
    ensures { Files result (object_declared (storage_view it.entry.words) it.entry.before it.entry.place it.entry.from it.entry.x.now (type_of t)
        (option_map value_of d.now.value) (file_of file.old)) file.new }
{
    let t = object(&file.records, file.tags.ended(it.x.from), it.x.from, t)?;
    let kind = MentionKind::Object;
    mention(file, at_file_scope(), it.before, kind, &t, it.place)?;
    declare_object(it, &t, d, file)
}

/// A name of that type, by its storage class.
#[tactic(auto, using(crate::proofs::FileDeclarations::NoTypedef::an_object))]
pub fn declare_as(it: Named, t: Ty, d: &InitDeclarator, file: &mut FileScope) -> Result<(), Fault>
    ensures { Files result (declare_as_in (storage_view it.entry.words) it.entry.before it.entry.place it.entry.from it.entry.x.now (type_of t)
        (init_declarator_of d.now) it.entry.nodes (file_of file.old)) file.new }
{
    if it.words == Storage::Typedef {
        type_declared(it, &t, d, file)
    } else if is_function(&t) {
        function_declared(it, &t, d, file)
    } else {
        object_declared(it, t, d, file)
    }
}
