//! Objects of the file scope (C99 6.7, 6.9.2).

ghost use Rattle.std.specs.Prelude.{◌≡◌, IfOk, OnOk, Some, length, map, slice_get};
ghost use Rattle.std.specs.Option.{option_map};
ghost use Rattle.c_types.specs.Views.{type_of};
ghost use Rattle.c_ast.specs.Views.{value_of};
ghost use Rattle.c_annotated.specs.FileViews.{bound_of, entity_of, how_of, object_of};
ghost use Rattle.c_annotated.specs.Views.{initializer_of};
ghost use Rattle.c_erasure.specs.Files.{object_how as object_how_in};
ghost use Rattle.c_erasure.specs.Checking.Declaring.{declared_among};
ghost use Rattle.c_erasure.specs.Checking.Files.{known_object as known_object_in};
ghost use Rattle.c_erasure.specs.Checking.Files.{linkage_agrees as linkage_agrees_in, linked_before as linked_before_in, links as links_in, new_object};
ghost use Rattle.c_erasure.specs.Checking.Files.{object_of as object_of_in, with_new_object};
ghost use Rattle.c_externals.specs.Filing.{object_bound, objects_with, with_initial};
ghost use Rattle.c_declaring.specs.Finds.{Finds};
ghost use Rattle.c_nodes.specs.DeclaratorTypes.SpecifierViews.{storage_view};
ghost use Rattle.c_nodes.specs.Gives.{Gives};
ghost use Rattle.c_scopes.specs.Scoping.{file_of};

use crate::names::{Named, bind, library_named, main_object, once, own_name, place_of_definition};
use c_annotated::{Bound, Entity, How, Initializer, Object};
use c_ast::InitialValue;
use c_nodes::{Fault, Storage, name};
use c_scopes::FileScope;
use c_types::{Ty, copy, same};
use lay_base::{List, NoMemory, Place, add};
use std::alloc::Global;
use std::mem::replace;

/// Whether other files can name what is declared so.
pub fn links(words: Storage) -> bool
    ensures { result ≡ links_in (storage_view words) }
{
    words != Storage::Static
}

/// Whether a declaration may follow others of the object, which other files can name or not (C99 6.2.2).
fn linkage_agrees(words: Storage, linked: bool) -> bool
    ensures { result ≡ linkage_agrees_in (storage_view words) linked }
{
    match words {
        Storage::Static => !linked,
        Storage::Extern => true,
        _ => linked,
    }
}

/// Whether other files can name the object with that number.
fn linked_before(file: &FileScope, n: usize) -> bool
    ensures { result ≡ linked_before_in (slice_get (file_of file.now).objects n) }
{
    match file.objects.get(n) {
        Some(o) => o.is_linked,
        None => false,
    }
}

/// The object for which a name stands already.
fn known_object(file: &FileScope, it: Named, t: &Ty, old: &Bound) -> Result<usize, Fault>
    ensures { Gives (λ n. (n, file_of file.now)) result
        (known_object_in (file_of file.now) (storage_view it.entry.words) it.entry.x.now (type_of t.now) (bound_of old.now) (entity_of old.now.entity)) }
{
    match &old.entity {
        Entity::Object(n, u) if same(u, t) && linkage_agrees(it.words, linked_before(file, *n)) => {
            Ok(*n)
        }
        _ => Err(Fault::Redeclared(
            name(file.alloc, it.x.text.as_slice())?,
            it.x.from,
            old.place,
        )),
    }
}

/// A new object, of which no more is known than its declaration.
fn add_object(file: &mut FileScope, it: Named, t: &Ty) -> Result<usize, NoMemory>
    ensures number { IfOk result (λ n. n ≡ length file.old.objects) }
    ensures added { OnOk result (file_of file.new
        ≡ with_new_object (file_of file.old) (new_object (file_of file.old) (storage_view it.entry.words) it.entry.x.now it.entry.place (type_of t.now))) }
{
    let n = file.objects.len();
    let o = Object {
        name: name(file.alloc, it.x.text.as_slice())?,
        place: Place {
            file: file.number,
            at: it.place,
        },
        first: it.place,
        ty: copy(file.alloc, t)?,
        is_linked: links(it.words),
        literal: None,
        initial: None,
    };
    add(&mut file.objects, o)?;
    Ok(n)
}

/// The number of the object that a declaration declares.
#[tactic(auto, unfolding(c_erasure::specs::Checking::Files::object_of))]
fn object_of(file: &mut FileScope, it: Named, t: &Ty) -> Result<usize, Fault>
    ensures { let f = file_of file.old in
        Finds (λ n. n) result (object_of_in f (storage_view it.entry.words) it.entry.x.now it.entry.place (type_of t.now)
        (declared_among f.names it.entry.x.now.text)) file.new }
{
    match file.names.first(it.x.text.as_slice()) {
        Some(old) => known_object(file, it, t, old),
        None => {
            main_object(it.x.text.as_slice(), it.x.from, links(it.words))?;
            Ok(add_object(file, it, t)?)
        }
    }
}

/// With its initializer, an object stands where it is defined.
fn define(o: &mut Object, place: Place, initial: Initializer)
    ensures { Some (object_of o.new) ≡ with_initial place (initializer_of initial) (Some (object_of o.old)) }
{
    o.place = place;
    o.initial = Some(initial);
}

/// The object with that number is defined.
#[tactic(auto, using(crate::proofs::Changed::object_defined, crate::proofs::Changed::no_object_defined))]
pub fn define_object(
    alloc: Global,
    objects: &mut List<Object>,
    n: usize,
    place: Place,
    initial: Initializer,
)
    ensures { map object_of objects.new ≡ objects_with (map object_of objects.old) n place (initializer_of initial) }
{
    let mut all = replace(objects, List::new(alloc)).into_vec();
    if n < all.len() {
        define(&mut all[n], place, initial);
    }
    *objects = List::of(all);
}

/// How an object is declared: it is defined where it has an initializer, and tentatively where it is not `extern` (C99 6.9.2).
fn object_how(words: Storage, value: &Option<InitialValue>) -> How
    ensures { how_of result ≡ object_how_in (storage_view words) (option_map value_of value.now) }
{
    match value {
        Some(_) => How::Defines,
        None => match words {
            Storage::Extern => How::Declares,
            _ => How::Tentative,
        },
    }
}

/// The number of an object of that type. Its initializer is read later.
pub fn bind_object(
    value: &Option<InitialValue>,
    file: &mut FileScope,
    it: Named,
    t: &Ty,
) -> Result<usize, Fault>
    ensures { Finds (λ n. n) result
        (object_bound (file_of file.old) (storage_view it.entry.words) it.entry.x.now it.entry.place it.entry.from (type_of t.now)
        (option_map value_of value.now)) file.new }
{
    own_name(it.x.from, library_named(it.x.text.as_slice()))?;
    let defined = match value {
        Some(_) => place_of_definition(file, it.x.text.as_slice()),
        None => None,
    };
    let n = object_of(file, it, t)?;
    once(file.alloc, it.x, defined)?;
    let entity = Entity::Object(n, copy(file.alloc, t)?);
    bind(file, it.x, it.from, object_how(it.words, value), entity)?;
    Ok(n)
}
