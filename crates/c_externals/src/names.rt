//! Names of the file scope (C99 6.7, 6.9): those of the library and `main`, and which declarations of one name may stand there.

ghost use Rattle.std.specs.Prelude.{◌≡◌, Ok, OnOk, drop, map, take};
ghost use Rattle.std.specs.Option.{option_copied, option_map};
ghost use Rattle.c_types.specs.Views.{type_of};
ghost use Rattle.c_annotated.specs.FileViews.{bound_of, entity_of, how_of};
ghost use Rattle.c_erasure.specs.Files.{bound as bound_in, library_name};
ghost use Rattle.c_types.specs.Sameness.{same_type};
ghost use Rattle.c_erasure.specs.Checking.Declaring.{declared_among, with_bound};
ghost use Rattle.c_erasure.specs.Checking.Files.{defined_among, first_named, is_main as is_main_in, library, main_type, library_named as library_named_in};
ghost use Rattle.c_erasure.specs.Checking.Files.{main_function as main_function_in};
ghost use Rattle.c_erasure.specs.Checking.Files.{main_object as main_object_in, own_name as own_name_in};
ghost use Rattle.c_externals.specs.Filing.{file_scope, once_after, place_if_any};
ghost use Rattle.c_nodes.specs.Gives.{Gives};
ghost use Rattle.c_scopes.specs.Scoping.{file_of, scope_of};

use crate::library::{Simple, is_signature};
use c_annotated::{Bound, Entity, How};
use c_ast::Spelling;
use c_nodes::{Fault, Storage, name};
use c_scopes::{FileScope, Purpose, Scope};
use c_typed::LibraryFunction;
use c_types::Ty;
use lay_base::{NoMemory, Rule};
use std::alloc::Global;

/// A name that a declarator of the file scope declares.
#[derive(Clone, Copy)]
pub struct Named<'a> {
    pub words: Storage,
    pub x: &'a Spelling,
    /// How many types the file has spoken of before the declarator.
    pub before: usize,
    /// Where the declarator begins.
    pub place: u32,
    /// From where on the name is in scope.
    pub from: u32,
    /// How many nodes the item has.
    pub nodes: u64,
}

/// The function of the library with that name, from `memset` on in the order of the list.
fn later_named(x: &[u8]) -> Option<LibraryFunction>
    ensures { result ≡ first_named (drop 5 library) x.now }
{
    if x == b"memset".as_slice() {
        Some(LibraryFunction::Memset)
    } else if x == b"memcmp".as_slice() {
        Some(LibraryFunction::Memcmp)
    } else if x == b"putchar".as_slice() {
        Some(LibraryFunction::Putchar)
    } else if x == b"getchar".as_slice() {
        Some(LibraryFunction::Getchar)
    } else if x == b"exit".as_slice() {
        Some(LibraryFunction::Exit)
    } else {
        None
    }
}

/// The function of the library with that name, which takes or gives back memory.
fn memory_named(x: &[u8]) -> Option<LibraryFunction>
    ensures { result ≡ first_named (take 3 library) x.now }
{
    if x == b"malloc".as_slice() {
        Some(LibraryFunction::Malloc)
    } else if x == b"calloc".as_slice() {
        Some(LibraryFunction::Calloc)
    } else if x == b"free".as_slice() {
        Some(LibraryFunction::Free)
    } else {
        None
    }
}

/// The function of the library with that name, which copies bytes.
fn copying_named(x: &[u8]) -> Option<LibraryFunction>
    ensures { result ≡ first_named (take 2 (drop 3 library)) x.now }
{
    if x == b"memcpy".as_slice() {
        Some(LibraryFunction::Memcpy)
    } else if x == b"memmove".as_slice() {
        Some(LibraryFunction::Memmove)
    } else {
        None
    }
}

/// The function of the library with that name.
#[tactic(auto, using(crate::proofs::LibraryNames::in_three))]
pub fn library_named(x: &[u8]) -> Option<LibraryFunction>
    ensures { result ≡ library_named_in x.now }
{
    match memory_named(x) {
        Some(which) => Some(which),
        None => match copying_named(x) {
            Some(which) => Some(which),
            None => later_named(x),
        },
    }
}

/// A name that is none of the library's, which stands at `at`.
pub fn own_name(at: u32, which: Option<LibraryFunction>) -> Result<(), Fault>
    ensures { Gives (λ done. done) result (own_name_in at which (Ok tt)) }
{
    match which {
        None => Ok(()),
        Some(_) => Err(Fault::IllTyped(Rule::Library, at)),
    }
}

#[tactic(auto, unfolding(c_erasure::specs::Checking::Files::is_main))]
fn is_main(x: &[u8]) -> bool
    ensures { result ≡ is_main_in x.now }
{
    x == b"main".as_slice()
}

/// Whether a type is that of `main`: it takes nothing and gives an `int`.
fn is_main_type(t: &Ty) -> bool
    ensures { result ≡ same_type (type_of t.now) main_type }
{
    is_signature(t, Simple::Int, &[])
}

/// A function's name, which stands at `at`: that of `main` has its type.
pub fn main_function(x: &[u8], at: u32, t: &Ty) -> Result<(), Fault>
    ensures { Gives (λ done. done) result (main_function_in x.now at (type_of t.now) (Ok tt)) }
{
    if is_main(x) && !is_main_type(t) {
        Err(Fault::IllTyped(Rule::Main, at))
    } else {
        Ok(())
    }
}

/// An object's name, which stands at `at`: that of `main` is not linked with other files.
pub fn main_object(x: &[u8], at: u32, linked: bool) -> Result<(), Fault>
    ensures { Gives (λ done. done) result (main_object_in x.now at linked (Ok tt)) }
{
    if is_main(x) && linked {
        Err(Fault::IllTyped(Rule::Main, at))
    } else {
        Ok(())
    }
}

/// The name is bound once, or its earlier declaration at that place is one too many.
pub fn once(alloc: Global, x: &Spelling, old: Option<u32>) -> Result<(), Fault>
    ensures { Gives (λ done. done) result (once_after x.now old) }
{
    match old {
        None => Ok(()),
        Some(place) => Err(Fault::Redeclared(name(alloc, x.text.as_slice())?, x.from, place)),
    }
}

/// The file scope as a place of expressions: no block stands around, and there are no locals.
pub fn at_file_scope<'a>() -> Scope<'a>
    ensures { (f : FileScope) → scope_of f result ≡ file_scope (file_of f) }
{
    Scope {
        block: None,
        purpose: Purpose::InFull,
        locals: &[],
    }
}

/// Where a name is declared first, if it is.
pub fn place_of(file: &FileScope, x: &[u8]) -> Option<u32>
    ensures { result ≡ place_if_any (declared_among (map bound_of file.now.names) x.now) }
{
    file.names.first(x).map(|b| b.place)
}

/// Where a name is defined first, if it is.
pub fn place_of_definition(file: &FileScope, x: &[u8]) -> Option<u32>
    ensures { result ≡ place_if_any (defined_among (map bound_of file.now.names) x.now) }
{
    file.names.first_definition(x).map(|b| b.place)
}

/// Binds a name in the file, from that byte on.
pub fn bind(
    file: &mut FileScope,
    x: &Spelling,
    from: u32,
    how: How,
    entity: Entity,
) -> Result<(), NoMemory>
    ensures { OnOk result (file_of file.new ≡ with_bound (file_of file.old) (bound_in x.now from (how_of how) (entity_of entity))) }
{
    let b = Bound {
        name: name(file.alloc, x.text.as_slice())?,
        place: x.from,
        from,
        how,
        entity,
    };
    file.names.add(file.alloc, b)
}
