//! Functions of the file scope (C99 6.7, 6.9.1).

ghost use Rattle.std.specs.Prelude.{◌≡◌, IfOk, OnOk, Some, length, map, slice_get};
ghost use Rattle.std.specs.Option.{option_copied, option_map};
ghost use Rattle.c_types.specs.Views.{type_of};
ghost use Rattle.c_typed.specs.declared.operators.LibraryFunction.{LibraryFunction};
ghost use Rattle.c_annotated.specs.FileViews.{bound_of, entity_of, function_of as function_view, local_of};
ghost use Rattle.c_annotated.specs.Views.{statement_of};
ghost use Rattle.c_erasure.specs.Checking.Declaring.{declared_among};
ghost use Rattle.c_erasure.specs.Checking.Files.{declare_function as declare_function_in, declare_library as declare_library_in};
ghost use Rattle.c_erasure.specs.Checking.Files.{function_linkage_agrees, function_linked_before, function_of as function_of_in};
ghost use Rattle.c_erasure.specs.Checking.Files.{known_function as known_function_in};
ghost use Rattle.c_erasure.specs.Checking.Files.{library_named as library_named_in, new_function, with_new_function};
ghost use Rattle.c_externals.specs.Filing.{Files, function_bound, functions_with, other_place, with_body};
ghost use Rattle.c_declaring.specs.Finds.{Finds};
ghost use Rattle.c_nodes.specs.DeclaratorTypes.SpecifierViews.{storage_view};
ghost use Rattle.c_nodes.specs.Gives.{Gives};
ghost use Rattle.c_scopes.specs.Scoping.{file_of};

use crate::library::is_library_type;
use crate::names::{
    Named, bind, library_named, main_function, once, own_name, place_of_definition,
};
use crate::objects::links;
use c_annotated::{Bound, Entity, Function, How, Local, Statement};
use c_ast::Spelling;
use c_nodes::{Fault, Storage, name};
use c_scopes::FileScope;
use c_typed::LibraryFunction;
use c_types::{Ty, copy, same};
use lay_base::{List, NoMemory, Place, Rule, add};
use std::alloc::Global;
use std::mem::replace;

/// Whether a declaration may follow others of the function, which other files can name or not (C99 6.2.2).
fn linkage_agrees(words: Storage, linked: bool) -> bool
    ensures { result ≡ function_linkage_agrees (storage_view words) linked }
{
    words != Storage::Static || !linked
}

/// Whether other files can name the function with that number.
fn linked_before(file: &FileScope, n: usize) -> bool
    ensures { result ≡ function_linked_before (slice_get (file_of file.now).functions n) }
{
    match file.functions.get(n) {
        Some(g) => g.is_linked,
        None => false,
    }
}

/// The function for which a name stands already.
fn known_function(file: &FileScope, it: Named, t: &Ty, old: &Bound) -> Result<usize, Fault>
    ensures { Gives (λ n. (n, file_of file.now)) result
        (known_function_in (file_of file.now) (storage_view it.entry.words) it.entry.x.now (type_of t.now) (bound_of old.now) (entity_of old.now.entity)) }
{
    match &old.entity {
        Entity::Function(n, u) if same(u, t) && linkage_agrees(it.words, linked_before(file, *n)) =>
            { Ok(*n) }
        _ => Err(Fault::Redeclared(
            name(file.alloc, it.x.text.as_slice())?,
            it.x.from,
            old.place,
        )),
    }
}

/// A new function, of which no more is known than its declaration.
fn add_function(file: &mut FileScope, it: Named, t: &Ty) -> Result<usize, NoMemory>
    ensures number { IfOk result (λ n. n ≡ length file.old.functions) }
    ensures added { OnOk result (file_of file.new
        ≡ with_new_function (file_of file.old)
        (new_function (file_of file.old) (storage_view it.entry.words) it.entry.x.now it.entry.place (type_of t.now) it.entry.nodes)) }
{
    let n = file.functions.len();
    let g = Function {
        name: name(file.alloc, it.x.text.as_slice())?,
        place: Place {
            file: file.number,
            at: it.place,
        },
        first: it.place,
        ty: copy(file.alloc, t)?,
        is_linked: links(it.words),
        parameters: List::new(file.alloc),
        locals: List::new(file.alloc),
        body: None,
        nodes: it.nodes,
    };
    add(&mut file.functions, g)?;
    Ok(n)
}

/// The number of the function that a declaration declares.
#[tactic(auto, unfolding(c_erasure::specs::Checking::Files::function_of))]
fn function_of(file: &mut FileScope, it: Named, t: &Ty) -> Result<usize, Fault>
    ensures { let f = file_of file.old in
        Finds (λ n. n) result (function_of_in f (storage_view it.entry.words) it.entry.x.now it.entry.place (type_of t.now) it.entry.nodes
        (declared_among f.names it.entry.x.now.text)) file.new }
{
    match file.names.first(it.x.text.as_slice()) {
        Some(old) => known_function(file, it, t, old),
        None => Ok(add_function(file, it, t)?),
    }
}

/// Where a name stands in the file that is none of the library's.
fn place_of_other(file: &FileScope, x: &[u8]) -> Option<u32>
    ensures { result ≡ other_place (declared_among (map bound_of file.now.names) x.now) }
{
    match file.names.first(x) {
        None => None,
        Some(b) => match b.entity {
            Entity::LibraryFunction(_) => None,
            _ => Some(b.place),
        },
    }
}

/// A function of the library, under its own name and type. The name stands for nothing else.
#[tactic(auto, using(crate::proofs::LibraryNames::bound_once))]
fn declare_library(
    file: &mut FileScope,
    it: Named,
    t: &Ty,
    which: LibraryFunction,
) -> Result<(), Fault>
    ensures { Files result (declare_library_in (file_of file.old) (storage_view it.entry.words) it.entry.x.now it.entry.from (type_of t.now) which) file.new }
{
    if !is_library_type(t, which) || !links(it.words) {
        return Err(Fault::IllTyped(Rule::Library, it.x.from));
    }
    once(file.alloc, it.x, place_of_other(file, it.x.text.as_slice()))?;
    let entity = Entity::LibraryFunction(which);
    bind(file, it.x, it.from, How::Declares, entity)?;
    Ok(())
}

/// A function of that type.
pub fn declare_function(file: &mut FileScope, it: Named, t: &Ty) -> Result<(), Fault>
    ensures { let f = file_of file.old in
        Files result (declare_function_in f (storage_view it.entry.words) it.entry.x.now it.entry.place it.entry.from (type_of t.now) it.entry.nodes
        (library_named_in it.entry.x.now.text)) file.new }
{
    if let Some(which) = library_named(it.x.text.as_slice()) {
        return declare_library(file, it, t, which);
    }
    main_function(it.x.text.as_slice(), it.x.from, t)?;
    let n = function_of(file, it, t)?;
    let entity = Entity::Function(n, copy(file.alloc, t)?);
    bind(file, it.x, it.from, How::Declares, entity)?;
    Ok(())
}

/// The number of the function of that type and name, which is defined here.
pub fn bind_function(file: &mut FileScope, it: Named, t: &Ty) -> Result<usize, Fault>
    ensures { Finds (λ n. n) result
        (function_bound (file_of file.old) (storage_view it.entry.words) it.entry.x.now it.entry.place it.entry.from it.entry.nodes (type_of t.now)) file.new }
{
    own_name(it.x.from, library_named(it.x.text.as_slice()))?;
    main_function(it.x.text.as_slice(), it.x.from, t)?;
    let defined = place_of_definition(file, it.x.text.as_slice());
    let n = function_of(file, it, t)?;
    once(file.alloc, it.x, defined)?;
    let entity = Entity::Function(n, copy(file.alloc, t)?);
    bind(file, it.x, it.from, How::Defines, entity)?;
    Ok(n)
}

/// A function is defined: it stands there, with these parameters and other locals.
fn define(
    g: &mut Function,
    place: Place,
    nodes: u64,
    parameters: List<Local>,
    locals: List<Local>,
    body: Statement,
)
    ensures { Some (function_view g.new) ≡ with_body place nodes (map local_of parameters) (map local_of locals) (statement_of body) (Some (function_view g.old)) }
{
    g.place = place;
    g.parameters = parameters;
    g.locals = locals;
    g.body = Some(body);
    g.nodes = nodes;
}

/// The function with that number is defined.
#[tactic(auto, using(crate::proofs::Changed::function_defined, crate::proofs::Changed::no_function_defined))]
pub fn define_function(
    alloc: Global,
    functions: &mut List<Function>,
    n: usize,
    place: Place,
    nodes: u64,
    parameters: List<Local>,
    locals: List<Local>,
    body: Statement,
)
    ensures { map function_view functions.new ≡ functions_with (map function_view functions.old) n place nodes (map local_of parameters) (map local_of locals) (statement_of body) }
{
    let mut all = replace(functions, List::new(alloc)).into_vec();
    if n < all.len() {
        define(&mut all[n], place, nodes, parameters, locals, body);
    }
    *functions = List::of(all);
}
