//! Definitions of functions (C99 6.9.1).

ghost use Rattle.std.specs.Prelude.{◌≡◌, Ok, OnOk, Some, IfOk, drop, map, take};
ghost use Rattle.c_types.specs.Views.{type_of, types_of};
ghost use Rattle.c_ast.specs.Places.{first_specifiers};
ghost use Rattle.c_ast.specs.Views.{declarator_of};
ghost use Rattle.c_annotated.specs.FileViews.{local_of};
ghost use Rattle.c_annotated.specs.Views.{statement_of};
ghost use Rattle.c_erasure.specs.Declarators.{closed};
ghost use Rattle.c_erasure.specs.Files.{parameters_of as parameters_in};
ghost use Rattle.c_erasure.specs.Checking.Files.{define_shape, definition_named, function_body, function_definition, function_storage, received_by};
ghost use Rattle.c_nodes.specs.DeclaratorTypes.DeclaratorViews.{shape_of};
ghost use Rattle.c_nodes.specs.DeclaratorTypes.SpecifierViews.{storage_view};
ghost use Rattle.c_externals.specs.Filing.{Files};
ghost use Rattle.c_externals.specs.Receiving.{received_of};
ghost use Rattle.c_nodes.specs.Gives.{Gives};
ghost use Rattle.c_scopes.specs.Scoping.{file_of};
ghost use Rattle.c_check.specs.FileItems.Defined.{body_in, function_if_named, specifiers_in, with_definition};

use c_annotated::{Local, Statement};
use c_ast::{Function, Spelling, first_of_declarator, first_of_specifiers};
use c_check_expressions::{base, derivations};
use c_check_statements::{Around, block_items, block_of};
use c_declaring::{declared_name, mention};
use c_externals::{
    Named, Received, at_file_scope, bind_function, define_function, parameters_of, receive,
};
use c_nodes::{Fault, Shape, Storage, derived, storage_of};
use c_scopes::{Block, FileScope};
use c_typed::MentionKind;
use c_types::Ty;
use lay_base::{Boxed, List, NoMemory, Place, Rule, split_off};
use std::alloc::Global;

/// Where a definition begins.
fn first_of_function(f: &Function) -> u32
    ensures { result ≡ first_specifiers (specifiers_in f.now) }
{
    first_of_specifiers(f.specifiers.as_slice())
}

/// The storage class of a function that is defined, whose definition begins at `at`.
fn function_storage(at: u32, words: Storage) -> Result<(), Fault>
    ensures { Gives (λ done. done) result (function_storage at (storage_view words) (Ok tt)) }
{
    match words {
        Storage::None | Storage::Extern | Storage::Static => Ok(()),
        _ => Err(Fault::IllTyped(Rule::Specifiers, at)),
    }
}

/// The first locals of a function, which are its parameters, and those after them.
#[tactic(auto, using(crate::proofs::FileItems::Bodies::first_are_all, crate::proofs::FileItems::Bodies::none_after))]
fn parted(
    alloc: Global,
    locals: List<Local>,
    count: usize,
) -> Result<(List<Local>, List<Local>), NoMemory>
    ensures first { IfOk result (λ parts. parts.0 ≡ take count locals) }
    ensures rest { IfOk result (λ parts. parts.1 ≡ drop count locals) }
{
    let mut first = locals.into_vec();
    if first.len() < count {
        return Ok((List::of(first), List::new(alloc)));
    }
    let rest = split_off(&mut first, count)?;
    Ok((List::of(first), List::of(rest)))
}

/// The function with that number is defined by a body, whose locals are these, `count` parameters first.
#[tactic(auto, using(crate::proofs::FileItems::Bodies::parted_locals))]
fn define(
    file: &mut FileScope,
    n: usize,
    place: u32,
    count: usize,
    nodes: u64,
    locals: List<Local>,
    body: Boxed<Statement>,
) -> Result<(), NoMemory>
    ensures { OnOk result
        (file_of file.new ≡ with_definition (file_of file.old) n place count nodes (map local_of locals) (statement_of body)) }
{
    let (parameters, locals) = parted(file.alloc, locals, count)?;
    let place = Place {
        file: file.number,
        at: place,
    };
    define_function(
        file.alloc,
        &mut file.functions,
        n,
        place,
        nodes,
        parameters,
        locals,
        body.into_inner(),
    );
    Ok(())
}

/// The body of the function with that number, which begins with the parameters' names in scope.
fn define_body(
    f: &Function,
    file: &mut FileScope,
    n: usize,
    place: u32,
    nodes: u64,
    result_type: &Ty,
    received: Received,
) -> Result<(), Fault>
    ensures { Files result
        (function_body (file_of file.old) n place nodes (type_of result_type.now) (body_in f.now) (received_of received)) file.new }
{
    let Received { locals, names } = received;
    let count = locals.len();
    let mut locals = locals;
    let mut block = Block { names, outer: None };
    let around = Around {
        result_type,
        in_loop: false,
        in_switch: false,
    };
    let all = block_items(f.body.as_slice(), around, file, &mut block, &mut locals)?;
    let body = block_of(file.alloc, all)?;
    define(file, n, place, count, nodes, locals, body)?;
    Ok(())
}

/// A function of that type, which gives `result_type` and takes `types`, if its parameters have names. Its name is in scope in its body.
fn define_function_of(
    f: &Function,
    it: Named,
    t: &Ty,
    result_type: &Ty,
    types: &[Ty],
    file: &mut FileScope,
) -> Result<(), Fault>
    ensures { let at = first_specifiers (specifiers_in f.now) in
        Files result (function_if_named (file_of file.old) (storage_view it.entry.words) it.entry.x.now at it.entry.place it.entry.from it.entry.nodes
        (type_of t.now) (type_of result_type.now) (body_in f.now)
        (received_by (parameters_in (declarator_of f.now.declarator)) (types_of types.now))) file.new }
{
    match receive(file.alloc, parameters_of(&f.declarator), types)? {
        None => Err(Fault::IllTyped(Rule::Specifiers, first_of_function(f))),
        Some(received) => {
            let n = bind_function(file, it, t)?;
            define_body(f, file, n, it.place, it.nodes, result_type, received)
        }
    }
}

/// A function, if that type is one's.
#[tactic(auto, using(crate::proofs::FileItems::Bodies::bound_then_defined))]
fn define_typed(f: &Function, it: Named, t: &Ty, file: &mut FileScope) -> Result<(), Fault>
    ensures { let at = first_specifiers (specifiers_in f.now) in
        Files result (define_shape (file_of file.old) (storage_view it.entry.words) it.entry.x.now it.entry.before at it.entry.place it.entry.from
        it.entry.nodes (closed (type_of t.now)) (parameters_in (declarator_of f.now.declarator)) (body_in f.now)) file.new }
{
    let Ty::Function(result_type, types) = t else {
        return Err(Fault::IllTyped(Rule::Specifiers, first_of_function(f)));
    };
    let kind = MentionKind::Named;
    mention(file, at_file_scope(), it.before, kind, t, it.place)?;
    define_function_of(f, it, t, result_type.get(), types.get().as_slice(), file)
}

/// A definition whose name is that.
fn define_name(
    f: &Function,
    base: Ty,
    x: &Spelling,
    nodes: u64,
    file: &mut FileScope,
) -> Result<(), Fault>
    ensures { let d = declarator_of f.now.declarator in
        Files result (definition_named (file_of file.old) (specifiers_in f.now) (type_of base) d f.now.open nodes (body_in f.now) (Some x.now)) file.new }
{
    let it = Named {
        words: storage_of(f.specifiers.as_slice()),
        x,
        before: file.mentions.len(),
        place: first_of_declarator(&f.declarator),
        from: f.open,
        nodes,
    };
    let steps = derivations(&f.declarator, file, at_file_scope())?;
    match derived(file.alloc, &file.records, steps, base)? {
        Shape::Closed(t) => define_typed(f, it, &t, file),
        Shape::OpenArray(_) => Err(Fault::IllTyped(Rule::Specifiers, first_of_function(f))),
    }
}

/// The definition of a function, in an item of that many nodes.
pub fn definition(f: &Function, nodes: u64, file: &mut FileScope) -> Result<(), Fault>
    ensures { Files result
        (function_definition (specifiers_in f.now) (declarator_of f.now.declarator) f.now.open (body_in f.now) (file_of file.old) nodes) file.new }
{
    function_storage(first_of_function(f), storage_of(f.specifiers.as_slice()))?;
    let base = base(&f.specifiers, file, at_file_scope())?;
    match declared_name(&f.declarator) {
        None => Err(Fault::IllTyped(Rule::Specifiers, first_of_function(f))),
        Some(x) => define_name(f, base, x, nodes, file),
    }
}
