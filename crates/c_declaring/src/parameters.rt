//! Parameters in declarators (C99 6.7.5.3).

ghost use Rattle.std.specs.Prelude.{◌≡◌, ◌++◌, ◌∷◌, [], OnOk};
ghost use Rattle.std.specs.Option.{option_copied, option_map};
ghost use Rattle.c_types.specs.Views.{type_of};
ghost use Rattle.c_ast.specs.Views.{declarator_if_any, declarator_of, parameter_of};
ghost use Rattle.c_erasure.specs.Declarators.{declared_name};
ghost use Rattle.c_erasure.specs.Checking.Answers.{with_file};
ghost use Rattle.c_erasure.specs.Checking.Declaring.{new_if_named, scalar_parameter};
ghost use Rattle.c_nodes.specs.DeclaratorTypes.DeclaratorViews.{derivations_of, shape_of};
ghost use Rattle.c_scopes.specs.Scoping.{blocks_around, file_of, scope_of};
ghost use Rattle.c_scopes.specs.Views.{blocks_of};
ghost use Rattle.c_scopes.specs.declared.file_scope.FileScope.{FileScope};
ghost use Rattle.c_declaring.specs.Adding.{blocks_with, parameter_in, parameter_made, scope_within};
ghost use Rattle.c_declaring.specs.Finds.{Finds};

use crate::members::listed;
use crate::repeated::name_if_any;
use c_annotated::{Bound, Entity, How};
use c_ast::{Declarator, Parameter, Spelling};
use c_nodes::{Derivation, Fault, Shape, derived, name, parameter_type, scalar};
use c_scopes::{Block, BoundNames, FileScope, Scope, here};
use c_types::{Ty, copy};
use lay_base::{Boxed, List, NoMemory, add};
use std::alloc::Global;

/// The type of a parameter, whose name is new in its list.
#[tactic(auto, using(crate::proofs::Kept::unchanged))]
fn new_parameter(
    file: &FileScope,
    scope: Scope,
    x: Option<&Spelling>,
    at: u32,
    t: Ty,
) -> Result<Ty, Fault>
    ensures { Finds type_of result (new_if_named (scope_of file.now scope.entry) (option_copied x.entry)
        (with_file (file_of file.now) (scalar_parameter at (type_of t)))) file.now }
{
    if let Some(x) = x {
        if let Some(old) = here(file, scope, x.text.as_slice()) {
            return Err(Fault::Redeclared(name(file.alloc, x.text.as_slice())?, x.from, old.place));
        }
    }
    scalar(at, t)
}

/// The type of a parameter, by what its declarator makes.
fn made(
    file: &mut FileScope,
    scope: Scope,
    before: usize,
    at: u32,
    x: Option<&Spelling>,
    shape: Shape,
) -> Result<Ty, Fault>
    ensures { Finds type_of result (parameter_made (scope_of file.old scope.entry) before at (option_copied x.entry) (file_of file.old) (shape_of shape)) file.new }
{
    let t = parameter_type(file.alloc, shape)?;
    let t = new_parameter(file, scope, x, at, t)?;
    listed(file, scope, before, at, t)
}

/// The type of a parameter, by the steps of its declarator, which stands at `at`. It is listed before those from that place of the list on.
pub fn parameter(
    file: &mut FileScope,
    scope: Scope,
    before: usize,
    at: u32,
    d: &Option<Boxed<Declarator>>,
    steps: List<Derivation>,
    base: Boxed<Ty>,
) -> Result<Ty, Fault>
    ensures { Finds type_of result (parameter_in (scope_of file.old scope.entry) before at
        (declared_name (declarator_if_any (option_map declarator_of d.now))) (file_of file.old) (derivations_of steps) (type_of base)) file.new }
{
    let shape = derived(file.alloc, &file.records, steps, base.into_inner())?;
    made(file, scope, before, at, name_if_any(d), shape)
}

/// Adds the name of a parameter, where it has one, to a block.
fn add_name(
    alloc: Global,
    block: &mut Block,
    d: &Option<Boxed<Declarator>>,
    t: &Ty,
) -> Result<(), NoMemory>
    ensures { OnOk result (blocks_of block.new
        ≡ blocks_with (blocks_of block.old) (declared_name (declarator_if_any (option_map declarator_of d.now))) (type_of t.now)) }
{
    let Some(x) = name_if_any(d) else {
        return Ok(());
    };
    let entity = Entity::Parameter(copy(alloc, t)?);
    let bound = Bound {
        name: name(alloc, x.text.as_slice())?,
        place: x.from,
        from: x.from,
        how: How::Defines,
        entity,
    };
    block.names.add(alloc, bound)
}

/// Adds a parameter of a type to those before, and its name to a block.
pub fn add_parameter(
    alloc: Global,
    block: &mut Block,
    done: &mut List<Ty>,
    p: &Parameter,
    t: Ty,
) -> Result<(), NoMemory>
    ensures named { OnOk result (blocks_of block.new
        ≡ blocks_with (blocks_of block.old) (declared_name (parameter_of p.now).2) (type_of t)) }
    ensures added { OnOk result (done.new ≡ done.old ++ t ∷ []) }
{
    add_name(alloc, block, &p.declarator, &t)?;
    add(done, t)
}

/// A block without names, inside the blocks around.
pub fn new_block<'a>(alloc: Global, scope: Scope<'a>) -> Block<'a>
    ensures { blocks_of result ≡ [] ∷ blocks_around scope.entry.block }
{
    Block {
        names: BoundNames::new(alloc),
        outer: scope.block,
    }
}

/// The same place, inside a block.
pub fn within<'a>(block: &'a Block<'a>, scope: Scope<'a>) -> Scope<'a>
    ensures { (file : FileScope) → scope_of file result ≡ scope_within file (blocks_of block.now) scope.entry }
{
    Scope {
        block: Some(block),
        purpose: scope.purpose,
        locals: scope.locals,
    }
}
