//! The names, locals and objects that declarations of a block add.

ghost use Rattle.std.specs.Prelude.{◌≡◌, ◌++◌, ◌∷◌, [], IfOk, None, OnOk, Some, length, map, slice_set};
ghost use Rattle.std.specs.Option.{option_map};
ghost use Rattle.c_types.specs.Views.{type_of};
ghost use Rattle.c_erasure.specs.Scopes.{defines, with_name};
ghost use Rattle.c_annotated.specs.FileViews.{bound_of, entity_of, object_of};
ghost use Rattle.c_annotated.specs.Views.{initializer_of};
ghost use Rattle.c_erasure.specs.Checking.Statements.{with_new_local};
ghost use Rattle.c_scopes.specs.declared.file_scope.FileScope.{FileScope};
ghost use Rattle.c_scopes.specs.Views.{blocks_of};
ghost use Rattle.c_check_parts.specs.BlockLocals.Parts.{object_at, with_new_object};
ghost use Rattle.c_check_parts.specs.BlockLocals.Performing.{standing};

use c_annotated::{Bound, Entity, How, Initializer, Local, Object};
use c_ast::Spelling;
use c_nodes::name;
use c_scopes::{Block, FileScope};
use c_types::{Ty, copy};
use lay_base::{List, NoMemory, Place, add};
use std::alloc::Global;
use std::mem::replace;

/// A name that defines something, whose scope begins at its end.
fn bound(alloc: Global, x: &Spelling, entity: Entity) -> Result<Bound, NoMemory>
    ensures { IfOk result (λ b. bound_of b ≡ record { name = x.now.text; place = x.now.from; from = x.now.to; how = defines; entity = entity_of entity }) }
{
    Ok(Bound {
        name: name(alloc, x.text.as_slice())?,
        place: x.from,
        from: x.to,
        how: How::Defines,
        entity,
    })
}

/// A name that the innermost block declares.
fn add_name(alloc: Global, block: &mut Block, b: Bound) -> Result<(), NoMemory>
    ensures { OnOk result (blocks_of block.new ≡ with_name (blocks_of block.old) (bound_of b)) }
{
    block.names.add(alloc, b)
}

/// A local, which is numbered in the order of its function.
pub fn add_local(
    alloc: Global,
    x: &Spelling,
    t: &Ty,
    block: &mut Block,
    locals: &mut List<Local>,
) -> Result<usize, NoMemory>
    ensures number { IfOk result (λ n. n ≡ length locals.old) }
    ensures added { OnOk result ((f : FileScope) → standing f block.new locals.new ≡ with_new_local (standing f block.old locals.old) x.now (type_of t.now)) }
{
    let n = locals.len();
    let b = bound(alloc, x, Entity::Local(n, copy(alloc, t)?))?;
    let local = Local {
        name: name(alloc, x.text.as_slice())?,
        ty: copy(alloc, t)?,
    };
    add(locals, local)?;
    add_name(alloc, block, b)?;
    Ok(n)
}

/// An object of the file that a block declares at a place.
pub fn static_object(
    alloc: Global,
    x: &Spelling,
    place: Place,
    t: &Ty,
    initial: Option<Initializer>,
) -> Result<Object, NoMemory>
    ensures { IfOk result (λ o. object_of o ≡ object_at x.now.text place (type_of t.now) (option_map initializer_of initial)) }
{
    Ok(Object {
        name: name(alloc, x.text.as_slice())?,
        place,
        first: place.at,
        ty: copy(alloc, t)?,
        is_linked: false,
        literal: None,
        initial,
    })
}

/// The object with that number is another one.
pub fn replace_object(alloc: Global, objects: &mut List<Object>, n: usize, o: Object)
    ensures { objects.new ≡ slice_set objects.old n o }
{
    let mut all = replace(objects, List::new(alloc)).into_vec();
    if n < all.len() {
        all[n] = o;
    }
    *objects = List::of(all);
}

/// An object of the file that a block declares at a place. What it holds at first is added later.
pub fn add_object(
    x: &Spelling,
    place: Place,
    t: &Ty,
    file: &mut FileScope,
    block: &mut Block,
) -> Result<usize, NoMemory>
    ensures number { IfOk result (λ n. n ≡ length file.old.objects) }
    ensures added { OnOk result ((locals : List Local) → standing file.new block.new locals
        ≡ with_new_object (standing file.old block.old locals) x.now place (type_of t.now)) }
{
    let n = file.objects.len();
    let b = bound(file.alloc, x, Entity::Object(n, copy(file.alloc, t)?))?;
    let object = static_object(file.alloc, x, place, t, None)?;
    add(&mut file.objects, object)?;
    add_name(file.alloc, block, b)?;
    Ok(n)
}
