//! String literals (C99 6.4.5).

ghost use Rattle.std.specs.Prelude.{◌≡◌, ◌∷◌, [], IfOk, length};
ghost use Rattle.c_types.specs.declared.ty.IntKind.TheVariants.{Char};
ghost use Rattle.c_types.specs.Types.{array, integer};
ghost use Rattle.c_types.specs.Views.{type_of};
ghost use Rattle.c_erasure.specs.Erasure.{literal_object, literal_of};
ghost use Rattle.c_erasure.specs.Checking.Declaring.{literal_in, literal_for};
ghost use Rattle.c_annotated.specs.FileViews.{object_of};
ghost use Rattle.c_annotated.specs.Views.{initializer_of, thing_of};
ghost use Rattle.c_typed.specs.Trees.{parts, text};
ghost use Rattle.c_erasure.specs.Scopes.{in_full};
ghost use Rattle.c_scopes.specs.Scoping.{scope_of};
ghost use Rattle.c_declaring.specs.Finds.{Finds};

use c_annotated::{Initializer, InitializerPart, Object, PartValue, PathNode, Thing};
use c_ast::Spelling;
use c_lexer::add_text_bytes;
use c_nodes::{Fault, unmade, way};
use c_scopes::{FileScope, Purpose, Scope};
use c_types::{IntKind, Ty};
use lay_base::{Bytes, List, Name, NoMemory, Place, add, copied, push, shared};
use std::alloc::Global;

/// The bytes of adjacent string literals, and a zero (C99 6.4.5).
pub fn literal_bytes(alloc: Global, all: &[Spelling]) -> Result<Bytes, NoMemory>
    ensures { IfOk result (λ bytes. bytes ≡ literal_of all.now) }
{
    let mut bytes = Vec::new(alloc);
    for x in all {
        add_text_bytes(&mut bytes, x.text.as_slice())?;
    }
    push(&mut bytes, 0)?;
    Ok(Bytes::of(bytes))
}

/// The type of an array of characters.
fn characters(alloc: Global, n: usize) -> Result<Ty, NoMemory>
    ensures { IfOk result (λ t. type_of t ≡ array (integer Char) n) }
{
    Ok(Ty::Array(shared(alloc, Ty::Int(IntKind::Char))?, n as u64))
}

/// What an array of characters holds at first.
fn initial_text(alloc: Global, bytes: &Bytes) -> Result<Initializer, NoMemory>
    ensures { IfOk result (λ it. initializer_of it ≡ parts (record { offset = 0; value = text bytes.now } ∷ [])) }
{
    let copy = copied(alloc, bytes.as_slice())?;
    let value = PartValue::Text(Bytes::of(copy));
    let mut all = List::new(alloc);
    add(&mut all, InitializerPart { offset: 0, value })?;
    Ok(Initializer::Parts(all))
}

/// The object of a string literal, which has that type.
fn literal_object(alloc: Global, place: Place, ty: Ty, bytes: Bytes) -> Result<Object, NoMemory>
    requires { type_of ty ≡ array (integer Char) (length bytes) }
    ensures { IfOk result (λ o. object_of o ≡ literal_object place bytes) }
{
    let initial = initial_text(alloc, &bytes)?;
    Ok(Object {
        name: Name::of(Vec::new(alloc)),
        place,
        first: place.at,
        ty,
        is_linked: false,
        literal: Some(bytes),
        initial: Some(initial),
    })
}

/// Adds the object of a string literal to the file.
fn add_object(file: &mut FileScope, scope: Scope, at: Place, bytes: Bytes) -> Result<Thing, Fault>
    ensures { Finds thing_of result (literal_for in_full (scope_of file.old scope.entry) at bytes) file.new }
{
    let number = file.objects.len();
    let n = bytes.len();
    let object = literal_object(file.alloc, at, characters(file.alloc, n)?, bytes)?;
    add(&mut file.objects, object)?;
    let t = characters(file.alloc, n)?;
    way(file.alloc, t, at, PathNode::Object(number))
}

/// What adjacent string literals designate, which stand at a place: an object of the file, where they are evaluated.
#[tactic(auto, unfolding(c_erasure::specs::Checking::Declaring::literal_in))]
pub fn literal(
    file: &mut FileScope,
    scope: Scope,
    at: Place,
    all: &[Spelling],
) -> Result<Thing, Fault>
    ensures { Finds thing_of result (literal_in (scope_of file.old scope.entry) at (literal_of all.now)) file.new }
{
    let bytes = literal_bytes(file.alloc, all)?;
    match scope.purpose {
        Purpose::InFull => add_object(file, scope, at, bytes),
        _ => unmade(file.alloc, at, &characters(file.alloc, bytes.len())?),
    }
}
