//! Enumerations and enumerators (C99 6.7.2.2).

ghost use Rattle.std.specs.Prelude.{◌≡◌};
ghost use Rattle.std.specs.Option.{option_map};
ghost use Rattle.c_types.specs.Views.{type_of};
ghost use Rattle.c_erasure.specs.Scopes.{defines, enumerator};
ghost use Rattle.c_erasure.specs.Checking.Answers.{with_file};
ghost use Rattle.c_erasure.specs.Checking.Declaring.{enumerated_in, enumeration_of, tag_named};
ghost use Rattle.c_nodes.specs.Gives.{Gives};
ghost use Rattle.c_scopes.specs.Scoping.{file_of};
ghost use Rattle.c_declaring.specs.Adding.{with_enumerator};
ghost use Rattle.c_declaring.specs.Finds.{Finds};

use crate::tags::place_of;
use c_annotated::{Bound, Entity, How};
use c_ast::Spelling;
use c_nodes::{Fault, name};
use c_scopes::FileScope;
use c_types::{IntKind, Ty};

#[tactic(auto, unfolding(c_erasure::specs::Checking::Declaring::enumerated_in))]
fn enumerated_type(file: &FileScope, x: &Spelling) -> Result<Ty, Fault>
    ensures { Gives type_of result (enumerated_in (file_of file.now) x.now) }
{
    let tag = x.text.as_slice();
    match file.tags.tag_at(tag, x.from) {
        Some(true) => Ok(Ty::Int(IntKind::Int)),
        Some(false) => Err(Fault::Redeclared(name(file.alloc, tag)?, x.from, place_of(file, tag))),
        None => Err(Fault::Undeclared(name(file.alloc, tag)?, x.from)),
    }
}

/// `enum` and a tag, which was declared before.
#[tactic(auto, using(crate::proofs::Kept::unchanged))]
pub fn enumerated(file: &FileScope, x: &Spelling) -> Result<Ty, Fault>
    ensures { Finds type_of result (with_file (file_of file.now) (enumerated_in (file_of file.now) x.now)) file.now }
{
    enumerated_type(file, x)
}

/// Where a tag stands first.
#[tactic(auto, using(crate::proofs::Tables::place_if_any))]
fn first_place(file: &FileScope, tag: &[u8]) -> Option<u32>
    ensures { result ≡ option_map (λ t. t.place) (tag_named (file_of file.now).tags tag.now) }
{
    file.tags.place_of_tag(tag)
}

fn enumeration_type(file: &FileScope, x: &Option<Spelling>) -> Result<Ty, Fault>
    ensures { Gives type_of result (enumeration_of (file_of file.now) x.now) }
{
    let Some(x) = x else {
        return Ok(Ty::Int(IntKind::Int));
    };
    match first_place(file, x.text.as_slice()) {
        Some(first) if first != x.from => {
            Err(Fault::Redeclared(name(file.alloc, x.text.as_slice())?, x.from, first))
        }
        _ => Ok(Ty::Int(IntKind::Int)),
    }
}

/// The type of an enumeration that is defined; its tag stands nowhere else.
#[tactic(auto, using(crate::proofs::Kept::unchanged))]
pub fn enumeration(file: &FileScope, x: &Option<Spelling>) -> Result<Ty, Fault>
    ensures { Finds type_of result (with_file (file_of file.now) (enumeration_of (file_of file.now) x.now)) file.now }
{
    enumeration_type(file, x)
}

/// Adds an enumerator with its value, which is known from a byte on, to the names of the file. Its name is new.
#[tactic(auto, unfolding(c_erasure::specs::Checking::Declaring::enumerator_in))]
pub fn declare_enumerator(
    file: &mut FileScope,
    x: &Spelling,
    from: u32,
    v: u32,
) -> Result<(), Fault>
    ensures { Finds (λ done. done) result (with_enumerator (file_of file.old)
        (record { name = x.now.text; place = x.now.from; from = from; how = defines; entity = enumerator v })) file.new }
{
    let text = x.text.as_slice();
    if let Some(old) = file.names.first(text) {
        return Err(Fault::Redeclared(name(file.alloc, text)?, x.from, old.place));
    }
    let bound = Bound {
        name: name(file.alloc, text)?,
        place: x.from,
        from,
        how: How::Defines,
        entity: Entity::Enumerator(v),
    };
    file.names.add(file.alloc, bound)?;
    Ok(())
}
