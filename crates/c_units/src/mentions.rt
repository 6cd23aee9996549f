//! Mentions by the numbers of their types: none of a size operand of an allocation.

ghost use Rattle.std.specs.Prelude.{◌≡◌, ◌++◌, ◌∷◌, [], List as Sequence, OnOk, fold, map};
ghost use Rattle.c_annotated.specs.FileViews.{mention_of};
ghost use Rattle.c_erasure.specs.Units.{is_among};
ghost use Rattle.c_numbers.specs.TypeNumbers.Adding.{with_type};
ghost use Rattle.c_types.specs.Types.{CType};
ghost use Rattle.c_types.specs.Views.{type_of};
ghost use Rattle.c_units.specs.SizeOperands.{kept, kept_types};
ghost use Rattle.c_units.specs.NumberedParts.{mention_in};

use c_numbers::{NumberSet, TypeTable};
use c_typed::{Mention, MentionKind};
use lay_base::{List, NoMemory, Place, add};
use std::alloc::Global;

/// Adds a mention and its type, where it is not that of a size operand.
fn add_mention(
    alloc: Global,
    types: &mut TypeTable,
    found: &mut List<Mention>,
    file: u16,
    sizes: &NumberSet,
    m: &c_annotated::Mention,
) -> Result<(), NoMemory>
    ensures types { OnOk result (map type_of types.new ≡ fold with_type (map type_of types.old) (kept_types (is_among sizes.now) (mention_of m.now ∷ []))) }
    ensures numbered { (later : Sequence CType) → OnOk result (found.new
        ≡ found.old ++ map (mention_in (fold with_type (map type_of types.new) later) file) (kept (is_among sizes.now) (mention_of m.now ∷ []))) }
{
    if m.kind == MentionKind::Sizeof && sizes.contains(m.at as usize) {
        return Ok(());
    }
    types.add_copy(alloc, &m.ty)?;
    let ty = types.number(alloc, &m.ty)?;
    let place = Place { file, at: m.at };
    add(
        found,
        Mention {
            kind: m.kind,
            ty,
            place,
        },
    )
}

/// Adds mentions and their types, but for those of size operands, whose places are known. Types that are added later change no number.
#[tactic(auto, using(crate::proofs::Stable::more_types))]
pub fn add_mentions(
    alloc: Global,
    types: &mut TypeTable,
    found: &mut List<Mention>,
    file: u16,
    sizes: &NumberSet,
    all: &[c_annotated::Mention],
) -> Result<(), NoMemory>
    ensures types { OnOk result (map type_of types.new ≡ fold with_type (map type_of types.old) (kept_types (is_among sizes.now) (map mention_of all.now))) }
    ensures numbered { (later : Sequence CType) → OnOk result (found.new
        ≡ found.old ++ map (mention_in (fold with_type (map type_of types.new) later) file) (kept (is_among sizes.now) (map mention_of all.now))) }
{
    for m in all {
        add_mention(alloc, types, found, file, sizes, m)?;
    }
    Ok(())
}
