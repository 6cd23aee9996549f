//! Initializers of locals with numbers of types.

ghost use Rattle.std.specs.Prelude.{◌≡◌, IfOk, map};
ghost use Rattle.std.specs.Option.{option_map};
ghost use Rattle.c_annotated.specs.Views.{expression_of as noted_expression, initializer_of as noted_initializer};
ghost use Rattle.c_annotated.specs.Views.{part_of as noted_part};
ghost use Rattle.c_numbered.specs.Numbered.{numbered};
ghost use Rattle.c_typed.specs.Mapped.{mapped, mapped_initializer, mapped_part};
ghost use Rattle.c_typed.specs.Views.{expression_of, initializer_of, part_of};

use crate::expressions::{Numbering, operand, path};
use c_annotated::Noted;
use c_typed::{Expression, Initializer, InitializerPart, PartValue};
use lay_base::{Boxed, Bytes, List, NoMemory, add, copied, with_room};

/// An expression, where there is one.
pub fn optional_expression(
    by: Numbering,
    e: &Option<Boxed<Expression<Noted>>>,
) -> Result<Option<Boxed<Expression>>, NoMemory>
    ensures { IfOk result (λ r. option_map expression_of r ≡ option_map (mapped (numbered by.entry.types.now)) (option_map noted_expression e.now)) }
{
    Ok(match e {
        None => None,
        Some(e) => Some(operand(by, e)?),
    })
}

fn part(by: Numbering, it: &InitializerPart<Noted>) -> Result<InitializerPart, NoMemory>
    ensures { IfOk result (λ r. part_of r ≡ mapped_part (numbered by.entry.types.now) (noted_part it.now)) }
{
    let value = match &it.value {
        PartValue::Value(e) => PartValue::Value(operand(by, e)?),
        PartValue::Record(p) => PartValue::Record(path(by, p)?),
        PartValue::Text(bytes) => PartValue::Text(Bytes::of(copied(by.alloc, bytes.as_slice())?)),
    };
    Ok(InitializerPart {
        offset: it.offset,
        value,
    })
}

fn parts(by: Numbering, all: &[InitializerPart<Noted>]) -> Result<List<InitializerPart>, NoMemory>
    ensures { IfOk result (λ r. map part_of r ≡ map (mapped_part (numbered by.entry.types.now)) (map noted_part all.now)) }
{
    let mut done = with_room(by.alloc, all.len())?;
    for it in all {
        add(&mut done, part(by, it)?)?;
    }
    Ok(done)
}

/// An initializer, where there is one.
pub fn optional_initializer(
    by: Numbering,
    initial: &Option<Initializer<Noted>>,
) -> Result<Option<Initializer>, NoMemory>
    ensures { IfOk result (λ r. option_map initializer_of r ≡ option_map (mapped_initializer (numbered by.entry.types.now)) (option_map noted_initializer initial.now)) }
{
    match initial {
        None => Ok(None),
        Some(Initializer::Value(e)) => Ok(Some(Initializer::Value(operand(by, e)?))),
        Some(Initializer::Record(p)) => Ok(Some(Initializer::Record(path(by, p)?))),
        Some(Initializer::Parts(all)) => Ok(Some(Initializer::Parts(parts(by, all.as_slice())?))),
    }
}
