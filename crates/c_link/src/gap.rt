//! Why units are no program.

ghost use Rattle.std.specs.Prelude.{◌≡◌};
ghost use Rattle.c_link.specs.declared.gap.Gap.TheVariants.{Memory};

use crate::limits::Passed;
use crate::troubles::Trouble;
use lay_base::{Name, NoMemory};

/// The first gap of units, in the order in which gaps are looked for.
#[derive(Drop)]
pub enum Gap {
    /// Two structures of one tag have other members (C99 6.2.7).
    TagClash(Trouble),
    /// A name with linkage has another type than where it stood first.
    NameClash(Trouble),
    /// A name is defined in two units (C99 6.9).
    Twice(Trouble),
    /// A name that is used is not defined, or no file completes the structure of a tag.
    Missing(Name),
    NoMain,
    Limit(Passed),
    Memory(NoMemory),
}

impl From<NoMemory> for Gap {
    ghost from_gives = { λ want gap. gap ≡ Memory want };

    fn from(want: NoMemory) -> Gap {
        Gap::Memory(want)
    }
}
