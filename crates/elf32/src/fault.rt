//! Why bytes are refused as an ELF32 file.

ghost use Rattle.std.specs.Prelude.{◌≡◌};
ghost use Rattle.elf32.specs.declared.fault.ElfFault.TheVariants.{Memory};

use lay_base::{ElfField, NoMemory};
use thiserror::Error;

/// Why bytes are not read as an image.
#[derive(Debug, Drop, Error)]
pub enum ElfFault {
    /// The first field that the reader refuses, with the number that was found there.
    #[error("{0:?} of the ELF file is refused: {1}")]
    BadElf(ElfField, u64),
    /// No memory was left.
    #[error("out of memory")]
    Memory(NoMemory),
}

impl From<NoMemory> for ElfFault {
    ghost from_gives = { λ want fault. fault ≡ Memory want };

    fn from(want: NoMemory) -> ElfFault {
        ElfFault::Memory(want)
    }
}
