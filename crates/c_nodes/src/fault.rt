//! Why a file is refused.

ghost use Rattle.std.specs.Prelude.{◌≡◌};
ghost use Rattle.c_nodes.specs.declared.fault.Fault.TheVariants.{Memory};

use lay_base::{Name, NoMemory, Rule};

/// A fault of a file. Places are bytes of the file.
#[derive(Drop)]
pub enum Fault {
    /// A type passes a limit there.
    TooBig(u32),
    IllTyped(Rule, u32),
    /// A name that is not declared.
    Undeclared(Name, u32),
    /// A name that is declared a second time: where, and where first.
    Redeclared(Name, u32, u32),
    Memory(NoMemory),
}

impl From<NoMemory> for Fault {
    ghost from_gives = { λ want fault. fault ≡ Memory want };

    fn from(want: NoMemory) -> Fault {
        Fault::Memory(want)
    }
}
