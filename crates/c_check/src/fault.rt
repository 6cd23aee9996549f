//! Why a file has no unit.

ghost use Rattle.std.specs.Prelude.{◌≡◌};
ghost use Rattle.c_check.specs.declared.fault.CheckFault.TheVariants.{Memory};
ghost use Rattle.c_check.specs.Checking.{fault_in};

use c_nodes::Fault;
use lay_base::{Name, NoMemory, Place, Rule};

/// A fault of the types of a file.
#[derive(Drop)]
pub enum CheckFault {
    /// A type passes a limit there.
    TooBig(Place),
    IllTyped(Rule, Place),
    /// A name that is not declared.
    Undeclared(Name, Place),
    /// A name that is declared a second time: where, and where first.
    Redeclared(Name, Place, Place),
    Memory(NoMemory),
}

impl From<NoMemory> for CheckFault {
    ghost from_gives = { λ want fault. fault ≡ Memory want };

    fn from(want: NoMemory) -> CheckFault {
        CheckFault::Memory(want)
    }
}

/// A fault of the file with that number.
pub fn fault_in(file: u16, fault: Fault) -> CheckFault
    ensures { result ≡ fault_in file fault }
{
    match fault {
        Fault::TooBig(at) => CheckFault::TooBig(Place { file, at }),
        Fault::IllTyped(rule, at) => CheckFault::IllTyped(rule, Place { file, at }),
        Fault::Undeclared(name, at) => CheckFault::Undeclared(name, Place { file, at }),
        Fault::Redeclared(name, at, first) => {
            CheckFault::Redeclared(name, Place { file, at }, Place { file, at: first })
        }
        Fault::Memory(want) => CheckFault::Memory(want),
    }
}
