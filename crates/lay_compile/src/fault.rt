//! Why files are no program.

ghost use Rattle.std.specs.Prelude.{◌≡◌};
ghost use Rattle.lay_compile.specs.declared.fault.CompileFault.TheVariants.{Memory};

use c_check::CheckFault;
use c_lexer::LexFault;
use c_link::Gap;
use c_parser::ParseFault;
use lay_base::NoMemory;

/// Why files are no program, by the stage that finds it. Each of these faults has a want of memory of its own.
#[derive(Drop)]
pub enum CompileFault {
    /// A fault of the tokens of the file with that number.
    Lexical(u16, LexFault),
    /// A file has no tree.
    Syntax(ParseFault),
    /// A fault of the types of a file.
    Types(CheckFault),
    /// A gap of the units.
    Joining(Gap),
    Memory(NoMemory),
}

impl From<NoMemory> for CompileFault {
    ghost from_gives = { λ want fault. fault ≡ Memory want };

    fn from(want: NoMemory) -> CompileFault {
        CompileFault::Memory(want)
    }
}
