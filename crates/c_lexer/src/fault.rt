//! Lexical faults.

ghost use Rattle.std.specs.Prelude.{◌≡◌};
ghost use Rattle.c_lexer.specs.declared.fault.LexFault.TheVariants.{Memory};

use lay_base::NoMemory;

/// The first lexical fault of a text, with the byte at which it stands.
#[derive(Clone, Copy, Debug)]
pub enum LexFault {
    BadByte(u32),
    BadLiteral(u32),
    Unclosed(u32),
    TooWide(u32),
    /// Memory is out.
    Memory(NoMemory),
}

impl From<NoMemory> for LexFault {
    ghost from_gives = { λ want fault. fault ≡ Memory want };

    fn from(want: NoMemory) -> LexFault {
        LexFault::Memory(want)
    }
}
