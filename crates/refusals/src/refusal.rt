//! The refusals, with what each keeps.

use lay_base::{
    ElfField, Keyword, LimitKind, Name, NoMemory, Place, RoomKind, Rule, Stale, TrapKind,
    UndefinedKind,
};

/// Why a command ended without its result. A second place is the one of the first definition.
#[derive(Drop)]
pub enum Refusal {
    /// A byte that begins no token.
    BadByte(Place),
    /// A number, character or escape that is none of the language's.
    BadLiteral(Place),
    /// A string, character or comment that does not end.
    Unclosed(Place),
    /// A literal or a name that is too long for its type or limit.
    TooWide(Place),
    /// The tokens spell no tree.
    NoParse(Place),
    /// A keyword of C99 that is left out of the language.
    Unsupported(Keyword, Place),
    /// A type of too many bytes or parts.
    TooBig(Place),
    /// A typing rule does not hold.
    IllTyped(Rule, Place),
    /// A name that no declaration in scope declares.
    Undeclared(Name, Place),
    /// A name that two declarations of one scope declare.
    Redeclared(Name, Place, Place),
    /// A name that is used and that no file defines.
    Missing(Name),
    /// A name that two files define.
    Twice(Name, Place, Place),
    /// Two records with one tag and different members.
    TagClash(Name, Place, Place),
    /// No file defines `main`.
    NoMain,
    /// A limit, with the number that passed it.
    Limit(LimitKind, u128),
    /// A step of the source program has no defined meaning.
    Undefined(UndefinedKind, Place),
    /// The source program goes on after so many turns.
    TurnLimit(u64),
    /// The interpreter's room, with the number that passed it.
    Room(RoomKind, u64),
    /// The program's input could not be read.
    ReadFault,
    /// Output or a file could not be written.
    WriteFault,
    /// A line of a profile that breaks its format, counted from 1.
    BadProfile(u32),
    /// A profile of another program, with the function at which they differ.
    Stale(Name, Stale),
    /// A field of an ELF file that the reader refuses, with the number found.
    BadElf(ElfField, u64),
    /// The machine stopped at an instruction.
    Trap(TrapKind, u32),
    /// The machine met EBREAK: a program ran out of room.
    Break(u32),
    /// The machine runs on after so many steps.
    StepLimit(u64),
    /// The words ask for nothing.
    Usage,
    /// A file that could not be read.
    FileFault(Name),
    /// A file that is longer than its limit.
    TooLong(Name),
    /// No memory was left.
    Memory(NoMemory),
    /// No memory was left for reading the words, as the reader of the command line says.
    Unread,
    /// A name that has two types.
    NameClash(Name, Place, Place),
    /// A file whose form the compiler does not take yet.
    NotBuilt(Name),
}

impl From<NoMemory> for Refusal {
    ghost use Rattle.std.specs.Prelude.{◌≡◌};
    ghost use Rattle.refusals.specs.declared.refusal.Refusal.TheVariants.{Memory};

    ghost from_gives = { λ want refusal. refusal ≡ Memory want };

    fn from(want: NoMemory) -> Refusal {
        Refusal::Memory(want)
    }
}
