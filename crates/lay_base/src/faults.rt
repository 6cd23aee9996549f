//! The names that stand in refusals, as plain lists.

/// The keywords (C99 6.4.1).
#[derive(Clone, Copy, Debug, PartialEq, Eq)]
pub enum Keyword {
    Auto,
    Break,
    Case,
    Char,
    Const,
    Continue,
    Default,
    Do,
    Else,
    Enum,
    Extern,
    For,
    If,
    Int,
    Long,
    Register,
    Return,
    Short,
    Signed,
    Sizeof,
    Static,
    Struct,
    Switch,
    Typedef,
    Unsigned,
    Void,
    While,
    /// A keyword that the language leaves out, by its number in the table of these: of C99, of C11 or
    /// of GCC.
    LeftOut(u8),
}

/// Why a step of a source run is undefined.
#[derive(Clone, Copy)]
pub enum UndefinedKind {
    Division,
    Shift,
    Null,
    Dead,
    Outside,
    Align,
    ReadOnly,
    Empty,
    Pointer,
    Subscript,
    Range,
    TwoBlocks,
    Edge,
    Call,
    NoValue,
    Free,
    Overlap,
    Huge,
}

/// A typing rule that a program broke.
#[derive(Clone, Copy, Debug)]
pub enum Rule {
    Specifiers,
    Constant,
    Length,
    Incomplete,
    ByValue,
    Operands,
    Lvalue,
    Assign,
    Arguments,
    Callee,
    Return,
    Condition,
    Member,
    Cast,
    Label,
    Jump,
    Init,
    Library,
    Main,
    Scope,
}

/// What the interpreter ran out of: bytes of live blocks, or depth of calls.
#[derive(Clone, Copy)]
pub enum RoomKind {
    Live,
    Depth,
}

/// A limit on what is compiled or printed.
#[derive(Clone, Copy, Debug)]
pub enum LimitKind {
    Files,
    Nodes,
    Fields,
    Frame,
    Globals,
    PrintNodes,
    PrintDepth,
    PrintText,
}

/// In what a profile differs from the program.
#[derive(Clone, Copy, Debug)]
pub enum StaleKind {
    Functions,
    Order,
    Loops,
    Arms,
}

/// The first difference of a profile from the program: its kind, the number of the function at
/// which it stands, the program's number and the profile's.
#[derive(Clone, Copy)]
pub struct Stale {
    pub kind: StaleKind,
    pub function: u32,
    pub expected: u64,
    pub found: u64,
}

/// Why the machine stopped at an instruction.
#[derive(Clone, Copy)]
pub enum TrapKind {
    Unmapped,
    Illegal,
    Jump,
    Misaligned,
    Call,
}

/// What the reader of ELF files tests, in its order.
#[derive(Clone, Copy, Debug)]
pub enum ElfField {
    Length,
    Magic,
    Class,
    Data,
    Ident,
    Kind,
    Machine,
    Version,
    HeaderSize,
    Headers,
    Loads,
    FileRange,
    Sizes,
    Address,
    Overlap,
    Total,
    Entry,
}
