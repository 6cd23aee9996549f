//! The names that stand in the texts of refusals.

ghost use Rattle.std.specs.Prelude.{◌≡◌};
ghost use Rattle.refusals.specs.Names.{rule_name, limit_name, room_name, undefined_name, trap_name, field_name};

use lay_base::{ElfField, LimitKind, RoomKind, Rule, TrapKind, UndefinedKind};

/// The name of a typing rule.
pub fn rule_name(rule: Rule) -> &'static [u8]
    ensures { result.now ≡ rule_name rule }
{
    match rule {
        Rule::Specifiers => b"Specifiers",
        Rule::Constant => b"Constant",
        Rule::Length => b"Length",
        Rule::Incomplete => b"Incomplete",
        Rule::ByValue => b"ByValue",
        Rule::Operands => b"Operands",
        Rule::Lvalue => b"Lvalue",
        Rule::Assign => b"Assign",
        Rule::Arguments => b"Arguments",
        Rule::Callee => b"Callee",
        Rule::Return => b"Return",
        Rule::Condition => b"Condition",
        Rule::Member => b"Member",
        Rule::Cast => b"Cast",
        Rule::Label => b"Label",
        Rule::Jump => b"Jump",
        Rule::Init => b"Init",
        Rule::Library => b"Library",
        Rule::Main => b"Main",
        Rule::Scope => b"Scope",
    }
}

/// The name of a limit.
pub fn limit_name(which: LimitKind) -> &'static [u8]
    ensures { result.now ≡ limit_name which }
{
    match which {
        LimitKind::Files => b"Files",
        LimitKind::Nodes => b"Nodes",
        LimitKind::Fields => b"Fields",
        LimitKind::Frame => b"Frame",
        LimitKind::Globals => b"Globals",
        LimitKind::PrintNodes => b"PrintNodes",
        LimitKind::PrintDepth => b"PrintDepth",
        LimitKind::PrintText => b"PrintText",
    }
}

/// The name of what the interpreter ran out of.
pub fn room_name(what: RoomKind) -> &'static [u8]
    ensures { result.now ≡ room_name what }
{
    match what {
        RoomKind::Live => b"Live",
        RoomKind::Depth => b"Depth",
    }
}

/// The name of a kind of undefined step.
pub fn undefined_name(kind: UndefinedKind) -> &'static [u8]
    ensures { result.now ≡ undefined_name kind }
{
    match kind {
        UndefinedKind::Division => b"Division",
        UndefinedKind::Shift => b"Shift",
        UndefinedKind::Null => b"Null",
        UndefinedKind::Dead => b"Dead",
        UndefinedKind::Outside => b"Outside",
        UndefinedKind::Align => b"Align",
        UndefinedKind::ReadOnly => b"ReadOnly",
        UndefinedKind::Empty => b"Empty",
        UndefinedKind::Pointer => b"Pointer",
        UndefinedKind::Subscript => b"Subscript",
        UndefinedKind::Range => b"Range",
        UndefinedKind::TwoBlocks => b"TwoBlocks",
        UndefinedKind::Edge => b"Edge",
        UndefinedKind::Call => b"Call",
        UndefinedKind::NoValue => b"NoValue",
        UndefinedKind::Free => b"Free",
        UndefinedKind::Overlap => b"Overlap",
        UndefinedKind::Huge => b"Huge",
    }
}

/// The name of a trap.
pub fn trap_name(kind: TrapKind) -> &'static [u8]
    ensures { result.now ≡ trap_name kind }
{
    match kind {
        TrapKind::Unmapped => b"Unmapped",
        TrapKind::Illegal => b"Illegal",
        TrapKind::Jump => b"Jump",
        TrapKind::Misaligned => b"Misaligned",
        TrapKind::Call => b"Call",
    }
}

/// The name of a field of an ELF file.
pub fn field_name(field: ElfField) -> &'static [u8]
    ensures { result.now ≡ field_name field }
{
    match field {
        ElfField::Length => b"Length",
        ElfField::Magic => b"Magic",
        ElfField::Class => b"Class",
        ElfField::Data => b"Data",
        ElfField::Ident => b"Ident",
        ElfField::Kind => b"Kind",
        ElfField::Machine => b"Machine",
        ElfField::Version => b"Version",
        ElfField::HeaderSize => b"HeaderSize",
        ElfField::Headers => b"Headers",
        ElfField::Loads => b"Loads",
        ElfField::FileRange => b"FileRange",
        ElfField::Sizes => b"Sizes",
        ElfField::Address => b"Address",
        ElfField::Overlap => b"Overlap",
        ElfField::Total => b"Total",
        ElfField::Entry => b"Entry",
    }
}
