//! Programs, and what one file gives to its program.

use crate::expression::TypeId;
use crate::statement::Statement;
use c_types::{IntKind, Records, Ty};
use lay_base::{List, Name, Place};

/// An object: one of file scope, a `static` local, or a string literal.
#[derive(Drop)]
pub struct Object {
    pub name: Name,
    pub place: Place,
    pub ty: TypeId,
    /// Other files can name it.
    pub linked: bool,
    /// It is a string literal.
    pub text: bool,
    /// What it holds at first, all else being zero; none where it is only declared.
    pub initial: Option<List<Initial>>,
}

/// A value that an object holds at first, and its first byte in the object.
#[derive(Drop)]
pub struct Initial {
    pub offset: u32,
    pub value: InitialValue,
}

#[derive(Drop)]
pub enum InitialValue {
    Number(IntKind, u32),
    /// A pointer of that type to a byte of an object.
    Address(TypeId, usize, u32),
    /// A pointer of that type to a function.
    Function(TypeId, usize),
}

#[derive(Drop)]
pub struct Function {
    pub name: Name,
    pub place: Place,
    pub ty: TypeId,
    /// Other files can name it.
    pub linked: bool,
    pub parameters: List<Local>,
    /// The locals that are no parameters; their numbers follow those of the parameters.
    pub locals: List<Local>,
    /// None where it is only declared.
    pub body: Option<Statement>,
    /// The number of nodes of its item in the file's tree.
    pub nodes: u64,
}

/// A parameter, or a local that is not `static`.
#[derive(Drop)]
pub struct Local {
    pub name: Name,
    pub ty: TypeId,
    /// It has a block of memory of its own, and is not kept by name alone.
    pub block: bool,
}

/// A type that a file speaks of outside of its expressions, and where. It serves the legality tests alone.
#[derive(Drop)]
pub struct Mention {
    pub kind: MentionKind,
    pub ty: TypeId,
    pub place: Place,
}

#[derive(Clone, Copy)]
pub enum MentionKind {
    /// The type of a declared object.
    Object,
    /// The type that another declaration, a cast or a `sizeof` names.
    Named,
    /// The type of the operand of a `sizeof` that is not the size operand of an allocation of records.
    Sizeof,
    /// The type of a function whose name stands in an initializer of a `static` or file-scope object.
    Used,
    /// The type before a conversion between two pointer types in such an initializer, other than one from null.
    From,
    /// The type after such a conversion.
    To,
    /// A record of which a path in such an initializer takes a field.
    Field,
}

/// What one file gives to its program. Its types may name incomplete records, which are numbered after the complete ones.
#[derive(Drop)]
pub struct Unit {
    pub records: Records,
    /// The tags of the incomplete records.
    pub incomplete: List<Name>,
    pub types: List<Ty>,
    pub objects: List<Object>,
    pub functions: List<Function>,
    pub mentions: List<Mention>,
    /// The number of nodes of the file's tree.
    pub nodes: u64,
}

/// A program.
#[derive(Drop)]
pub struct Typed {
    pub records: Records,
    pub types: List<Ty>,
    pub objects: List<Object>,
    pub functions: List<Function>,
    pub mentions: List<Mention>,
    /// The number of the function `main`.
    pub main: usize,
    /// The number of nodes of all trees.
    pub nodes: u128,
}
