//! What a file declares, and the types of which it speaks.

use crate::statement::{Initializer, Statement};
use c_typed::MentionKind;
use c_types::Ty;
use lay_base::{Bytes, List, Name, Place};

/// An object of a file: one of file scope, a `static` local, or a string literal.
#[derive(Drop)]
pub struct Object {
    pub name: Name,
    /// Where it is defined, or else declared first.
    pub place: Place,
    /// The byte at which it is declared first.
    pub first: u32,
    pub ty: Ty,
    /// Other files can name it.
    pub is_linked: bool,
    /// The bytes of a string literal, with its last zero; none of any other object.
    pub literal: Option<Bytes>,
    /// What it holds at first, all else being zero; none where it is only declared.
    pub initial: Option<Initializer>,
}

/// A parameter, or a local that is not `static`.
#[derive(Drop)]
pub struct Local {
    pub name: Name,
    pub ty: Ty,
}

/// A function of a file.
#[derive(Drop)]
pub struct Function {
    pub name: Name,
    /// Where it is defined, or else declared first.
    pub place: Place,
    /// The byte at which it is declared first.
    pub first: u32,
    pub ty: Ty,
    /// Other files can name it.
    pub is_linked: bool,
    pub parameters: List<Local>,
    /// The locals that are no parameters; their numbers follow those of the parameters.
    pub locals: List<Local>,
    /// None where it is only declared.
    pub body: Option<Statement>,
    /// The number of nodes of its definition in the file's tree, or of its first declaration.
    pub nodes: u64,
}

/// A type of which the file speaks outside of its expressions, and the byte at which it does. It serves the legality tests alone.
#[derive(Drop)]
pub struct Mention {
    pub kind: MentionKind,
    pub ty: Ty,
    pub at: u32,
}
