//! What names stand for, and where (C99 6.2.1 to 6.2.3). Places are bytes of the file.

use c_typed::LibraryFunction;
use c_types::Ty;
use lay_base::Name;

/// What an ordinary identifier stands for (C99 6.2.3).
#[derive(Drop)]
pub enum Entity {
    Typedef(Ty),
    /// Its value, as the 32 bits of an `int`.
    Enumerator(u32),
    /// An object of the file, by its number.
    Object(usize, Ty),
    /// A function of the file, by its number.
    Function(usize, Ty),
    LibraryFunction(LibraryFunction),
    /// A parameter or a local of the function around, by its number.
    Local(usize, Ty),
    /// A parameter in a declarator, where no function is defined.
    Parameter(Ty),
}

/// How a declaration declares (C99 6.9.2).
#[derive(Clone, Copy)]
pub enum How {
    /// It leaves the definition to others.
    Declares,
    /// It defines where no other declaration does.
    Tentative,
    Defines,
}

/// A name, where it stands, the byte from which on it is in scope, and what it stands for.
#[derive(Drop)]
pub struct Bound {
    pub name: Name,
    pub place: u32,
    pub from: u32,
    pub how: How,
    pub entity: Entity,
}

/// A tag (C99 6.2.3), where it stands, and the byte from which on it is in scope.
#[derive(Drop)]
pub struct Tag {
    pub name: Name,
    pub place: u32,
    pub from: u32,
    pub is_enumeration: bool,
}
