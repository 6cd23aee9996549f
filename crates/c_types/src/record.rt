//! Records and their fields: structures and their members, as C99 calls them.

use crate::ty::Ty;
use lay_base::{List, Name, Place};

/// A member of a structure (C99 6.7.2.1), with the place of its declarator.
#[derive(Drop)]
pub struct Field {
    pub name: Name,
    pub ty: Ty,
    pub place: Place,
}

/// A structure (C99 6.7.2.1), with its members in declared order.
#[derive(Drop)]
pub struct Record {
    pub tag: Name,
    pub place: Place,
    pub fields: List<Field>,
}
