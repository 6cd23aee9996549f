//! Expressions, and the paths to objects (C99 6.5), with their types.

ghost use Rattle.std.specs.Prelude.{◌≡◌};
ghost use Rattle.c_annotated.specs.Views.{noted_of};
ghost use Rattle.c_erasure.specs.Noted.{plain};
ghost use Rattle.c_types.specs.Views.{type_of};

use c_types::Ty;
use lay_base::Boxed;

/// A `sizeof` (C99 6.5.3.4): the type of which it is the size, and its first byte in the file.
#[derive(Drop)]
pub struct SizeOf {
    pub ty: Ty,
    pub at: u32,
}

/// The type at a node, and the `sizeof` that a constant is; none of any other node.
#[derive(Drop)]
pub struct Noted {
    pub ty: Ty,
    pub note: Option<Boxed<SizeOf>>,
}

/// A type at a node that is no `sizeof`.
pub fn plain(ty: Ty) -> Noted
    ensures { noted_of result ≡ plain (type_of ty) }
{
    Noted { ty, note: None }
}

pub type Expression = c_typed::Expression<Noted>;

pub type ExpressionNode = c_typed::ExpressionNode<Noted>;

pub type Path = c_typed::Path<Noted>;

pub type PathNode = c_typed::PathNode<Noted>;
