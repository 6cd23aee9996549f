//! `Scope`: where an expression stands.

ghost use Rattle.std.specs.Prelude.{◌≡◌};
ghost use Rattle.std.specs.Option.{option_copied, option_map};
ghost use Rattle.c_erasure.specs.Erasure.{place_in};
ghost use Rattle.c_erasure.specs.Scopes.{for_value, here, measured, named};
ghost use Rattle.c_annotated.specs.FileViews.{bound_of, entity_of};
ghost use Rattle.c_scopes.specs.Scoping.{scope_of};

use crate::block::{Block, innermost};
use crate::file_scope::FileScope;
use c_annotated::{Bound, Entity, Local};
use lay_base::Place;

/// What an expression is for.
#[derive(Clone, Copy)]
pub enum Purpose {
    /// All that it does.
    InFull,
    /// Its value alone, as of the length of an array or a `case` label (C99 6.6).
    ValueAlone,
    /// Its type alone, as of the operand of a `sizeof` (C99 6.5.3.4).
    TypeAlone,
}

/// Where an expression stands beside the file: the blocks around it, of which there are none at file scope, what it is for, and the
/// parameters and locals of the function up to there.
#[derive(Clone, Copy)]
pub struct Scope<'a> {
    pub block: Option<&'a Block<'a>>,
    pub purpose: Purpose,
    pub locals: &'a [Local],
}

/// The same place, for the operand of a `sizeof`.
pub fn measured<'a>(file: &FileScope, scope: Scope<'a>) -> Scope<'a>
    ensures { scope_of file.now result ≡ measured (scope_of file.now scope.entry) }
{
    Scope {
        block: scope.block,
        purpose: Purpose::TypeAlone,
        locals: scope.locals,
    }
}

/// The same place, for an expression whose value alone is used.
pub fn for_value<'a>(file: &FileScope, scope: Scope<'a>) -> Scope<'a>
    ensures { scope_of file.now result ≡ for_value (scope_of file.now scope.entry) }
{
    let purpose = match scope.purpose {
        Purpose::TypeAlone => Purpose::TypeAlone,
        _ => Purpose::ValueAlone,
    };
    Scope {
        block: scope.block,
        purpose,
        locals: scope.locals,
    }
}

/// A byte of the file as a place.
pub fn place_in(file: &FileScope, scope: Scope, at: u32) -> Place
    ensures { result ≡ place_in (scope_of file.now scope.entry) at }
{
    Place {
        file: file.number,
        at,
    }
}

/// What a name stands for at a byte.
pub fn named<'a>(file: &'a FileScope, scope: Scope<'a>, x: &[u8], at: u32) -> Option<&'a Entity>
    ensures { option_map entity_of (option_copied result) ≡ named (scope_of file.now scope.entry) x.now at }
{
    let inside = match scope.block {
        Some(block) => innermost(block, x),
        None => None,
    };
    match inside {
        Some(entity) => Some(entity),
        None => file.names.visible(x, at),
    }
}

/// What the innermost block has declared under a name.
pub fn here<'a>(file: &FileScope, scope: Scope<'a>, x: &[u8]) -> Option<&'a Bound>
    ensures { option_map bound_of (option_copied result) ≡ here (scope_of file.now scope.entry) x.now }
{
    match scope.block {
        Some(block) => block.names.first(x),
        None => None,
    }
}
