//! Where the parts of statements stand: the innermost block, and the parameters and locals of the function up to there.

ghost use Rattle.std.specs.Prelude.{◌≡◌, ◌∷◌, []};
ghost use Rattle.c_scopes.specs.declared.file_scope.FileScope.{FileScope};
ghost use Rattle.c_scopes.specs.Scoping.{scope_of};
ghost use Rattle.c_scopes.specs.Views.{blocks_of};
ghost use Rattle.c_check_parts.specs.BlockLocals.Performing.{standing};

use c_annotated::Local;
use c_scopes::{Block, BoundNames, Purpose, Scope};
use lay_base::List;
use std::alloc::Global;

/// Where an expression in a block stands.
pub fn scope_in<'a>(block: &'a Block<'a>, locals: &'a List<Local>) -> Scope<'a>
    ensures { (f : FileScope) → scope_of f result ≡ standing f block.now locals.now }
{
    Scope {
        block: Some(block),
        purpose: Purpose::InFull,
        locals: locals.as_slice(),
    }
}

/// A block in another one, which has declared nothing yet.
pub fn inside<'a>(alloc: Global, block: &'a Block<'a>) -> Block<'a>
    ensures { blocks_of result ≡ [] ∷ blocks_of block.now }
{
    Block {
        names: BoundNames::new(alloc),
        outer: Some(block),
    }
}
