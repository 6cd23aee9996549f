//! Where nodes begin.

ghost use Rattle.std.specs.Prelude.{◌≡◌};
ghost use Rattle.c_erasure.specs.Erasure.{place_in};
ghost use Rattle.c_erasure.specs.Checking.Finding.{complete};
ghost use Rattle.c_scopes.specs.Scoping.{scope_of};

use c_nodes::Start;
use c_scopes::{FileScope, Scope, place_in};

/// What begins at a byte.
pub fn begins_at(file: &FileScope, scope: Scope, at: u32) -> Start
    ensures at { result.at ≡ at }
    ensures place { result.place ≡ place_in (scope_of file.now scope.entry) at }
    ensures count { result.count ≡ complete (scope_of file.now scope.entry) at }
{
    Start {
        alloc: file.alloc,
        at,
        place: place_in(file, scope, at),
        count: file.tags.ended(at),
    }
}
