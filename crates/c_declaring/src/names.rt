//! Names, and constants (C99 6.5.1), and the names of typedefs.

ghost use Rattle.std.specs.Prelude.{Ok};
ghost use Rattle.c_types.specs.declared.ty.IntKind.TheVariants.{Int};
ghost use Rattle.c_types.specs.Types.{integer};
ghost use Rattle.c_types.specs.Views.{type_of};
ghost use Rattle.c_typed.specs.Trees.{constant};
ghost use Rattle.c_erasure.specs.Erasure.{place_in};
ghost use Rattle.c_erasure.specs.Noted.{a_value, value};
ghost use Rattle.c_erasure.specs.Scopes.{named as entity_named};
ghost use Rattle.c_erasure.specs.Checking.Answers.{with_file};
ghost use Rattle.c_erasure.specs.Checking.Declaring.{type_named};
ghost use Rattle.c_erasure.specs.Checking.Nodes.{named_in};
ghost use Rattle.c_annotated.specs.Views.{thing_of};
ghost use Rattle.c_nodes.specs.Gives.{Gives};
ghost use Rattle.c_scopes.specs.Scoping.{file_of, scope_of};
ghost use Rattle.c_declaring.specs.Finds.{Finds};

use c_annotated::{ExpressionNode, Thing};
use c_ast::Spelling;
use c_nodes::{Fault, named as entity_thing, node, typedef_named};
use c_scopes::{FileScope, Scope, named, place_in};
use c_types::{IntKind, Ty};

fn name_thing(file: &FileScope, scope: Scope, x: &Spelling) -> Result<Thing, Fault>
    ensures { Gives thing_of result (named_in (place_in (scope_of file.now scope.entry) x.now.from) x.now.text
        (entity_named (scope_of file.now scope.entry) x.now.text x.now.from)) }
{
    let at = place_in(file, scope, x.from);
    let text = x.text.as_slice();
    entity_thing(file.alloc, at, text, named(file, scope, text, x.from))
}

/// What a name designates where it stands.
#[tactic(auto, using(crate::proofs::Kept::unchanged))]
pub fn name(file: &FileScope, scope: Scope, x: &Spelling) -> Result<Thing, Fault>
    ensures { Finds thing_of result (with_file (file_of file.now) (named_in (place_in (scope_of file.now scope.entry) x.now.from) x.now.text
        (entity_named (scope_of file.now scope.entry) x.now.text x.now.from))) file.now }
{
    name_thing(file, scope, x)
}

/// An integer constant, which stands at `at`.
pub fn number(
    file: &FileScope,
    scope: Scope,
    at: u32,
    n: u32,
    kind: IntKind,
) -> Result<Thing, Fault>
    ensures { Finds thing_of result
        (Ok (a_value (value (integer kind) (place_in (scope_of file.now scope.entry) at) (constant n)), file_of file.now)) file.now }
{
    let place = place_in(file, scope, at);
    let constant = ExpressionNode::Constant(n);
    node(file.alloc, Ty::Int(kind), place, constant)
}

/// A character constant, which stands at `at`.
pub fn character(file: &FileScope, scope: Scope, at: u32, n: u32) -> Result<Thing, Fault>
    ensures { Finds thing_of result
        (Ok (a_value (value (integer Int) (place_in (scope_of file.now scope.entry) at) (constant n)), file_of file.now)) file.now }
{
    number(file, scope, at, n, IntKind::Int)
}

fn typedef_type(file: &FileScope, scope: Scope, x: &Spelling) -> Result<Ty, Fault>
    ensures { Gives type_of result (type_named x.now (entity_named (scope_of file.now scope.entry) x.now.text x.now.from)) }
{
    typedef_named(file.alloc, x, named(file, scope, x.text.as_slice(), x.from))
}

/// The type for which the name of a typedef stands (C99 6.7.7).
#[tactic(auto, using(crate::proofs::Kept::unchanged))]
pub fn typename(file: &FileScope, scope: Scope, x: &Spelling) -> Result<Ty, Fault>
    ensures { Finds type_of result
        (with_file (file_of file.now) (type_named x.now (entity_named (scope_of file.now scope.entry) x.now.text x.now.from))) file.now }
{
    typedef_type(file, scope, x)
}
