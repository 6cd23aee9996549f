//! Tags of structures and enumerations (C99 6.7.2.3), and the numbers of structures.

ghost use Rattle.std.specs.Prelude.{◌≡◌};
ghost use Rattle.c_types.specs.Views.{type_of};
ghost use Rattle.c_erasure.specs.Checking.Answers.{with_file};
ghost use Rattle.c_erasure.specs.Checking.Declaring.{number_among, place_of_tag, structure_of, tag_named, tagged_in};
ghost use Rattle.c_nodes.specs.Gives.{Gives};
ghost use Rattle.c_scopes.specs.Scoping.{file_of, scope_of};
ghost use Rattle.c_declaring.specs.Finds.{Finds};

use c_ast::Spelling;
use c_nodes::{Fault, name};
use c_scopes::{FileScope, Scope};
use c_types::Ty;
use lay_base::Rule;

/// The number of the structure with a tag.
#[tactic(auto, using(crate::proofs::Tables::same_number))]
pub fn number_of(file: &FileScope, tag: &[u8]) -> Option<usize>
    ensures { result ≡ number_among (file_of file.now).numbered tag.now }
{
    file.tags.number_of(tag)
}

/// Where a tag stands first; 0 where it stands nowhere.
#[tactic(auto, using(crate::proofs::Tables::place_of_first))]
pub fn place_of(file: &FileScope, tag: &[u8]) -> u32
    ensures { result ≡ place_of_tag (tag_named (file_of file.now).tags tag.now) }
{
    file.tags.place_of_tag(tag).unwrap_or(0)
}

/// The structure type of a tag. A fault is named at `at`.
fn structure(file: &FileScope, at: u32, tag: &[u8]) -> Result<Ty, Fault>
    ensures { Gives type_of result (structure_of at (number_among (file_of file.now).numbered tag.now)) }
{
    match number_of(file, tag) {
        Some(number) => Ok(Ty::Record(number)),
        None => Err(Fault::IllTyped(Rule::Scope, at)),
    }
}

/// `struct`, which stands at `at`, and a tag.
#[tactic(auto, unfolding(c_erasure::specs::Checking::Declaring::tagged_in))]
fn tagged_type(file: &FileScope, scope: Scope, at: u32, x: &Spelling) -> Result<Ty, Fault>
    ensures { Gives type_of result (tagged_in (scope_of file.now scope.entry) at x.now) }
{
    let tag = x.text.as_slice();
    match file.tags.tag_at(tag, x.from) {
        Some(false) => structure(file, at, tag),
        Some(true) => Err(Fault::Redeclared(name(file.alloc, tag)?, x.from, place_of(file, tag))),
        None => {
            if scope.block.is_some() {
                Err(Fault::IllTyped(Rule::Scope, at))
            } else {
                structure(file, at, tag)
            }
        }
    }
}

/// `struct`, which stands at `at`, and a tag, which was declared before, or is new at file scope.
#[tactic(auto, using(crate::proofs::Kept::unchanged))]
pub fn tagged(file: &FileScope, scope: Scope, at: u32, x: &Spelling) -> Result<Ty, Fault>
    ensures { Finds type_of result (with_file (file_of file.now) (tagged_in (scope_of file.now scope.entry) at x.now)) file.now }
{
    tagged_type(file, scope, at, x)
}
