//! The unit of a file.

ghost use Rattle.std.specs.Prelude.{◌≤◌, length};
ghost use Rattle.c_tokens.specs.Lexes.{Lexes};
ghost use Rattle.c_ast.specs.Sizes.{IsCountable, size_items};
ghost use Rattle.c_ast.specs.TreesOfFiles.{IsTreeOf};
ghost use Rattle.c_ast.specs.Views.{items_of};
ghost use Rattle.c_check.specs.Checking.{CheckGives};

use crate::fault::{CheckFault, fault_in};
use crate::file_items::annotated;
use c_ast::Tree;
use c_checking_laws::annotated_files_are_found;
use c_checking_units::{faults_break_rules, faults_have_no_unit, types_are_small};
use c_file_tags::tags_of;
use c_tokens::Tokens;
use c_typed::Unit;
use c_units::unit_of;
use lay_base::File;
use std::alloc::Global;

/// What a file with that number gives to its program, by its tokens and its tree, or a fault of its types. The tokens are let go where its tags are known, and
/// the tree item by item.
#[tactic(auto, using(crate::proofs::Found::lists_are, crate::proofs::Found::fault_found))]
pub fn check(
    alloc: Global,
    number: u16,
    file: &File,
    tokens: Tokens,
    tree: Tree,
) -> Result<Unit, CheckFault>
    requires short { length file.now.bytes ≤ 4194304 }
    requires tokens { Lexes file.now.bytes tokens.list }
    requires tree { IsTreeOf file.now.bytes (items_of tree) }
    requires countable { IsCountable (size_items (items_of tree)) }
    ensures { CheckGives number file.now (items_of tree) result }
{
    annotated_files_are_found();
    faults_have_no_unit();
    faults_break_rules();
    types_are_small();
    let tags = tags_of(alloc, tokens.list.as_slice(), &tree, file)?;
    drop(tokens);
    match annotated(alloc, number, tags, tree) {
        Ok((found, nodes)) => Ok(unit_of(found, nodes)?),
        Err(fault) => Err(fault_in(number, fault)),
    }
}
