//! Statements, one after another.

ghost use Rattle.std.specs.Prelude.{◌≡◌, Ok};
ghost use Rattle.c_erasure.specs.Statements.{followed_by};
ghost use Rattle.c_nodes.specs.Gives.{Gives};
ghost use Rattle.c_check_parts.specs.BlockLocals.Parts.{alone};
ghost use Rattle.c_check_parts.specs.BlockLocals.Performing.{body_of};

use c_annotated::Statement;
use c_nodes::Fault;
use lay_base::{List, add};

/// A statement after others.
#[tactic(auto, using(crate::proofs::BlockLocals::InTurn::longer_body))]
pub fn add_statement(all: &mut List<Statement>, st: Statement) -> Result<(), Fault>
    ensures { Gives (λ done. body_of all.new) result (Ok (followed_by (body_of all.old) (alone st))) }
{
    add(all, st)?;
    Ok(())
}
