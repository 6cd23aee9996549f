//! Laws about what units and programs weigh.

ghost use Rattle.c_well_typed.specs.ProgramWeights.Bounds.{JoinedAreBounded, ProgramsAreBounded, UnitsAreBounded};

use c_lexer::tokens_have_places;

/// The unit of a file weighs at most 512 bytes of code for each node of the file's tree, and each of its functions at most 64 bytes of the
/// frame for each node of its item.
pub fn units_are_bounded()
    ensures { UnitsAreBounded }
{
    tokens_have_places();
}

/// Units within the bounds make a program within them.
#[tactic(auto, using(crate::proofs::ProgramWeights::Joined::joined_are_bounded))]
pub fn joined_are_bounded()
    ensures { JoinedAreBounded }
{}

/// So the program of some files is within the bounds, by the number of nodes of their trees.
pub fn programs_are_bounded()
    ensures { ProgramsAreBounded }
{
    units_are_bounded();
    joined_are_bounded();
}
