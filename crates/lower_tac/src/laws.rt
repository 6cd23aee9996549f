//! What holds of the lowering.

ghost use Rattle.lower_tac.specs.Same.{RunsAreSame};

/// From some number of steps on, the code of a program comes to the end of the program's run, in the same world: with the same memory, rest of the input,
/// trace of events, turns left and depth.
#[tactic(auto, using(crate::proofs::Same::same))]
pub fn runs_are_same()
    ensures { RunsAreSame }
{}
