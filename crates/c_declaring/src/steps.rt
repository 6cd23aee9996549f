//! Steps of declarators (C99 6.7.5), one after the other.

ghost use Rattle.std.specs.Prelude.{◌∷◌, Ok};
ghost use Rattle.c_nodes.specs.DeclaratorTypes.DeclaratorViews.{derivation_of, derivations_of, integer_view};
ghost use Rattle.c_nodes.specs.Gives.{Gives};
ghost use Rattle.c_scopes.specs.Scoping.{file_of};
ghost use Rattle.c_declaring.specs.Adding.{array_step_in};
ghost use Rattle.c_declaring.specs.Finds.{Finds};

use c_nodes::{Derivation, Fault, Integer, length};
use c_scopes::FileScope;
use lay_base::{List, add};

/// One step, which is taken before the others.
#[tactic(auto, using(crate::proofs::StepOrder::one_more))]
pub fn with_step(steps: List<Derivation>, step: Derivation) -> Result<List<Derivation>, Fault>
    ensures { Gives derivations_of result (Ok (derivation_of step ∷ derivations_of steps)) }
{
    let mut all = steps;
    add(&mut all, step)?;
    Ok(all)
}

/// The step to an array, whose length is written at `at`. Its bracket stands at `left`, where `count` records are complete.
pub fn array_step(
    file: &FileScope,
    at: u32,
    count: usize,
    left: u32,
    c: Integer,
    steps: List<Derivation>,
) -> Result<List<Derivation>, Fault>
    ensures { Finds derivations_of result (array_step_in (file_of file.now) at count left (integer_view c) (derivations_of steps)) file.now }
{
    let n = length(at, c)?;
    with_step(steps, Derivation::Array(count, left, n))
}
