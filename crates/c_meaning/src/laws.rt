//! Laws of runs: each function does nothing, and whoever calls it learns what it ensures.

ghost use Rattle.std.specs.Prelude.{ℕ, Bool, IsTrue, List};
ghost use Rattle.block_memory.specs.Blocks.{Memory};
ghost use Rattle.c_meaning.specs.Allocations.{Made};
ghost use Rattle.c_meaning.specs.Longer.{HadRoom};
ghost use Rattle.c_meaning.specs.PointerLaws.{OperationsKeepTypes};
ghost use Rattle.c_meaning.specs.PointerTypes.{PointersAreTyped};
ghost use Rattle.c_meaning.specs.Run.{run};
ghost use Rattle.c_meaning.specs.Shown.{IsWeighedAsShown};
ghost use Rattle.c_typed.specs.Programs.{ProgramData};
ghost use Rattle.block_memory.specs.RunWorlds.Events.{Event};

/// A run that is not kept within the room of the interpreter is never out of room. So it ends, goes on or is undefined, as `source_run` says.
#[tactic(auto, using(crate::proofs::Unlimited::run_has_room))]
pub fn runs_have_room()
    ensures { (p : ProgramData) → (input : List ℕ) → (turns : ℕ) → HadRoom (run p input turns) }
{}

/// The weights of a run are those of what it shows in all languages.
pub fn weights_are_shown()
    ensures { (p : ProgramData) → (trace : List Event) → IsWeighedAsShown p trace }
{}

/// Where the typing fact of pointers holds of a memory, it holds of what an operation makes of it: a block is made, stored to, loaded from, copied to, cleared
/// or ended. The records that are spoken of are those for which a test is true.
pub fn operations_keep_types()
    ensures { (p : ProgramData) → (among : ℕ → Bool) → (made : Made) → (m : Memory) → PointersAreTyped p (λ r. IsTrue (among r)) made m
        → OperationsKeepTypes p (λ r. IsTrue (among r)) made m }
{}
