//! The steps that are there, and want of memory for more.

ghost use Rattle.std.specs.Prelude.{◌≡◌, ◌∷◌, ◌<◌, ◌^◌, Some, length, vec_len};
ghost use Rattle.tac_ir.specs.declared.step.Step.TheVariants as S;
ghost use Rattle.tac_ir.specs.declared.step.Target.TheVariants as To;
ghost use Rattle.lower_tac.specs.Writing.{Wrote, code_in};

use crate::writer::Writer;
use lay_base::{NoMemory, push};
use std::alloc::Global;
use tac_ir::{Operand, Step, Target};

impl Writer {
    /// One step more, before the others.
    #[tactic(auto, unfolding(crate::specs::Writing::code_in))]
    pub fn put(&mut self, step: Step)
        ensures { Wrote self.old self.new (λ code. step ∷ code) }
    {
        if let Err(want) = push(&mut self.steps, step) {
            self.fail(want);
        }
    }

    /// Something that was to be written found no memory.
    pub fn fail(&mut self, want: NoMemory)
        ensures { self.new.want ≡ Some want }
    {
        self.want = Some(want);
    }

    /// Where the code that is there begins.
    #[tactic(auto, unfolding(crate::specs::Writing::code_in))]
    pub fn here(&self) -> Target
        ensures { result ≡ To.Left (length (code_in self.now)) }
    {
        Target::Left(self.steps.len())
    }
}
