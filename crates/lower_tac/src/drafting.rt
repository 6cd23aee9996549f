//! Steps, labels and texts of a function, put in front of what is there.

ghost use Rattle.std.specs.Prelude.{◌≡◌, ◌+◌, ◌<◌, ◌≤◌, ◌^◌, ◌++◌, ◌∷◌, [], length, map, reverse};
ghost use Rattle.c_typed.specs.RunCounts.Loops.{loops_in_all};
ghost use Rattle.c_typed.specs.Views.{statement_of, statements_of};
ghost use Rattle.tac_ir.specs.declared.step.Step.TheVariants as S;
ghost use Rattle.lower_tac.specs.Drafts.{ArmStarted, Drafted, DraftedTo, begun, out_in};
ghost use Rattle.lower_tac.specs.Statements.{before, here, label_of, marked, with_label, with_loops};

use crate::draft::Draft;
use c_typed::{Statement, loops_in_statements};
use lay_base::{Bytes, add, copied, push};
use std::alloc::Global;
use tac_ir::{Step, Target};

impl Draft {
    /// Where the code that is there begins.
    pub fn here(&self) -> Target
        ensures { result ≡ here (out_in self.now) }
    {
        self.code.here()
    }

    /// One step more, before the others.
    pub fn put(&mut self, step: Step)
        ensures is { Drafted self.old self.new (before step) }
        ensures loops { self.new.loops ≡ self.old.loops }
    {
        self.code.put(step);
    }

    /// A label that is not set yet.
    pub fn take_label(&mut self) -> usize
        ensures is { DraftedTo self.old self.new result label_of with_label }
        ensures loops { self.new.loops ≡ self.old.loops }
    {
        let label = self.labels.len();
        if let Err(want) = push(&mut self.labels, 0) {
            self.code.fail(want);
            return 0;
        }
        label
    }

    /// A label is set where the code that is there begins.
    #[tactic(auto, unfolding(crate::specs::Writing::code_in))]
    fn mark(&mut self, label: usize)
        ensures is { Drafted self.old self.new (marked label) }
        ensures loops { self.new.loops ≡ self.old.loops }
    {
        let left = self.code.steps.len();
        if let Some(at) = self.labels.get_mut(label) {
            *at = left;
        }
    }

    /// An arm of a `switch` begins where the code that is there does.
    pub fn start_arm(&mut self, starts: &mut Vec<Target>)
        ensures { ArmStarted self.old self.new (reverse starts.old.items) (reverse starts.new.items) }
    {
        if let Err(want) = push(starts, self.here()) {
            self.code.fail(want);
        }
    }

    /// The body of the function's loop that stands last before the code begins, at a label.
    pub fn begin_body(&mut self, function: usize, label: usize)
        ensures is { Drafted self.old self.new (begun function label) }
        ensures loops { self.new.loops ≤ self.old.loops }
    {
        self.loops = self.loops.saturating_sub(1);
        self.put(Step::Began(function, self.loops));
        self.mark(label);
    }

    /// The loops of statements that are to stand before the code that is there.
    pub fn count_loops(&mut self, all: &[Statement])
        requires { self.old.loops + loops_in_all (statements_of (map statement_of all.now)) < 2 ^ 32 }
        ensures is { Drafted self.old self.new (with_loops (loops_in_all (statements_of (map statement_of all.now)))) }
        ensures loops { self.new.loops ≡ self.old.loops + loops_in_all (statements_of (map statement_of all.now)) }
    {
        self.loops += loops_in_statements(all);
    }

    /// Bytes of a text, so far behind the beginning of the block of a local.
    pub fn put_text(&mut self, alloc: Global, local: u32, offset: u32, bytes: &Bytes)
        ensures is { Drafted self.old self.new (λ out. before (S.Text local offset (length out.texts)) (record out { texts = out.texts ++ bytes.now ∷ [] })) }
        ensures loops { self.new.loops ≡ self.old.loops }
    {
        let number = self.texts.len();
        match copied(alloc, bytes.as_slice()) {
            Err(want) => self.code.fail(want),
            Ok(copy) => {
                if let Err(want) = add(&mut self.texts, Bytes::of(copy)) {
                    self.code.fail(want);
                }
                self.put(Step::Text(local, offset, number));
            }
        }
    }
}
