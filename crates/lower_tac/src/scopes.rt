//! Blocks of locals, as they begin and end, and ways out of statements.

ghost use Rattle.std.specs.Prelude.{◌≡◌, slice_get};
ghost use Rattle.lower_tac.specs.Drafts.{DraftedTo};
ghost use Rattle.lower_tac.specs.Grounds.{locals_in, program_in};
ghost use Rattle.lower_tac.specs.Statements.{back_code, begin_code, begins_code, end_code, ends_code, exit_code, fallen, have_blocks, is_block, scope_end, scope_exits};
ghost use Rattle.lower_tac.specs.Writing.{Wrote};

use crate::draft::Draft;
use crate::ground::Ground;
use crate::ways::{Exit, Exits, ReturnWay};
use crate::writer::Writer;
use tac_ir::{Operand, Step};

impl Ground<'_> {
    fn begin(&self, w: &mut Writer, x: usize)
        ensures { Wrote w.old w.new (begin_code (program_in self.now) self.now.number (locals_in self.now) (slice_get (locals_in self.now) x) x) }
    {
        if let Some(local) = self.local(x) {
            if local.block {
                w.put(Step::Begin(x as u32, self.types.row(local.ty).size));
            } else {
                w.put(Step::Clear(x as u32));
            }
        }
    }

    /// The locals of a block begin.
    #[tactic(auto, using(crate::proofs::FromBack::at_end, crate::proofs::FromBack::one_more))]
    pub fn begins(&self, w: &mut Writer, own: &[usize])
        ensures { Wrote w.old w.new (begins_code (program_in self.now) self.now.number (locals_in self.now) own.now) }
    {
        let mut left = own.len();
        while left > 0 {
            left -= 1;
            self.begin(w, own[left]);
        }
    }

    fn end(&self, w: &mut Writer, x: usize)
        ensures { Wrote w.old w.new (end_code (program_in self.now) self.now.number (locals_in self.now) (slice_get (locals_in self.now) x) x) }
    {
        if let Some(local) = self.local(x) {
            if local.block {
                w.put(Step::End(x as u32));
            }
        }
    }

    /// The locals of a block end.
    #[tactic(auto, using(crate::proofs::FromBack::at_end, crate::proofs::FromBack::one_more))]
    pub fn ends(&self, w: &mut Writer, own: &[usize])
        ensures { Wrote w.old w.new (ends_code (program_in self.now) self.now.number (locals_in self.now) own.now) }
    {
        let mut left = own.len();
        while left > 0 {
            left -= 1;
            self.end(w, own[left]);
        }
    }

    /// What a function returns at its end.
    pub fn fallen(&self) -> Option<Operand>
        ensures { result ≡ fallen (program_in self.now) self.now.number (locals_in self.now) }
    {
        if self.number == self.types.typed().main {
            Some(Operand::Word(0))
        } else {
            None
        }
    }

    /// A way out by `break` or `continue`.
    pub fn leave(&self, w: &mut Writer, exit: Exit)
        ensures { Wrote w.old w.new (exit_code (program_in self.now) self.now.number (locals_in self.now) exit) }
    {
        match exit {
            Exit::Leads(to) => w.put(Step::Jump(to)),
            Exit::Leaves => w.put(Step::Return(self.fallen())),
        }
    }

    /// A way out by `return`, whose value stands in the first temporary behind the locals.
    fn leave_with_held(&self, w: &mut Writer, way: ReturnWay)
        ensures { Wrote w.old w.new (back_code (program_in self.now) self.now.number (locals_in self.now) way) }
    {
        match way {
            ReturnWay::AtOnce => w.put(Step::ReturnHeld(self.room)),
            ReturnWay::BehindEnds(to) => w.put(Step::Jump(to)),
        }
    }

    fn is_block(&self, x: usize) -> bool
        ensures { result ≡ is_block (program_in self.now) self.now.number (locals_in self.now) (slice_get (locals_in self.now) x) }
    {
        match self.local(x) {
            None => false,
            Some(local) => local.block,
        }
    }

    fn have_blocks(&self, own: &[usize]) -> bool
        ensures { result ≡ have_blocks (program_in self.now) self.now.number (locals_in self.now) own.now }
    {
        for x in own {
            if self.is_block(*x) {
                return true;
            }
        }
        false
    }

    /// The locals of a scope end, once for each way out of it and once for the way through. The answer is where the ways out of what stands in it lead.
    pub fn end_scope(&self, draft: &mut Draft, own: &[usize], x: Exits) -> Exits
        ensures loops { draft.new.loops ≡ draft.old.loops }
        ensures is { DraftedTo draft.old draft.new result
            (scope_exits (program_in self.now) self.now.number (locals_in self.now) (have_blocks (program_in self.now) self.now.number (locals_in self.now) own.now) own.now x)
            (scope_end (program_in self.now) self.now.number (locals_in self.now) (have_blocks (program_in self.now) self.now.number (locals_in self.now) own.now) own.now x) }
    {
        if !self.have_blocks(own) {
            return x;
        }
        self.ends(&mut draft.code, own);
        let end = draft.here();
        self.leave_with_held(&mut draft.code, x.on_return);
        self.ends(&mut draft.code, own);
        let on_return = ReturnWay::BehindEnds(draft.here());
        self.leave(&mut draft.code, x.on_continue);
        self.ends(&mut draft.code, own);
        let on_continue = Exit::Leads(draft.here());
        self.leave(&mut draft.code, x.on_break);
        self.ends(&mut draft.code, own);
        let on_break = Exit::Leads(draft.here());
        draft.put(Step::Jump(end));
        Exits {
            on_break,
            on_continue,
            on_return,
        }
    }
}
