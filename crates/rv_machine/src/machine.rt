//! The machine: a hart that runs, and how far it has come.

ghost use Rattle.rv_machine.specs.Keeping.{AllStay};

use crate::decoder::Decoder;
use crate::hart::{Hart, Moved};
use crate::memory::Memory;
use crate::registers::Registers;
use lay_base::{NoMemory, Sink, Source, TrapKind};
use rv_isa::Image;
use std::alloc::Global;

/// How a run ends.
#[derive(Clone, Copy)]
pub enum MachineEnd {
    /// The program exited with a status.
    Exits(u8),
    /// The instruction at an address was not done, for a reason.
    Trap(TrapKind, u32),
    /// The program stopped at an EBREAK at an address.
    Break(u32),
    /// So many steps were made, and the program would go on.
    StepLimit(u64),
    /// The input failed.
    ReadFault,
    /// The output failed.
    WriteFault,
}

/// What the code of one step came to, with that of the call of the environment that it may be.
#[derive(Clone, Copy)]
pub enum Advance {
    /// The program goes on.
    Goes,
    /// The program exited with a status.
    Exits(u8),
    /// The instruction was not done, for a reason.
    Traps(TrapKind),
    /// The program stopped at an EBREAK.
    Breaks,
    /// The input failed in the middle of a call.
    ReadFails,
    /// The output failed in the middle of a call.
    WriteFails,
}

/// A machine that runs a program once. It is as `new` made it, or it has run and keeps its end.
#[derive(Drop)]
pub struct Machine {
    pub(crate) decoder: Decoder,
    pub(crate) steps: u64,
    pub(crate) ended: Option<MachineEnd>,
    pub(crate) hart: Hart,
    ghost all_stay: { AllStay hart.memory decoder },
}

impl Machine {
    ghost use Rattle.std.specs.Prelude.{◌≡◌, ◌<◌, IfOk, IsSome, MatchOption, Some, slice_index, true};
    ghost use Rattle.rv_isa.specs.declared.image.Image.{Image};
    ghost use Rattle.rv_isa.specs.Placed.{IsPlaced};
    ghost use Rattle.rv_isa.specs.Step.{step};
    ghost use Rattle.rv_machine.specs.Harts.{places_of, state_at, state_of, with_pc};
    ghost use Rattle.rv_machine.specs.declared.hart.Moved.TheVariants.{Traps};
    ghost use Rattle.rv_machine.specs.Keeping.{IsReady};
    ghost use Rattle.rv_machine.specs.Stepping.{StepGives};
    ghost use Rattle.rv_machine.specs.Advances.{AdvanceGives, streams};
    ghost use Rattle.rv_machine.specs.Runs.{IsFresh, RunGives, own_run, run_of, observed};

    /// Whether the next instruction is kept, and stays where it stands.
    #[inline(always)]
    fn is_ready(&self, pc: u32) -> bool
        ensures { result ≡ true → IsReady self.now.hart.memory self.now.decoder pc }
    {
        self.decoder.lasts(pc)
    }

    /// Whether the next instruction stands in the row of the last one and is kept as it stands.
    fn is_as_kept(&self) -> bool
        ensures { result ≡ true → IsReady self.now.hart.memory self.now.decoder self.now.hart.pc }
    {
        match self.hart.memory.code_word(self.hart.pc) {
            Some(word) => self.decoder.keeps(self.hart.pc, word),
            None => false,
        }
    }

    /// Finds the next instruction, whatever row it stands in, and keeps it; or answers why there is none.
    #[cold]
    fn make_ready(&mut self) -> Option<TrapKind>
        ensures places { places_of self.new.hart ≡ places_of self.old.hart }
        ensures state { state_of self.new.hart ≡ state_of self.old.hart }
        ensures steps { self.new.steps ≡ self.old.steps }
        ensures ready { MatchOption result
            (IsReady self.new.hart.memory self.new.decoder self.old.hart.pc)
            (λ kind. StepGives (places_of self.old.hart) (state_of self.old.hart) (state_of self.old.hart) (Traps kind)) }
    {
        if self.is_as_kept() {
            return None;
        }
        match self.hart.memory.fetch(self.hart.pc) {
            Some(word) => {
                let stays = self.hart.memory.stays(self.hart.pc);
                if self.decoder.keep(self.hart.pc, word, stays) {
                    None
                } else {
                    Some(TrapKind::Illegal)
                }
            }
            None => Some(TrapKind::Unmapped),
        }
    }

    /// The same, with nothing to be done where the instruction is ready.
    #[inline(always)]
    fn prepare(&mut self, pc: u32) -> Option<TrapKind>
        ensures places { places_of self.new.hart ≡ places_of self.old.hart }
        ensures state { state_at self.new.hart pc ≡ state_at self.old.hart pc }
        ensures steps { self.new.steps ≡ self.old.steps }
        ensures ready { MatchOption result
            (IsReady self.new.hart.memory self.new.decoder pc)
            (λ kind. StepGives (places_of self.old.hart) (state_at self.old.hart pc) (state_at self.old.hart pc) (Traps kind)) }
    {
        if self.is_ready(pc) {
            return None;
        }
        self.hart.pc = pc;
        self.make_ready()
    }

    /// One step, but for what a call of the environment does.
    #[inline(always)]
    pub(crate) fn step(&mut self, pc: &mut u32) -> Moved
        ensures places { places_of self.new.hart ≡ places_of self.old.hart }
        ensures steps { self.new.steps ≡ self.old.steps }
        ensures moved { StepGives (places_of self.old.hart) (state_at self.old.hart pc.old) (state_at self.new.hart pc.new) result }
    {
        match self.prepare(*pc) {
            None => {
                // Read where it is kept, whichever way it came there: `execute` has one caller, and so
                // becomes a part of the loop over the steps, and reads the fields that it uses.
                let inst = self.decoder.instruction(*pc);
                self.hart.execute(pc, inst)
            }
            Some(kind) => Moved::Traps(kind),
        }
    }

    /// One step, with what a call of the environment does.
    #[inline(always)]
    fn advance<I: Source, O: Sink>(&mut self, pc: &mut u32, input: &mut I, out: &mut O) -> Advance
        ensures places { places_of self.new.hart ≡ places_of self.old.hart }
        ensures steps { self.new.steps ≡ self.old.steps }
        ensures gives { AdvanceGives (step (places_of self.old.hart)) (state_at self.old.hart pc.old) (state_at self.new.hart pc.new)
            (streams (I.left input.old) (I.faults input.old) (O.written out.old) (O.faults out.old))
            (streams (I.left input.new) (I.faults input.new) (O.written out.new) (O.faults out.new)) result }
    {
        match self.step(pc) {
            Moved::Goes => Advance::Goes,
            Moved::Exits(status) => Advance::Exits(status),
            Moved::Traps(kind) => Advance::Traps(kind),
            Moved::Breaks => Advance::Breaks,
            Moved::Calls => {
                self.hart.pc = *pc;
                let answered = self.hart.call(input, out);
                *pc = self.hart.pc;
                answered
            }
        }
    }

    /// The end that the machine came to after so many steps, at an address.
    fn stop(&mut self, pc: u32, steps: u64, end: MachineEnd) -> MachineEnd
        ensures end { result ≡ end }
        ensures steps { self.new.steps ≡ steps }
        ensures hart { self.new.hart ≡ with_pc self.old.hart pc }
    {
        self.hart.pc = pc;
        self.steps = steps;
        end
    }

    /// At most so many steps. It is a function of its own, so that the loop has the processor's registers
    /// to itself, whatever calls it.
    #[inline(never)]
    fn go<I: Source, O: Sink>(&mut self, input: &mut I, out: &mut O, limit: u64) -> MachineEnd
        ensures { RunGives (own_run self.old.hart) limit
            (streams (I.left input.old) (I.faults input.old) (O.written out.old) (O.faults out.old))
            (streams (I.left input.new) (I.faults input.new) (O.written out.new) (O.faults out.new)) (observed self.new) result }
    {
        let mut pc = self.hart.pc;
        // Counted down, which takes one instruction less for each step.
        let mut left = limit;
        while left > 0 {
            let done = limit - left;
            match self.advance(&mut pc, input, out) {
                Advance::Goes => left -= 1,
                Advance::Exits(status) => return self.stop(pc, done + 1, MachineEnd::Exits(status)),
                Advance::Traps(kind) => return self.stop(pc, done + 1, MachineEnd::Trap(kind, pc)),
                Advance::Breaks => return self.stop(pc, done + 1, MachineEnd::Break(pc)),
                Advance::ReadFails => return self.stop(pc, done, MachineEnd::ReadFault),
                Advance::WriteFails => return self.stop(pc, done, MachineEnd::WriteFault),
            }
        }
        self.stop(pc, limit, MachineEnd::StepLimit(limit))
    }

    /// A machine that holds the image, with all the memory that it needs. Its registers are 0, and it is
    /// at the image's entry.
    pub fn new(alloc: Global, image: &Image) -> Result<Machine, NoMemory>
        requires { IsPlaced image.now }
        ensures { IfOk result (λ machine. IsFresh image.now machine) }
    {
        let memory = Memory::of(alloc, image.segments.as_slice())?;
        let decoder = Decoder::new(alloc)?;
        Ok(Machine {
            decoder,
            steps: 0,
            ended: None,
            hart: Hart {
                memory,
                registers: Registers::new(),
                pc: image.entry,
            },
        })
    }

    /// Runs the program until it ends, or for so many steps; its input comes from `input`, and its output
    /// goes to `out`. A machine that has run answers the same end again and touches neither. It takes no
    /// memory.
    pub fn run<I: Source, O: Sink>(&mut self, input: &mut I, out: &mut O, steps: u64) -> MachineEnd
        ensures ended { self.new.ended ≡ Some result }
        ensures again { IsSome self.old.ended → (self.new ≡ self.old) × (input.new ≡ input.old) × (out.new ≡ out.old) }
        ensures gives { (image : Image) → IsFresh image self.old → RunGives (run_of image) steps
            (streams (I.left input.old) (I.faults input.old) (O.written out.old) (O.faults out.old))
            (streams (I.left input.new) (I.faults input.new) (O.written out.new) (O.faults out.new)) (observed self.new) result }
    {
        if let Some(end) = self.ended {
            return end;
        }
        let end = self.go(input, out, steps);
        self.ended = Some(end);
        end
    }

    /// The value of a register.
    pub fn reg(&self, i: u8) -> u32
        requires { i < 32 }
        ensures { result ≡ slice_index self.now.hart.registers i }
    {
        self.hart.registers.get(i)
    }

    /// The program counter.
    pub fn pc(&self) -> u32
        ensures { result ≡ self.now.hart.pc }
    {
        self.hart.pc
    }

    /// The steps made: those that led to the program's end, all that the run was to make, or those
    /// before the call that failed.
    pub fn steps(&self) -> u64
        ensures { result ≡ self.now.steps }
    {
        self.steps
    }
}
