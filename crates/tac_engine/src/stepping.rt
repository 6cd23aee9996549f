//! Jumps, one step, and the start.

ghost use Rattle.std.specs.Prelude.{◌≡◌, ◌<◌, IfOk, length, true};
ghost use Rattle.source_state.specs.RoomView.{core_of};
ghost use Rattle.tac_ir.specs.declared.step.Step.TheVariants as S;
ghost use Rattle.tac_engine.specs.Rooms.{NextHasRoom, StepHasRoom};
ghost use Rattle.tac_engine.specs.States.{goes, jumped, jumps_if};
ghost use Rattle.tac_engine.specs.Steps.{enacted, read_given, stepped};
ghost use Rattle.tac_engine.specs.View.{ready, state_of};
ghost use Rattle.tac_engine.specs.Ways.{for_jumps, for_next};

use crate::engine::{Comes, Engine, NO_PLACE};
use crate::temporaries::{read, read_both, word, words};
use block_memory::Value;
use c_typed::{BinaryOp, CompareOp};
use c_types::IntKind;
use lay_base::{NoMemory, Place, UndefinedKind};
use source_state::{Moved, Room, Stack, undefined};
use source_values::{Types, compared, flag, is_true};
use std::alloc::Global;
use tac_ir::{Routine, Step, Tac, Target};

impl<'a> Engine<'a> {
    // ---- jumps

    #[tactic(auto, using(crate::proofs::Leading::led))]
    #[inline(always)]
    pub(crate) fn jump(&mut self, to: Target)
        ensures { state_of self.new ≡ jumped to (state_of self.old) }
    {
        match to {
            Target::Left(n) => self.left = n,
            Target::Label(l) => match self.routine.labels.get(l) {
                Some(n) => self.left = *n,
                None => self.left = 0,
            },
        }
    }

    /// Jumps where a value is true, or where it is not.
    #[inline(always)]
    fn jump_if(&mut self, when: bool, to: Target, v: Value) -> Moved
        ensures { (result, state_of self.new) ≡ jumps_if when to v (state_of self.old) }
    {
        if is_true(v) == when {
            self.jump(to);
        }
        Moved::Goes
    }

    #[inline(always)]
    fn began(&mut self, function: usize, number: u32) -> Moved
        ensures { (result, state_of self.new) ≡ enacted (S.Began function number) (state_of self.old) }
    {
        match self.room.begin_body(function, u64::from(number)) {
            Ok(()) => Moved::Goes,
            Err(end) => Moved::Over(end),
        }
    }

    /// A jump, or a step that fails.
    #[inline(never)]
    pub(crate) fn enact_jump(&mut self, step: &Step) -> Comes
        requires { for_jumps step.now ≡ true }
        ensures { IfOk result (λ m. (m, state_of self.new) ≡ enacted step.now (state_of self.old)) }
    {
        match *step {
            Step::Branch(when, a, to) => match read(&self.room, a) {
                Ok(v) => Ok(self.jump_if(when, to, v)),
                Err(end) => Ok(Moved::Over(end)),
            },
            Step::Test(at, op, kind, when, a, b, to) => match read_both(&self.room, a, b) {
                Ok((v, w)) => match compared(&self.room.store, op, kind, v, w) {
                    Ok(z) => Ok(self.jump_if(when, to, z)),
                    Err(kind) => Ok(undefined(kind, at)),
                },
                Err(end) => Ok(Moved::Over(end)),
            },
            Step::Case(n, a, to) => match read(&self.room, a) {
                Ok(Value::Word(v)) => Ok(self.jump_if(true, to, flag(n == v))),
                Ok(Value::Pointer(_)) => Ok(undefined(UndefinedKind::Pointer, NO_PLACE)),
                Err(end) => Ok(Moved::Over(end)),
            },
            Step::Fail(kind, at) => Ok(undefined(kind, at)),
            _ => unreachable!(),
        }
    }

    // ---- one step

    /// A step that plain loops do less often, or one that does anything else. Each way on is to where its steps are made.
    #[inline(always)]
    fn enact_next(&mut self, alloc: Global, step: &Step) -> Comes
        requires way { for_next step.now ≡ true }
        requires room { StepHasRoom step.now (state_of self.old) }
        ensures { IfOk result (λ m. (m, state_of self.new) ≡ enacted step.now (state_of self.old)) }
    {
        match step {
            Step::Load(t, at, access, a) => self.load(*t, *at, *access, a),
            Step::Element(t, at, length, size, addressed, kind, a, b) => {
                self.element(*t, *at, *length, *size, *addressed, *kind, a, b)
            }
            Step::Store(_, _, _, _) => self.enact_place(alloc, step),
            Step::Call(_, _, _, _) | Step::Return(_) => self.enact_call(alloc, step),
            _ => self.enact_two(alloc, step),
        }
    }

    /// A step. What plain loops do most comes first.
    #[inline(always)]
    fn enact(&mut self, alloc: Global, step: &Step) -> Comes
        requires { StepHasRoom step.now (state_of self.old) }
        ensures { IfOk result (λ m. (m, state_of self.new) ≡ enacted step.now (state_of self.old)) }
    {
        match step {
            Step::Binary(t, _, BinaryOp::Add, IntKind::Int, _, a, b) => {
                match words(&self.room, a, b) {
                    Some((v, w)) => self.put(*t, Value::Word(v.wrapping_add(w))),
                    None => self.enact_two(alloc, step),
                }
            }
            Step::Test(_, CompareOp::Less, IntKind::Int, when, a, b, to) => {
                match words(&self.room, a, b) {
                    Some((v, w)) => {
                        let is_less = v.cast_signed() < w.cast_signed();
                        Ok(self.jump_if(*when, *to, flag(is_less)))
                    }
                    None => self.enact_jump(step),
                }
            }
            Step::Branch(when, a, to) => match word(&self.room, a) {
                Some(v) => Ok(self.jump_if(*when, *to, Value::Word(v))),
                None => self.enact_jump(step),
            },
            Step::Set(t, a) => match word(&self.room, a) {
                Some(v) => self.put(*t, Value::Word(v)),
                None => self.enact_two(alloc, step),
            },
            Step::Jump(to) => {
                self.jump(*to);
                Ok(Moved::Goes)
            }
            Step::Began(function, number) => Ok(self.began(*function, *number)),
            _ => self.enact_next(alloc, step),
        }
    }

    /// An engine for the code of a program, in the room with which the program starts. Some function stands where none runs yet.
    pub fn new(
        alloc: Global,
        types: &'a Types<'a>,
        code: &'a Tac,
        routine: &'a Routine,
        room: Room,
    ) -> Engine<'a>
        ensures { state_of result ≡ ready types.entry.now code.entry.now (core_of room) routine.entry.now }
    {
        Engine {
            types,
            code,
            callers: Stack::new(alloc),
            routine,
            left: 0,
            to: 0,
            room,
        }
    }

    /// The step that stands first, where a jump led before it.
    #[cold]
    #[inline(never)]
    #[tactic(auto, using(crate::proofs::Leading::first_of))]
    fn step_first(&mut self, alloc: Global) -> Comes
        requires far { length self.old.routine.now.code < self.old.left }
        requires room { NextHasRoom (state_of self.old).more (state_of self.old) }
        ensures { IfOk result (λ m. (m, state_of self.new) ≡ stepped (state_of self.old)) }
    {
        let left = self.routine.code.len().saturating_sub(1);
        match self.routine.code.get(left) {
            Some(step) => {
                self.left = left;
                self.enact(alloc, step)
            }
            None => Ok(undefined(UndefinedKind::Call, NO_PLACE)),
        }
    }

    /// The next step, of code that puts no more into the block of a local than it has room for. What it writes or asks for is left to the caller: `Puts` a
    /// byte, `Gets` one.
    #[tactic(auto, using(crate::proofs::Leading::next))]
    #[inline(always)]
    pub fn step(&mut self, alloc: Global) -> Result<Moved, NoMemory>
        requires { NextHasRoom (state_of self.old).more (state_of self.old) }
        ensures { IfOk result (λ m. (m, state_of self.new) ≡ stepped (state_of self.old)) }
    {
        let Some(left) = self.left.checked_sub(1) else {
            return Ok(undefined(UndefinedKind::Call, NO_PLACE));
        };
        match self.routine.code.get(left) {
            Some(step) => {
                self.left = left;
                self.enact(alloc, step)
            }
            None => self.step_first(alloc),
        }
    }

    /// What was read is given to the step that asked for it.
    pub fn give(&mut self, v: Value) -> Result<Moved, NoMemory>
        ensures { IfOk result (λ m. (m, state_of self.new) ≡ goes (read_given v (state_of self.old))) }
    {
        self.put(self.to, v)
    }
}
