//! Calls and returns.

ghost use Rattle.std.specs.Prelude.{◌≡◌, ◌<◌, ◌^◌, IfOk, length, map, true};
ghost use Rattle.source_state.specs.RoomView.{core_of};
ghost use Rattle.tac_ir.specs.Running.{empty_slot};
ghost use Rattle.tac_ir.specs.declared.step.Step.TheVariants as S;
ghost use Rattle.tac_engine.specs.Rooms.{StepHasRoom};
ghost use Rattle.tac_engine.specs.Steps.{calls, calls_through, enacted, final_by, main_called, receive, receive_one, returned, started, waiting};
ghost use Rattle.tac_engine.specs.View.{state_of};
ghost use Rattle.tac_engine.specs.Ways.{for_calls};

use crate::engine::{Caller, Comes, Engine, NO_PLACE};
use crate::temporaries::{read, read_row};
use block_memory::{Ptr, Value};
use c_meaning::Slot;
use lay_base::{NoMemory, Place, UndefinedKind, push};
use source_state::{Final, Moved, Room, undefined};
use source_values::pointer_of;
use std::alloc::Global;
use tac_ir::{Operand, Parameter, Routine, Row, Step};

/// The slots of locals with nothing in them.
fn frame_of(alloc: Global, locals: &[bool]) -> Result<Vec<Slot>, NoMemory>
    ensures { IfOk result (λ frame. frame.items ≡ map empty_slot locals.now) }
{
    let mut frame = Vec::new(alloc);
    for block in locals {
        let slot = if *block {
            Slot::InBlock(None)
        } else {
            Slot::ByName(None)
        };
        push(&mut frame, slot)?;
    }
    Ok(frame)
}

/// A parameter begins and takes its argument.
fn receive_one(
    alloc: Global,
    room: &mut Room,
    place: Place,
    x: u32,
    parameter: Parameter,
    v: Value,
) -> Result<Result<(), Final>, NoMemory>
    ensures { IfOk result (λ r. (r, core_of room.new) ≡ receive_one place x parameter v (core_of room.old)) }
{
    match room.begin(alloc, x, parameter.block, parameter.size)? {
        Ok(()) => Ok(room.receive(place, x, parameter.access, v)),
        Err(end) => Ok(Err(end)),
    }
}

/// The parameters of a function begin with their arguments.
fn receive(
    alloc: Global,
    room: &mut Room,
    place: Place,
    parameters: &[Parameter],
    values: &[Value],
) -> Result<Result<(), Final>, NoMemory>
    requires { length values.now < 2 ^ 32 }
    ensures { IfOk result (λ r. (r, core_of room.new) ≡ receive place 0 parameters.now values.now (core_of room.old)) }
{
    for (number, parameter) in parameters.iter().enumerate() {
        let Some(v) = values.get(number) else {
            return Ok(Ok(()));
        };
        match receive_one(alloc, room, place, number as u32, *parameter, *v)? {
            Ok(()) => {}
            Err(end) => return Ok(Err(end)),
        }
    }
    Ok(Ok(()))
}

/// How the run ends where `main`, at that place, gives a value or none.
fn final_by(place: Place, v: Option<Value>) -> Final
    ensures { result ≡ final_by place v }
{
    match v {
        None => Final::Undefined(UndefinedKind::NoValue, place),
        Some(Value::Word(word)) => Final::Ends((word % 0x100) as u8),
        Some(Value::Pointer(_)) => Final::Undefined(UndefinedKind::Pointer, place),
    }
}

impl<'a> Engine<'a> {
    /// A function that was entered begins, with the call that waits for it.
    fn start_function(
        &mut self,
        alloc: Global,
        to: Option<u32>,
        place: Place,
        g: &'a Routine,
        values: &[Value],
    ) -> Comes
        requires { length values.now < 2 ^ 32 }
        ensures { IfOk result (λ m. (m, state_of self.new)
            ≡ started place (waiting to (state_of self.old)) g.now g.now.code values.now (state_of self.old)) }
    {
        if g.code.is_empty() {
            return Ok(undefined(UndefinedKind::Call, place));
        }
        let frame = frame_of(alloc, g.locals.as_slice())?;
        let frame = self.room.exchange(frame);
        if let Some(to) = to {
            let routine = self.routine;
            let left = self.left;
            self.callers.push(Caller {
                to,
                routine,
                left,
                frame,
            })?;
        }
        self.routine = g;
        self.left = g.code.len();
        match receive(
            alloc,
            &mut self.room,
            place,
            g.parameters.as_slice(),
            values,
        )? {
            Ok(()) => Ok(Moved::Goes),
            Err(end) => Ok(Moved::Over(end)),
        }
    }

    /// A function is entered, and leaves its result in a temporary; `main` in none.
    fn enter(
        &mut self,
        alloc: Global,
        to: Option<u32>,
        place: Place,
        f: usize,
        values: &[Value],
    ) -> Comes
        requires { length values.now < 2 ^ 32 }
        ensures { IfOk result (λ m. (m, state_of self.new) ≡ calls to place f values.now (state_of self.old)) }
    {
        let Some(g) = self.code.routines.get(f) else {
            return Ok(undefined(UndefinedKind::Call, place));
        };
        match self.room.enter(f)? {
            Ok(()) => self.start_function(alloc, to, place, g, values),
            Err(end) => Ok(Moved::Over(end)),
        }
    }

    /// `main` is called, with no arguments.
    pub fn start(&mut self, alloc: Global) -> Result<Moved, NoMemory>
        ensures { IfOk result (λ m. (m, state_of self.new) ≡ main_called (state_of self.old)) }
    {
        self.enter(alloc, None, NO_PLACE, self.code.main, &[])
    }

    fn call(&mut self, alloc: Global, to: u32, place: Place, f: usize, row: Row) -> Comes
        ensures { IfOk result (λ m. (m, state_of self.new) ≡ enacted (S.Call to place f row) (state_of self.old)) }
    {
        match read_row(alloc, &self.room, place, row)? {
            Ok(values) => self.enter(alloc, Some(to), place, f, values.as_slice()),
            Err(end) => Ok(Moved::Over(end)),
        }
    }

    /// A function is entered through a pointer of a type.
    fn enter_through(
        &mut self,
        alloc: Global,
        to: u32,
        place: Place,
        ty: usize,
        q: Ptr,
        values: &[Value],
    ) -> Comes
        requires { length values.now < 2 ^ 32 }
        ensures { IfOk result (λ m. (m, state_of self.new) ≡ calls_through to place ty q values.now (state_of self.old)) }
    {
        let Ptr::Function(f) = q else {
            return Ok(undefined(UndefinedKind::Call, place));
        };
        let Some(g) = self.code.routines.get(f) else {
            return Ok(undefined(UndefinedKind::Call, place));
        };
        if !self.types.is_called_as(ty, g.ty) {
            return Ok(undefined(UndefinedKind::Call, place));
        }
        self.enter(alloc, Some(to), place, f, values)
    }

    fn call_through(
        &mut self,
        alloc: Global,
        to: u32,
        place: Place,
        ty: usize,
        a: Operand,
        row: Row,
    ) -> Comes
        ensures { IfOk result (λ m. (m, state_of self.new) ≡ enacted (S.CallThrough to place ty a row) (state_of self.old)) }
    {
        let q = match read(&self.room, a) {
            Ok(v) => pointer_of(v),
            Err(end) => return Ok(Moved::Over(end)),
        };
        match read_row(alloc, &self.room, place, row)? {
            Ok(values) => self.enter_through(alloc, to, place, ty, q, values.as_slice()),
            Err(end) => Ok(Moved::Over(end)),
        }
    }

    /// The function that runs is left with a value, or none, and with it what of its locals has begun.
    fn leave(&mut self, v: Option<Value>) -> Comes
        ensures { IfOk result (λ m. (m, state_of self.new) ≡ returned v (state_of self.old).callers (state_of self.old)) }
    {
        self.room.end_all();
        match self.callers.pop() {
            Some(caller) => {
                let Caller {
                    to,
                    routine,
                    left,
                    frame,
                } = caller;
                self.routine = routine;
                self.left = left;
                self.room.leave(frame);
                self.put_any(to, v)
            }
            None => {
                self.room.depth = self.room.depth.saturating_sub(1);
                Ok(Moved::Over(final_by(self.code.place, v)))
            }
        }
    }

    fn give_back(&mut self, a: Option<Operand>) -> Comes
        ensures { IfOk result (λ m. (m, state_of self.new) ≡ enacted (S.Return a) (state_of self.old)) }
    {
        match a {
            Some(a) => match read(&self.room, a) {
                Ok(v) => self.leave(Some(v)),
                Err(end) => Ok(Moved::Over(end)),
            },
            None => self.leave(None),
        }
    }

    fn give_back_held(&mut self, t: u32) -> Comes
        ensures { IfOk result (λ m. (m, state_of self.new) ≡ enacted (S.ReturnHeld t) (state_of self.old)) }
    {
        match self.room.slot(t) {
            Some(Slot::ByName(v)) => self.leave(v),
            _ => self.leave(None),
        }
    }

    /// A call or a return, or a step that does anything else.
    #[inline(never)]
    pub(crate) fn enact_call(&mut self, alloc: Global, step: &Step) -> Comes
        requires way { for_calls step.now ≡ true }
        requires room { StepHasRoom step.now (state_of self.old) }
        ensures { IfOk result (λ m. (m, state_of self.new) ≡ enacted step.now (state_of self.old)) }
    {
        match *step {
            Step::Call(t, at, f, row) => self.call(alloc, t, at, f, row),
            Step::CallThrough(t, at, ty, a, row) => self.call_through(alloc, t, at, ty, a, row),
            Step::Library(t, at, which, row) => self.call_library(alloc, t, at, which, row),
            Step::Allocate(t, at, r, size, zero, a) => {
                self.allocate(alloc, t, at, r, size, zero, a)
            }
            Step::Return(a) => self.give_back(a),
            Step::ReturnHeld(t) => self.give_back_held(t),
            _ => self.enact_place(alloc, step),
        }
    }
}
