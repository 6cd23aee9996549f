//! Steps that compute values.

ghost use Rattle.std.specs.Prelude.{◌≡◌, ◌≤◌, IfOk, true};
ghost use Rattle.block_memory.specs.RunWorlds.Operators.{common_kind, moved_from, pointer_op, updated};
ghost use Rattle.block_memory.specs.View.{memory_of};
ghost use Rattle.c_types.specs.Types.{integer};
ghost use Rattle.tac_ir.specs.Running.{as_number, type_of_sort};
ghost use Rattle.tac_ir.specs.declared.step.Step.TheVariants as S;
ghost use Rattle.tac_engine.specs.Rooms.{StepHasRoom};
ghost use Rattle.tac_engine.specs.States.{found, putting, putting_any};
ghost use Rattle.tac_engine.specs.Steps.{enacted};
ghost use Rattle.tac_engine.specs.View.{state_of};
ghost use Rattle.tac_engine.specs.Ways.{for_one, for_two};

use crate::engine::{Comes, Engine};
use crate::far::far_moved;
use crate::temporaries::{put_slot, read, read_both};
use block_memory::{Store, Value};
use c_meaning::Slot;
use c_typed::{BinaryOp, PointerOp, is_shift, promoted_kind};
use c_types::IntKind;
use lay_base::{Place, UndefinedKind};
use source_state::{Moved, undefined};
use source_values::{
    binary, compared, convert, distance, flag, is_true, moved, moved_from, null_or_pointer, unary,
};
use std::alloc::Global;
use tac_ir::{Operand, Sort, Step};

/// The greatest size of a type, in bytes.
pub(crate) const GREATEST_SIZE: u32 = 16_777_216;

/// The kind in which a number of a kind is updated.
fn common_kind(op: BinaryOp, left: IntKind, right: IntKind) -> IntKind
    ensures { result ≡ common_kind op left right }
{
    if is_shift(op) {
        promoted_kind(left)
    } else {
        right
    }
}

/// What a compound assignment does to a pointer.
fn pointer_op(op: BinaryOp) -> PointerOp
    ensures { result ≡ pointer_op op }
{
    match op {
        BinaryOp::Subtract => PointerOp::Subtract,
        _ => PointerOp::Add,
    }
}

/// A pointer and a number of elements of a size (C99 6.5.6), where the pointer is the left operand or the right one.
fn shifted(
    store: &Store,
    left: bool,
    op: PointerOp,
    size: u32,
    kind: IntKind,
    v: Value,
    w: Value,
) -> Result<Value, UndefinedKind>
    ensures { result ≡ moved_from left (memory_of store.now) op size kind v w }
{
    if size <= GREATEST_SIZE {
        moved_from(store, left, op, size, kind, v, w)
    } else if left {
        far_moved(store, op, size, kind, v, w)
    } else {
        far_moved(store, op, size, kind, w, v)
    }
}

/// What a compound assignment stores (C99 6.5.16.2).
fn updated(
    store: &Store,
    op: BinaryOp,
    size: u32,
    sort: Sort,
    old: Value,
    right: IntKind,
    v: Value,
) -> Result<Value, UndefinedKind>
    ensures { result ≡ updated (memory_of store.now) op size (type_of_sort sort) old (integer right) v }
{
    match sort {
        Sort::Number(kind) => {
            let common = common_kind(op, kind, right);
            match convert(common, old) {
                Ok(old) => match binary(op, common, old, right, v) {
                    Ok(new) => convert(kind, new),
                    Err(kind) => Err(kind),
                },
                Err(kind) => Err(kind),
            }
        }
        Sort::Pointer => {
            if size <= GREATEST_SIZE {
                moved(store, pointer_op(op), size, right, old, v)
            } else {
                far_moved(store, pointer_op(op), size, right, old, v)
            }
        }
    }
}

/// A number as it is.
fn number(v: Value) -> Result<Value, UndefinedKind>
    ensures { result ≡ as_number v }
{
    match v {
        Value::Word(_) => Ok(v),
        Value::Pointer(_) => Err(UndefinedKind::Pointer),
    }
}

impl<'a> Engine<'a> {
    /// A temporary takes a value or holds none.
    #[inline(always)]
    pub(crate) fn put_any(&mut self, t: u32, v: Option<Value>) -> Comes
        ensures { IfOk result (λ m. (m, state_of self.new) ≡ putting_any t v (state_of self.old)) }
    {
        put_slot(&mut self.room, t, Slot::ByName(v))?;
        Ok(Moved::Goes)
    }

    /// A temporary takes a value.
    #[inline(always)]
    pub(crate) fn put(&mut self, t: u32, v: Value) -> Comes
        ensures { IfOk result (λ m. (m, state_of self.new) ≡ putting t v (state_of self.old)) }
    {
        self.put_any(t, Some(v))
    }

    /// A temporary takes a value that is found.
    #[inline(always)]
    pub(crate) fn found(&mut self, t: u32, place: Place, v: Result<Value, UndefinedKind>) -> Comes
        ensures { IfOk result (λ m. (m, state_of self.new) ≡ found t place v (state_of self.old)) }
    {
        match v {
            Ok(v) => self.put(t, v),
            Err(kind) => Ok(undefined(kind, place)),
        }
    }

    // ---- the steps

    /// A step that computes a value of two operands, or one that does anything else.
    #[inline(never)]
    pub(crate) fn enact_two(&mut self, alloc: Global, step: &Step) -> Comes
        requires way { for_two step.now ≡ true }
        requires room { StepHasRoom step.now (state_of self.old) }
        ensures { IfOk result (λ m. (m, state_of self.new) ≡ enacted step.now (state_of self.old)) }
    {
        match *step {
            Step::Binary(t, at, op, kind, right, a, b) => match read_both(&self.room, a, b) {
                Ok((v, w)) => self.found(t, at, binary(op, kind, v, right, w)),
                Err(end) => Ok(Moved::Over(end)),
            },
            Step::Compare(t, at, op, kind, a, b) => match read_both(&self.room, a, b) {
                Ok((v, w)) => {
                    let value = compared(&self.room.store, op, kind, v, w);
                    self.found(t, at, value)
                }
                Err(end) => Ok(Moved::Over(end)),
            },
            Step::Distance(t, at, size, a, b) => match read_both(&self.room, a, b) {
                Ok((v, w)) => self.found(t, at, distance(size, v, w)),
                Err(end) => Ok(Moved::Over(end)),
            },
            Step::Move(t, at, op, size, left, kind, a, b) => {
                self.shift(t, at, op, size, left, kind, a, b)
            }
            Step::Update(t, at, op, size, sort, right, a, b) => {
                self.update(t, at, op, size, sort, right, a, b)
            }
            _ => self.enact_one(alloc, step),
        }
    }

    /// A step that computes a value of one operand, or one that does anything else.
    #[inline(never)]
    fn enact_one(&mut self, alloc: Global, step: &Step) -> Comes
        requires way { for_one step.now ≡ true }
        requires room { StepHasRoom step.now (state_of self.old) }
        ensures { IfOk result (λ m. (m, state_of self.new) ≡ enacted step.now (state_of self.old)) }
    {
        match *step {
            Step::Set(t, a) => match read(&self.room, a) {
                Ok(v) => self.put(t, v),
                Err(end) => Ok(Moved::Over(end)),
            },
            Step::Clear(t) => self.put_any(t, None),
            Step::Unary(t, at, op, a) => match read(&self.room, a) {
                Ok(v) => self.found(t, at, unary(op, v)),
                Err(end) => Ok(Moved::Over(end)),
            },
            Step::Not(t, a) => match read(&self.room, a) {
                Ok(v) => self.put(t, flag(!is_true(v))),
                Err(end) => Ok(Moved::Over(end)),
            },
            Step::Convert(t, at, kind, a) => match read(&self.room, a) {
                Ok(v) => self.found(t, at, convert(kind, v)),
                Err(end) => Ok(Moved::Over(end)),
            },
            Step::AsPointer(t, at, a) => match read(&self.room, a) {
                Ok(v) => self.found(t, at, null_or_pointer(v)),
                Err(end) => Ok(Moved::Over(end)),
            },
            Step::Number(t, at, a) => match read(&self.room, a) {
                Ok(v) => self.found(t, at, number(v)),
                Err(end) => Ok(Moved::Over(end)),
            },
            _ => self.enact_call(alloc, step),
        }
    }

    /// A pointer and a number of elements.
    fn shift(
        &mut self,
        t: u32,
        place: Place,
        op: PointerOp,
        size: u32,
        left: bool,
        kind: IntKind,
        a: Operand,
        b: Operand,
    ) -> Comes
        ensures { IfOk result (λ m. (m, state_of self.new) ≡ enacted (S.Move t place op size left kind a b) (state_of self.old)) }
    {
        match read_both(&self.room, a, b) {
            Ok((v, w)) => {
                let value = shifted(&self.room.store, left, op, size, kind, v, w);
                self.found(t, place, value)
            }
            Err(end) => Ok(Moved::Over(end)),
        }
    }

    fn update(
        &mut self,
        t: u32,
        place: Place,
        op: BinaryOp,
        size: u32,
        sort: Sort,
        right: IntKind,
        a: Operand,
        b: Operand,
    ) -> Comes
        ensures { IfOk result (λ m. (m, state_of self.new) ≡ enacted (S.Update t place op size sort right a b) (state_of self.old)) }
    {
        // The operand on the right comes first.
        match read_both(&self.room, b, a) {
            Ok((w, v)) => {
                let value = updated(&self.room.store, op, size, sort, v, right, w);
                self.found(t, place, value)
            }
            Err(end) => Ok(Moved::Over(end)),
        }
    }
}
