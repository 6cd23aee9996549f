//! Steps that lead to places in memory, load and store there, and begin and end the blocks of locals.

ghost use Rattle.std.specs.Prelude.{◌≡◌, ◌≤◌, [], IfOk, get_or, true};
ghost use Rattle.block_memory.specs.View.{memory_of};
ghost use Rattle.block_memory.specs.declared.run_worlds.value.Value.TheVariants.{Pointer};
ghost use Rattle.c_meaning.specs.Expressions.{field_in};
ghost use Rattle.source_values.specs.Ways.{way_to};
ghost use Rattle.tac_ir.specs.declared.step.Step.TheVariants as S;
ghost use Rattle.tac_engine.specs.Rooms.{StepHasRoom};
ghost use Rattle.tac_engine.specs.States.{finding, putting};
ghost use Rattle.tac_engine.specs.Steps.{enacted};
ghost use Rattle.tac_engine.specs.View.{state_of};
ghost use Rattle.tac_engine.specs.Ways.{for_blocks, for_places};

use crate::engine::{Comes, Engine};
use crate::far::{far_bytes, far_field, far_part};
use crate::temporaries::{pointer, read, read_both, word};
use crate::values::GREATEST_SIZE;
use block_memory::{Access, Ptr, Store, Value};
use c_meaning::{Slot, Spot};
use c_types::IntKind;
use lay_base::{Place, UndefinedKind};
use source_state::{Moved, undefined};
use source_values::{bytes_of, field_in, is_subscript, number_of, part_in, pointer_of, way_to};
use std::alloc::Global;
use tac_ir::{Operand, Routine, Step};

/// A text of a function, which is empty where none has that number.
fn text_of(routine: &Routine, number: usize) -> &[u8]
    ensures { result.now ≡ get_or routine.now.texts number [] }
{
    match routine.texts.get(number) {
        Some(text) => text.as_slice(),
        None => &[],
    }
}

/// The way to a field of an element through a pointer.
fn element_field_in(
    store: &Store,
    p: Ptr,
    kind: IntKind,
    word: u32,
    size: u32,
    by: u32,
) -> Result<Ptr, UndefinedKind>
    ensures { result ≡ field_in (memory_of store.now) p (way_to kind word size by) }
{
    if size <= GREATEST_SIZE {
        field_in(store, p, way_to(kind, word, size, by))
    } else {
        far_field(store, p, far_bytes(kind, word, size), by)
    }
}

impl<'a> Engine<'a> {
    // ---- the ways to fields and elements

    /// A temporary takes a pointer that is found.
    fn led(&mut self, t: u32, place: Place, q: Result<Ptr, UndefinedKind>) -> Comes
        ensures { IfOk result (λ m. (m, state_of self.new) ≡ finding place q (state_of self.old) (λ q. putting t (Pointer q) (state_of self.old))) }
    {
        match q {
            Ok(q) => self.put(t, Value::Pointer(q)),
            Err(kind) => Ok(undefined(kind, place)),
        }
    }

    fn field(&mut self, t: u32, place: Place, by: u32, a: Operand) -> Comes
        ensures { IfOk result (λ m. (m, state_of self.new) ≡ enacted (S.Field t place by a) (state_of self.old)) }
    {
        match read(&self.room, a) {
            Ok(v) => {
                let q = field_in(&self.room.store, pointer_of(v), i64::from(by));
                self.led(t, place, q)
            }
            Err(end) => Ok(Moved::Over(end)),
        }
    }

    fn element_field(
        &mut self,
        t: u32,
        place: Place,
        size: u32,
        kind: IntKind,
        by: u32,
        a: Operand,
        b: Operand,
    ) -> Comes
        ensures { IfOk result (λ m. (m, state_of self.new) ≡ enacted (S.ElementField t place size kind by a b) (state_of self.old)) }
    {
        match read_both(&self.room, a, b) {
            Ok((v, Value::Word(w))) => {
                let q = element_field_in(&self.room.store, pointer_of(v), kind, w, size, by);
                self.led(t, place, q)
            }
            Ok((_, Value::Pointer(_))) => Ok(undefined(UndefinedKind::Pointer, place)),
            Err(end) => Ok(Moved::Over(end)),
        }
    }

    fn part(&mut self, t: u32, place: Place, by: u32, a: Operand) -> Comes
        ensures { IfOk result (λ m. (m, state_of self.new) ≡ enacted (S.Part t place by a) (state_of self.old)) }
    {
        match read(&self.room, a) {
            Ok(v) => {
                let q = part_in(&self.room.store, pointer_of(v), i64::from(by));
                self.led(t, place, q)
            }
            Err(end) => Ok(Moved::Over(end)),
        }
    }

    #[inline(never)]
    fn element_apart(
        &mut self,
        t: u32,
        place: Place,
        length: u32,
        size: u32,
        addressed: bool,
        kind: IntKind,
        a: Operand,
        b: Operand,
    ) -> Comes
        ensures { IfOk result (λ m. (m, state_of self.new) ≡ enacted (S.Element t place length size addressed kind a b) (state_of self.old)) }
    {
        match read_both(&self.room, a, b) {
            Ok((v, Value::Word(word))) => {
                if is_subscript(length, addressed, number_of(kind, word)) {
                    let bytes = far_bytes(kind, word, size);
                    let q = far_part(&self.room.store, pointer_of(v), bytes);
                    self.led(t, place, q)
                } else {
                    Ok(undefined(UndefinedKind::Subscript, place))
                }
            }
            Ok((_, Value::Pointer(_))) => Ok(undefined(UndefinedKind::Pointer, place)),
            Err(end) => Ok(Moved::Over(end)),
        }
    }

    /// In a shorter way where both operands hold what they should.
    #[inline(always)]
    pub(crate) fn element(
        &mut self,
        t: u32,
        place: Place,
        length: u32,
        size: u32,
        addressed: bool,
        kind: IntKind,
        a: &Operand,
        b: &Operand,
    ) -> Comes
        ensures { IfOk result (λ m. (m, state_of self.new) ≡ enacted (S.Element t place length size addressed kind a.now b.now) (state_of self.old)) }
    {
        if let Some(q) = pointer(&self.room, a) {
            if let Some(w) = word(&self.room, b) {
                if size <= GREATEST_SIZE && is_subscript(length, addressed, number_of(kind, w)) {
                    if let Ok(r) = part_in(&self.room.store, q, bytes_of(kind, w, size)) {
                        return self.put(t, Value::Pointer(r));
                    }
                }
            }
        }
        self.element_apart(t, place, length, size, addressed, kind, *a, *b)
    }

    // ---- loads and stores

    #[inline(never)]
    fn load_apart(&mut self, t: u32, place: Place, access: Access, a: Operand) -> Comes
        ensures { IfOk result (λ m. (m, state_of self.new) ≡ enacted (S.Load t place access a) (state_of self.old)) }
    {
        match read(&self.room, a) {
            Ok(q) => {
                let value = self.room.load(pointer_of(q), access);
                self.found(t, place, value)
            }
            Err(end) => Ok(Moved::Over(end)),
        }
    }

    /// Of numbers, which programs load most, in a shorter way.
    #[inline(always)]
    pub(crate) fn load(&mut self, t: u32, place: Place, access: Access, a: &Operand) -> Comes
        ensures { IfOk result (λ m. (m, state_of self.new) ≡ enacted (S.Load t place access a.now) (state_of self.old)) }
    {
        if let Access::Number(kind) = access {
            if let Some(q) = pointer(&self.room, a) {
                if let Ok(v) = self.room.store.load_int(q, kind) {
                    return self.put(t, Value::Word(v));
                }
            }
        }
        self.load_apart(t, place, access, *a)
    }

    fn store(&mut self, place: Place, access: Access, a: Operand, b: Operand) -> Comes
        ensures { IfOk result (λ m. (m, state_of self.new) ≡ enacted (S.Store place access a b) (state_of self.old)) }
    {
        match read_both(&self.room, a, b) {
            Ok((q, v)) => match self.room.store(pointer_of(q), access, v) {
                Ok(()) => Ok(Moved::Goes),
                Err(kind) => Ok(undefined(kind, place)),
            },
            Err(end) => Ok(Moved::Over(end)),
        }
    }

    fn copy_record(&mut self, place: Place, size: u32, a: Operand, b: Operand) -> Comes
        ensures { IfOk result (λ m. (m, state_of self.new) ≡ enacted (S.CopyRecord place size a b) (state_of self.old)) }
    {
        match read_both(&self.room, a, b) {
            Ok((q, r)) => {
                let to = Spot::Placed(pointer_of(q));
                let from = Spot::Placed(pointer_of(r));
                match self.room.copy_record(size, to, from) {
                    Ok(()) => Ok(Moved::Goes),
                    Err(kind) => Ok(undefined(kind, place)),
                }
            }
            Err(end) => Ok(Moved::Over(end)),
        }
    }

    /// A step that leads to a place in memory, loads or stores, or one that does anything else.
    #[inline(never)]
    pub(crate) fn enact_place(&mut self, alloc: Global, step: &Step) -> Comes
        requires way { for_places step.now ≡ true }
        requires room { StepHasRoom step.now (state_of self.old) }
        ensures { IfOk result (λ m. (m, state_of self.new) ≡ enacted step.now (state_of self.old)) }
    {
        match *step {
            Step::Store(at, access, a, b) => self.store(at, access, a, b),
            Step::Field(t, at, by, a) => self.field(t, at, by, a),
            Step::ElementField(t, at, size, kind, by, a, b) => {
                self.element_field(t, at, size, kind, by, a, b)
            }
            Step::Part(t, at, by, a) => self.part(t, at, by, a),
            Step::Inside(t, at, x, by) => self.inside(t, at, x, by),
            Step::CopyRecord(at, size, a, b) => self.copy_record(at, size, a, b),
            _ => self.enact_block(alloc, step),
        }
    }

    // ---- the blocks of locals

    fn begin(&mut self, alloc: Global, x: u32, size: u32) -> Comes
        ensures { IfOk result (λ m. (m, state_of self.new) ≡ enacted (S.Begin x size) (state_of self.old)) }
    {
        match self.room.begin(alloc, x, true, size)? {
            Ok(()) => Ok(Moved::Goes),
            Err(end) => Ok(Moved::Over(end)),
        }
    }

    fn forget(&mut self, x: u32, size: u32) -> Moved
        requires { StepHasRoom (S.Forget x size) (state_of self.old) }
        ensures { (result, state_of self.new) ≡ enacted (S.Forget x size) (state_of self.old) }
    {
        self.room.empty_local(x, size);
        Moved::Goes
    }

    /// So many bytes behind the beginning of a block.
    fn inside(&mut self, t: u32, place: Place, x: u32, by: u32) -> Comes
        ensures { IfOk result (λ m. (m, state_of self.new) ≡ enacted (S.Inside t place x by) (state_of self.old)) }
    {
        match self.room.slot(x) {
            Some(Slot::InBlock(Some(block))) => self.put(t, Value::Pointer(Ptr::Block(block, by))),
            _ => Ok(undefined(UndefinedKind::Dead, place)),
        }
    }

    fn zeros(&mut self, x: u32, size: u32) -> Moved
        requires { StepHasRoom (S.Zeros x size) (state_of self.old) }
        ensures { (result, state_of self.new) ≡ enacted (S.Zeros x size) (state_of self.old) }
    {
        if let Some(Slot::InBlock(Some(block))) = self.room.slot(x) {
            self.room.zero(block, size);
        }
        Moved::Goes
    }

    fn text(&mut self, x: u32, by: u32, number: usize) -> Moved
        requires { StepHasRoom (S.Text x by number) (state_of self.old) }
        ensures { (result, state_of self.new) ≡ enacted (S.Text x by number) (state_of self.old) }
    {
        if let Some(Slot::InBlock(Some(block))) = self.room.slot(x) {
            self.room.write(block, by, text_of(self.routine, number));
        }
        Moved::Goes
    }

    /// A step that does something to the block of a local, or one that does anything else.
    #[inline(never)]
    fn enact_block(&mut self, alloc: Global, step: &Step) -> Comes
        requires way { for_blocks step.now ≡ true }
        requires room { StepHasRoom step.now (state_of self.old) }
        ensures { IfOk result (λ m. (m, state_of self.new) ≡ enacted step.now (state_of self.old)) }
    {
        match *step {
            Step::Begin(x, size) => self.begin(alloc, x, size),
            Step::End(x) => {
                self.room.finish(x);
                Ok(Moved::Goes)
            }
            Step::Forget(x, size) => Ok(self.forget(x, size)),
            Step::Zeros(x, size) => Ok(self.zeros(x, size)),
            Step::Text(x, by, number) => Ok(self.text(x, by, number)),
            _ => self.enact_jump(step),
        }
    }
}
