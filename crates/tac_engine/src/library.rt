//! What the library does (C99 7.19.7, 7.20.3, 7.20.4, 7.21), and recognised allocations.

ghost use Rattle.std.specs.Prelude.{◌≡◌, ◌<◌, ◌-◌, ◌^◌, ◌∷◌, [], IfOk};
ghost use Rattle.c_typed.specs.declared.operators.LibraryFunction.TheVariants as L;
ghost use Rattle.tac_ir.specs.declared.step.Step.TheVariants as S;
ghost use Rattle.tac_engine.specs.Steps.{copied, enacted, library, made};
ghost use Rattle.tac_engine.specs.View.{state_of};

use crate::engine::{Comes, Engine};
use crate::temporaries::{read, read_row};
use block_memory::Value;
use c_typed::LibraryFunction as Library;
use lay_base::{NoMemory, Place, UndefinedKind};
use source_state::{Final, Moved, undefined};
use std::alloc::Global;
use tac_ir::{Operand, Row};

impl<'a> Engine<'a> {
    // ---- allocations

    /// A new allocation of so many bytes.
    fn make(&mut self, alloc: Global, t: u32, size: u64, zero: bool) -> Comes
        requires { size < 2 ^ 64 - 2 ^ 32 }
        ensures { IfOk result (λ m. (m, state_of self.new) ≡ made t size zero (state_of self.old)) }
    {
        match self.room.allocate(alloc, size, zero)? {
            Ok(v) => self.put(t, v),
            Err(end) => Ok(Moved::Over(end)),
        }
    }

    /// So many records of a size. Their number is for the trace alone.
    pub(crate) fn allocate(
        &mut self,
        alloc: Global,
        t: u32,
        place: Place,
        r: usize,
        size: u32,
        zero: bool,
        a: Operand,
    ) -> Comes
        ensures { IfOk result (λ m. (m, state_of self.new) ≡ enacted (S.Allocate t place r size zero a) (state_of self.old)) }
    {
        let _ = r;
        let count = match read(&self.room, a) {
            Ok(Value::Word(count)) => count,
            Ok(Value::Pointer(_)) => return Ok(undefined(UndefinedKind::Pointer, place)),
            Err(end) => return Ok(Moved::Over(end)),
        };
        let bytes = u64::from(count) * u64::from(size);
        if bytes >= 0x1000_0000 {
            return Ok(undefined(UndefinedKind::Huge, place));
        }
        self.make(alloc, t, bytes, zero)
    }

    /// `malloc`.
    fn bytes(&mut self, alloc: Global, t: u32, place: Place, v: Value) -> Comes
        ensures { IfOk result (λ m. (m, state_of self.new) ≡ library t place L.Malloc (v ∷ []) (state_of self.old)) }
    {
        match v {
            Value::Word(size) => self.make(alloc, t, u64::from(size), false),
            Value::Pointer(_) => Ok(undefined(UndefinedKind::Pointer, place)),
        }
    }

    /// `calloc`.
    fn elements(&mut self, alloc: Global, t: u32, place: Place, v: Value, w: Value) -> Comes
        ensures { IfOk result (λ m. (m, state_of self.new) ≡ library t place L.Calloc (v ∷ w ∷ []) (state_of self.old)) }
    {
        match (v, w) {
            (Value::Word(count), Value::Word(size)) => {
                self.make(alloc, t, u64::from(count) * u64::from(size), true)
            }
            _ => Ok(undefined(UndefinedKind::Pointer, place)),
        }
    }

    fn free(&mut self, t: u32, place: Place, v: Value) -> Comes
        ensures { IfOk result (λ m. (m, state_of self.new) ≡ library t place L.Free (v ∷ []) (state_of self.old)) }
    {
        let Value::Pointer(p) = v else {
            return Ok(undefined(UndefinedKind::Pointer, place));
        };
        match self.room.free(p) {
            Ok(()) => self.put_any(t, None),
            Err(kind) => Ok(undefined(kind, place)),
        }
    }

    // ---- ranges of bytes

    fn copy(
        &mut self,
        t: u32,
        place: Place,
        to: Value,
        from: Value,
        count: Value,
        overlap: bool,
    ) -> Comes
        ensures { IfOk result (λ m. (m, state_of self.new) ≡ copied t place to from count overlap (state_of self.old)) }
    {
        let (Value::Pointer(to), Value::Pointer(from), Value::Word(count)) = (to, from, count)
        else {
            return Ok(undefined(UndefinedKind::Pointer, place));
        };
        match self.room.copy(to, from, count, overlap) {
            Ok(()) => self.put(t, Value::Pointer(to)),
            Err(kind) => Ok(undefined(kind, place)),
        }
    }

    fn fill(&mut self, t: u32, place: Place, to: Value, byte: Value, count: Value) -> Comes
        ensures { IfOk result (λ m. (m, state_of self.new) ≡ library t place L.Memset (to ∷ byte ∷ count ∷ []) (state_of self.old)) }
    {
        let (Value::Pointer(to), Value::Word(byte), Value::Word(count)) = (to, byte, count) else {
            return Ok(undefined(UndefinedKind::Pointer, place));
        };
        match self.room.fill(to, byte, count) {
            Ok(()) => self.put(t, Value::Pointer(to)),
            Err(kind) => Ok(undefined(kind, place)),
        }
    }

    fn compare(&mut self, t: u32, place: Place, v: Value, w: Value, count: Value) -> Comes
        ensures { IfOk result (λ m. (m, state_of self.new) ≡ library t place L.Memcmp (v ∷ w ∷ count ∷ []) (state_of self.old)) }
    {
        let (Value::Pointer(p), Value::Pointer(q), Value::Word(count)) = (v, w, count) else {
            return Ok(undefined(UndefinedKind::Pointer, place));
        };
        let order = self.room.compare(p, q, count);
        self.found(t, place, order)
    }

    // ---- all of it

    /// `putchar`, whose byte is left to the run.
    fn write(&mut self, t: u32, place: Place, v: Value) -> Comes
        ensures { IfOk result (λ m. (m, state_of self.new) ≡ library t place L.Putchar (v ∷ []) (state_of self.old)) }
    {
        let Value::Word(word) = v else {
            return Ok(undefined(UndefinedKind::Pointer, place));
        };
        let byte = word % 0x100;
        self.put(t, Value::Word(byte))?;
        Ok(Moved::Puts(byte as u8))
    }

    /// A function of the library. What is written or read outside is left to the run.
    fn library(&mut self, alloc: Global, t: u32, at: Place, which: Library, all: &[Value]) -> Comes
        ensures { IfOk result (λ m. (m, state_of self.new) ≡ library t at which all.now (state_of self.old)) }
    {
        match (which, all) {
            (Library::Malloc, [v]) => self.bytes(alloc, t, at, *v),
            (Library::Calloc, [v, w]) => self.elements(alloc, t, at, *v, *w),
            (Library::Free, [v]) => self.free(t, at, *v),
            (Library::Memcpy, [v, w, n]) => self.copy(t, at, *v, *w, *n, false),
            (Library::Memmove, [v, w, n]) => self.copy(t, at, *v, *w, *n, true),
            (Library::Memset, [v, c, n]) => self.fill(t, at, *v, *c, *n),
            (Library::Memcmp, [v, w, n]) => self.compare(t, at, *v, *w, *n),
            (Library::Putchar, [v]) => self.write(t, at, *v),
            (Library::Getchar, []) => {
                self.to = t;
                Ok(Moved::Gets)
            }
            (Library::Exit, [v]) => match *v {
                Value::Word(word) => Ok(Moved::Over(Final::Ends((word % 0x100) as u8))),
                Value::Pointer(_) => Ok(undefined(UndefinedKind::Pointer, at)),
            },
            _ => Ok(undefined(UndefinedKind::Call, at)),
        }
    }

    pub(crate) fn call_library(
        &mut self,
        alloc: Global,
        t: u32,
        place: Place,
        which: Library,
        row: Row,
    ) -> Comes
        ensures { IfOk result (λ m. (m, state_of self.new) ≡ enacted (S.Library t place which row) (state_of self.old)) }
    {
        match read_row(alloc, &self.room, place, row)? {
            Ok(values) => self.library(alloc, t, place, which, values.as_slice()),
            Err(end) => Ok(Moved::Over(end)),
        }
    }
}
