//! The steps of nodes, whose operands are made afterwards. Where there are two, the right one stands in a temporary of its own.

ghost use Rattle.std.specs.Prelude.{◌≡◌, ◌+◌, ◌<◌, ◌^◌, ◌∷◌, Some, false, if◌then◌else◌, map, slice_get, true};
ghost use Rattle.lay_base.specs.declared.faults.UndefinedKind.TheVariants as K;
ghost use Rattle.c_typed.specs.Constants.{kind_of, ty};
ghost use Rattle.c_typed.specs.Conversions.{is_pointer};
ghost use Rattle.c_typed.specs.Typed.{at_of, path_ty};
ghost use Rattle.c_typed.specs.Views.{expression_of, expressions_of, path_of};
ghost use Rattle.c_typed.specs.declared.operators.PointerOp.TheVariants as PO;
ghost use Rattle.block_memory.specs.RunWorlds.Operators.{step_op};
ghost use Rattle.c_meaning.specs.Expressions.{count_kind};
ghost use Rattle.c_meaning.specs.Program.{access_at, element_size, length_of, size_at, type_at};
ghost use Rattle.tac_ir.specs.declared.step.Operand.TheVariants as O;
ghost use Rattle.tac_ir.specs.declared.step.Step.TheVariants as S;
ghost use Rattle.lower_tac.specs.Asked.{asked_by_all};
ghost use Rattle.lower_tac.specs.Expressions.{count_of, local_code, no_result, result_code, step_named, unit_kind, update};
ghost use Rattle.lower_tac.specs.Grounds.{locals_in, part_in, place_in, program_in};
ghost use Rattle.lower_tac.specs.Parts.{left_operand, operand, settled_operand, temp, tested_if};
ghost use Rattle.lower_tac.specs.Writing.{Wrote, code_in};

use crate::ground::Ground;
use crate::operands::temp;
use crate::steps::{ALONE, put_no_result, put_result, row, step_op};
use crate::writer::Writer;
use c_typed::{BinaryOp, CompareOp, Expression, LibraryFunction, Path, PointerOp, StepOp};
use lay_base::{List, Place, UndefinedKind};
use tac_ir::{Operand, Step, Target};

impl Ground<'_> {
    pub fn put_binary(
        &self,
        w: &mut Writer,
        t: usize,
        at: Place,
        op: BinaryOp,
        x: &Expression,
        y: &Expression,
        to: u32,
        d: u32,
        right: u32,
    )
        ensures { Wrote w.old w.new (λ code. S.Binary to at op (kind_of (type_at (program_in self.now) t)) (kind_of (type_at (program_in self.now) (ty (expression_of y.now)))) (left_operand (part_in self.now y.now).atom (part_in self.now x.now) d) (operand (part_in self.now y.now) right) ∷ code) }
    {
        let a = self.left(self.atom(y), x, d);
        let b = self.operand(y, right);
        w.put(Step::Binary(to, at, op, self.kind(t), self.kind(y.ty), a, b));
    }

    pub fn put_comparison(
        &self,
        w: &mut Writer,
        at: Place,
        op: CompareOp,
        x: &Expression,
        y: &Expression,
        to: u32,
        d: u32,
        right: u32,
    )
        ensures { Wrote w.old w.new (λ code. S.Compare to at op (kind_of (type_at (program_in self.now) (ty (expression_of x.now)))) (left_operand (part_in self.now y.now).atom (part_in self.now x.now) d) (operand (part_in self.now y.now) right) ∷ code) }
    {
        let a = self.left(self.atom(y), x, d);
        let b = self.operand(y, right);
        w.put(Step::Compare(to, at, op, self.kind(x.ty), a, b));
    }

    pub fn put_move(
        &self,
        w: &mut Writer,
        t: usize,
        at: Place,
        op: PointerOp,
        x: &Expression,
        y: &Expression,
        to: u32,
        d: u32,
        right: u32,
    )
        ensures { Wrote w.old w.new (λ code. S.Move to at op (element_size (program_in self.now) (type_at (program_in self.now) t)) (is_pointer (type_at (program_in self.now) (ty (expression_of x.now)))) (count_kind (type_at (program_in self.now) (ty (expression_of x.now))) (type_at (program_in self.now) (ty (expression_of y.now)))) (left_operand (part_in self.now y.now).atom (part_in self.now x.now) d) (operand (part_in self.now y.now) right) ∷ code) }
    {
        let a = self.left(self.atom(y), x, d);
        let b = self.operand(y, right);
        let element = self.types.row(t).element;
        let left = self.is_pointer(x.ty);
        let kind = self.count_kind(x.ty, y.ty);
        w.put(Step::Move(to, at, op, element, left, kind, a, b));
    }

    pub fn put_difference(
        &self,
        w: &mut Writer,
        at: Place,
        x: &Expression,
        y: &Expression,
        to: u32,
        d: u32,
        right: u32,
    )
        ensures { Wrote w.old w.new (λ code. S.Distance to at (element_size (program_in self.now) (type_at (program_in self.now) (ty (expression_of x.now)))) (left_operand (part_in self.now y.now).atom (part_in self.now x.now) d) (operand (part_in self.now y.now) right) ∷ code) }
    {
        let a = self.left(self.atom(y), x, d);
        let b = self.operand(y, right);
        w.put(Step::Distance(to, at, self.types.row(x.ty).element, a, b));
    }

    pub fn put_jump(
        &self,
        w: &mut Writer,
        at: Place,
        op: CompareOp,
        when: bool,
        x: &Expression,
        y: &Expression,
        target: Target,
        d: u32,
        right: u32,
    )
        ensures { Wrote w.old w.new (λ code. S.Test at op (kind_of (type_at (program_in self.now) (ty (expression_of x.now)))) when (left_operand (part_in self.now y.now).atom (part_in self.now x.now) d) (operand (part_in self.now y.now) right) target ∷ code) }
    {
        let a = self.left(self.atom(y), x, d);
        let b = self.operand(y, right);
        w.put(Step::Test(at, op, self.kind(x.ty), when, a, b, target));
    }

    pub fn put_index(
        &self,
        w: &mut Writer,
        t: usize,
        at: Place,
        x: &Expression,
        y: &Expression,
        to: u32,
        d: u32,
        right: u32,
    )
        ensures { Wrote w.old w.new (λ code. S.Move to at PO.Add (size_at (program_in self.now) t) true (kind_of (type_at (program_in self.now) (ty (expression_of y.now)))) (left_operand (part_in self.now y.now).atom (part_in self.now x.now) d) (operand (part_in self.now y.now) right) ∷ code) }
    {
        let a = self.left(self.atom(y), x, d);
        let b = self.operand(y, right);
        let size = self.types.row(t).size;
        w.put(Step::Move(to, at, PointerOp::Add, size, true, self.kind(y.ty), a, b));
    }

    pub fn put_element_field(
        &self,
        w: &mut Writer,
        t: usize,
        at: Place,
        by: u32,
        x: &Expression,
        y: &Expression,
        to: u32,
        d: u32,
        right: u32,
    )
        ensures { Wrote w.old w.new (λ code. S.ElementField to at (size_at (program_in self.now) t) (kind_of (type_at (program_in self.now) (ty (expression_of y.now)))) by (left_operand (part_in self.now y.now).atom (part_in self.now x.now) d) (operand (part_in self.now y.now) right) ∷ code) }
    {
        let a = self.left(self.atom(y), x, d);
        let b = self.operand(y, right);
        w.put(Step::ElementField(to, at, self.types.row(t).size, self.kind(y.ty), by, a, b));
    }

    pub fn put_element(
        &self,
        w: &mut Writer,
        t: usize,
        at: Place,
        addressed: bool,
        q: &Path,
        y: &Expression,
        to: u32,
        d: u32,
        right: u32,
    )
        ensures { Wrote w.old w.new (λ code. S.Element to at (length_of (type_at (program_in self.now) (path_ty (path_of q.now)))) (size_at (program_in self.now) t) addressed (kind_of (type_at (program_in self.now) (ty (expression_of y.now)))) (left_operand (part_in self.now y.now).atom (place_in self.now q.now) d) (operand (part_in self.now y.now) right) ∷ code) }
    {
        let a = self.left_place(self.atom(y), q, d);
        let b = self.operand(y, right);
        let length = self.types.row(q.ty).length;
        w.put(Step::Element(
            to,
            at,
            length,
            self.types.row(t).size,
            addressed,
            self.kind(y.ty),
            a,
            b,
        ));
    }

    /// The subscript is tested, and the array is no place.
    pub fn put_no_element(
        &self,
        w: &mut Writer,
        at: Place,
        addressed: bool,
        q: &Path,
        y: &Expression,
        to: u32,
        d: u32,
    )
        ensures { Wrote w.old w.new (λ code. S.Element to at (length_of (type_at (program_in self.now) (path_ty (path_of q.now)))) 0 addressed (kind_of (type_at (program_in self.now) (ty (expression_of y.now)))) (O.Object 0) (operand (part_in self.now y.now) d) ∷ S.Fail K.Dead at ∷ code) }
    {
        w.put(Step::Fail(UndefinedKind::Dead, at));
        let length = self.types.row(q.ty).length;
        let b = self.operand(y, d);
        w.put(Step::Element(
            to,
            at,
            length,
            0,
            addressed,
            self.kind(y.ty),
            Operand::Object(0),
            b,
        ));
    }

    pub fn put_local(&self, w: &mut Writer, at: Place, x: usize, to: u32)
        ensures { Wrote w.old w.new (λ code. local_code at x (slice_get (locals_in self.now) x) to code) }
    {
        match self.local(x) {
            None => w.put(Step::Fail(UndefinedKind::Dead, at)),
            Some(local) => {
                if local.block {
                    w.put(Step::Set(to, Operand::Temp(UndefinedKind::Dead, x as u32, at)));
                }
            }
        }
    }

    pub fn put_load(&self, w: &mut Writer, t: usize, at: Place, q: &Path, to: u32, d: u32)
        ensures { Wrote w.old w.new (λ code. S.Load to at (access_at (program_in self.now) t) (operand (place_in self.now q.now) d) ∷ code) }
    {
        let a = self.left_place(ALONE, q, d);
        w.put(Step::Load(to, at, self.types.row(t).access, a));
    }

    pub fn put_store(
        &self,
        w: &mut Writer,
        t: usize,
        at: Place,
        q: &Path,
        y: &Expression,
        to: Option<u32>,
        d: u32,
        right: u32,
    )
        ensures { Wrote w.old w.new (λ code. S.Store at (access_at (program_in self.now) t) (left_operand (part_in self.now y.now).atom (place_in self.now q.now) d) (operand (part_in self.now y.now) right) ∷ result_code to (operand (part_in self.now y.now) right) code) }
    {
        let a = self.left_place(self.atom(y), q, d);
        let b = self.operand(y, right);
        put_result(w, to, b);
        w.put(Step::Store(at, self.types.row(t).access, a, b));
    }

    /// The value has come into a named local.
    pub fn put_named(&self, w: &mut Writer, at: Place, n: u32, y: &Expression, to: Option<u32>)
        ensures { Wrote w.old w.new (λ code. tested_if (part_in self.now y.now).lacks (part_in self.now y.now).at n (result_code to (O.Temp K.Empty n at) code)) }
    {
        put_result(w, to, Operand::Temp(UndefinedKind::Empty, n, at));
        self.put_test(w, y, n);
    }

    pub fn put_named_update(
        &self,
        w: &mut Writer,
        t: usize,
        at: Place,
        op: BinaryOp,
        n: u32,
        y: &Expression,
        to: Option<u32>,
        d: u32,
    )
        ensures { Wrote w.old w.new (λ code. update (program_in self.now) t at op (kind_of (type_at (program_in self.now) (ty (expression_of y.now)))) n (O.Temp K.Empty n at) (operand (part_in self.now y.now) d) (result_code to (O.Temp K.Empty n at) code)) }
    {
        let a = Operand::Temp(UndefinedKind::Empty, n, at);
        put_result(w, to, a);
        self.put_update(w, t, at, op, self.kind(y.ty), n, a, self.operand(y, d));
    }

    pub fn put_placed_update(
        &self,
        w: &mut Writer,
        t: usize,
        at: Place,
        op: BinaryOp,
        q: &Path,
        y: &Expression,
        to: Option<u32>,
        d: u32,
        right: u32,
        new: u32,
    )
        ensures { Wrote w.old w.new (λ code. S.Load new at (access_at (program_in self.now) t) (settled_operand (place_in self.now q.now) d) ∷ update (program_in self.now) t at op (kind_of (type_at (program_in self.now) (ty (expression_of y.now)))) new (temp at new) (settled_operand (part_in self.now y.now) right) (S.Store at (access_at (program_in self.now) t) (settled_operand (place_in self.now q.now) d) (temp at new) ∷ result_code to (temp at new) code)) }
    {
        let a = self.left_place(None, q, d);
        let b = self.left(None, y, right);
        put_result(w, to, temp(at, new));
        w.put(Step::Store(at, self.types.row(t).access, a, temp(at, new)));
        self.put_update(w, t, at, op, self.kind(y.ty), new, temp(at, new), b);
        w.put(Step::Load(new, at, self.types.row(t).access, a));
    }

    pub fn put_named_step(
        &self,
        w: &mut Writer,
        t: usize,
        at: Place,
        op: StepOp,
        n: u32,
        before: bool,
        d: u32,
        to: Option<u32>,
    )
        ensures { Wrote w.old w.new (λ code. step_named (program_in self.now) t at op n before d to code) }
    {
        let a = Operand::Temp(UndefinedKind::Empty, n, at);
        let kind = self.unit_kind(t);
        match to {
            None => self.put_update(w, t, at, step_op(op), kind, n, a, Operand::Word(1)),
            Some(to) => {
                if before {
                    w.put(Step::Set(to, a));
                    self.put_update(w, t, at, step_op(op), kind, n, a, Operand::Word(1));
                } else {
                    w.put(Step::Set(to, temp(at, d)));
                    self.put_update(
                        w,
                        t,
                        at,
                        step_op(op),
                        kind,
                        n,
                        temp(at, d),
                        Operand::Word(1),
                    );
                    w.put(Step::Set(d, a));
                }
            }
        }
    }

    pub fn put_placed_step(
        &self,
        w: &mut Writer,
        t: usize,
        at: Place,
        op: StepOp,
        q: &Path,
        before: bool,
        to: Option<u32>,
        d: u32,
        old: u32,
        new: u32,
    )
        ensures { Wrote w.old w.new (λ code. S.Load old at (access_at (program_in self.now) t) (settled_operand (place_in self.now q.now) d) ∷ update (program_in self.now) t at (step_op op) (unit_kind (type_at (program_in self.now) t)) new (temp at old) (O.Word 1) (S.Store at (access_at (program_in self.now) t) (settled_operand (place_in self.now q.now) d) (temp at new) ∷ result_code to (temp at (if before then new else old)) code)) }
    {
        let a = self.left_place(None, q, d);
        put_result(w, to, temp(at, if before { new } else { old }));
        w.put(Step::Store(at, self.types.row(t).access, a, temp(at, new)));
        let kind = self.unit_kind(t);
        self.put_update(
            w,
            t,
            at,
            step_op(op),
            kind,
            new,
            temp(at, old),
            Operand::Word(1),
        );
        w.put(Step::Load(old, at, self.types.row(t).access, a));
    }

    pub fn put_copy(
        &self,
        w: &mut Writer,
        at: Place,
        q: &Path,
        r: &Path,
        to: Option<u32>,
        d: u32,
        right: u32,
    )
        ensures { Wrote w.old w.new (λ code. S.CopyRecord at (size_at (program_in self.now) (path_ty (path_of q.now))) (left_operand (place_in self.now r.now).atom (place_in self.now q.now) d) (operand (place_in self.now r.now) right) ∷ no_result to code) }
    {
        let a = self.left_place(self.place_atom(r), q, d);
        let b = self.left_place(ALONE, r, right);
        put_no_result(w, to);
        w.put(Step::CopyRecord(at, self.types.row(q.ty).size, a, b));
    }

    pub fn put_call(
        &self,
        w: &mut Writer,
        at: Place,
        f: usize,
        all: &List<Expression>,
        to: u32,
        d: u32,
    )
        requires { d + asked_by_all (expressions_of (map expression_of all.now)) < 2 ^ 32 }
        ensures { Wrote w.old w.new (λ code. S.Call to at f (record { first = d; count = count_of (expressions_of (map expression_of all.now)) }) ∷ code) }
    {
        w.put(Step::Call(to, at, f, row(all, d)));
    }

    pub fn put_call_through(
        &self,
        w: &mut Writer,
        at: Place,
        x: &Expression,
        all: &List<Expression>,
        to: u32,
        held: u32,
        d: u32,
    )
        requires { d + asked_by_all (expressions_of (map expression_of all.now)) < 2 ^ 32 }
        ensures { Wrote w.old w.new (λ code. S.CallThrough to at (ty (expression_of x.now)) (temp (at_of (expression_of x.now)) held) (record { first = d; count = count_of (expressions_of (map expression_of all.now)) }) ∷ code) }
    {
        w.put(Step::CallThrough(to, at, x.ty, temp(x.place, held), row(all, d)));
    }

    pub fn put_library_call(
        &self,
        w: &mut Writer,
        at: Place,
        which: LibraryFunction,
        all: &List<Expression>,
        to: u32,
        d: u32,
    )
        requires { d + asked_by_all (expressions_of (map expression_of all.now)) < 2 ^ 32 }
        ensures { Wrote w.old w.new (λ code. S.Library to at which (record { first = d; count = count_of (expressions_of (map expression_of all.now)) }) ∷ code) }
    {
        w.put(Step::Library(to, at, which, row(all, d)));
    }

    pub fn put_allocation(
        &self,
        w: &mut Writer,
        t: usize,
        at: Place,
        r: usize,
        zeroed: bool,
        number: Operand,
        to: u32,
    )
        ensures { Wrote w.old w.new (λ code. S.Allocate to at r (element_size (program_in self.now) (type_at (program_in self.now) t)) zeroed number ∷ code) }
    {
        w.put(Step::Allocate(to, at, r, self.types.row(t).element, zeroed, number));
    }
}
