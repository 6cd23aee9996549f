//! The code of expressions and paths, from the back.

ghost use Rattle.std.specs.Prelude.{◌≡◌, ◌+◌, ◌<◌, ◌^◌, map, true};
ghost use Rattle.c_typed.specs.Views.{expression_of, expressions_of, path_of};
ghost use Rattle.lower_tac.specs.Asked.{asked, asked_by_all, asked_by_path};
ghost use Rattle.lower_tac.specs.Expressions.{arguments_code, branch_code, effect_code, member_code, path_code, value_code};
ghost use Rattle.lower_tac.specs.Grounds.{locals_in, part_in, place_in, program_in, stored_in, address_in, branch_shown, decides, drops, effect_shown, leads_through, member_shown};
ghost use Rattle.lower_tac.specs.Parts.{left_code};
ghost use Rattle.lower_tac.specs.Writing.{Wrote, code_in};

use crate::ground::Ground;
use crate::operands::{decides, drops, fixed, leads_through};
use crate::steps::{ALONE, behind, put_truth, temporary_below};
use crate::writer::Writer;
use c_typed::{Expression, ExpressionNode, Path, PathNode};
use lay_base::{List, Place, UndefinedKind};
use tac_ir::{Operand, Step, Target};

impl Ground<'_> {
    /// Code that leaves the value in the temporary `to`; those from d on may change.
    #[cycle(lowering)]
    pub fn value(&self, w: &mut Writer, e: &Expression, to: u32, d: u32)
        requires { d + asked (expression_of e.now) < 2 ^ 32 }
        ensures { Wrote w.old w.new (value_code (program_in self.now) (locals_in self.now) (expression_of e.now) to d) }
    {
        let at = e.place;
        match &e.node {
            ExpressionNode::Constant(v) => w.put(Step::Set(to, Operand::Word(*v))),
            ExpressionNode::Null => w.put(Step::Set(to, Operand::Null)),
            ExpressionNode::FunctionName(f) => w.put(Step::Set(to, Operand::Function(*f))),
            ExpressionNode::Load(q) => match self.named_root(q.get()) {
                Some(x) => w.put(Step::Set(to, Operand::Temp(UndefinedKind::Empty, x, at))),
                None => {
                    self.put_load(w, e.ty, at, q.get(), to, d);
                    self.place(w, ALONE, q.get(), d);
                }
            },
            ExpressionNode::AddressOf(q) => self.address(w, true, q.get(), at, to, d),
            ExpressionNode::Decay(q) => self.address(w, false, q.get(), at, to, d),
            ExpressionNode::Convert(x, _) => {
                if self.is_void(e.ty) {
                    w.put(Step::Clear(to));
                    self.effect(w, x.get(), d);
                } else {
                    self.put_conversion(w, e.ty, x.get(), to, self.operand(x.get(), d));
                    self.part(w, ALONE, x.get(), d);
                }
            }
            ExpressionNode::Unary(op, x) => {
                w.put(Step::Unary(to, at, *op, self.operand(x.get(), d)));
                self.part(w, ALONE, x.get(), d);
            }
            ExpressionNode::Not(x) => {
                w.put(Step::Not(to, self.operand(x.get(), d)));
                self.part(w, ALONE, x.get(), d);
            }
            ExpressionNode::Binary(op, x, y) => {
                self.put_binary(w, e.ty, at, *op, x.get(), y.get(), to, d, d + 1);
                self.part(w, ALONE, y.get(), d + 1);
                self.part(w, self.atom(y.get()), x.get(), d);
            }
            ExpressionNode::Compare(op, x, y) => {
                self.put_comparison(w, at, *op, x.get(), y.get(), to, d, d + 1);
                self.part(w, ALONE, y.get(), d + 1);
                self.part(w, self.atom(y.get()), x.get(), d);
            }
            ExpressionNode::PointerAdd(op, x, y) => {
                self.put_move(w, e.ty, at, *op, x.get(), y.get(), to, d, d + 1);
                self.part(w, ALONE, y.get(), d + 1);
                self.part(w, self.atom(y.get()), x.get(), d);
            }
            ExpressionNode::PointerDiff(x, y) => {
                self.put_difference(w, at, x.get(), y.get(), to, d, d + 1);
                self.part(w, ALONE, y.get(), d + 1);
                self.part(w, self.atom(y.get()), x.get(), d);
            }
            ExpressionNode::And(x, y) => {
                let no = put_truth(w, to, 0, 1);
                self.branch(w, y.get(), false, no, d);
                self.branch(w, x.get(), false, no, d);
            }
            ExpressionNode::Or(x, y) => {
                let yes = put_truth(w, to, 1, 0);
                self.branch(w, y.get(), true, yes, d);
                self.branch(w, x.get(), true, yes, d);
            }
            ExpressionNode::Cond(x, y, z) => {
                let end = w.here();
                self.value(w, z.get(), to, d);
                let other = w.here();
                w.put(Step::Jump(end));
                self.value(w, y.get(), to, d);
                self.branch(w, x.get(), false, other, d);
            }
            ExpressionNode::Comma(x, y) => {
                self.value(w, y.get(), to, d);
                self.effect(w, x.get(), d);
            }
            ExpressionNode::Assign(_, _)
            | ExpressionNode::AssignOp(_, _, _)
            | ExpressionNode::Step(_, _, _)
            | ExpressionNode::CopyRecord(_, _) => self.stored(w, e, Some(to), d),
            ExpressionNode::Call(f, all) => {
                self.put_call(w, at, *f, all, to, d);
                self.arguments(w, all, d);
            }
            ExpressionNode::CallThrough(x, all) => {
                self.put_call_through(w, at, x.get(), all, to, d, d + 1);
                self.arguments(w, all, d + 1);
                self.put_test(w, x.get(), d);
                self.value(w, x.get(), d, d);
            }
            ExpressionNode::Library(which, all) => {
                self.put_library_call(w, at, *which, all, to, d);
                self.arguments(w, all, d);
            }
            ExpressionNode::Allocate(r, number, zeroed) => match number {
                None => self.put_allocation(w, e.ty, at, *r, *zeroed, Operand::Word(1), to),
                Some(x) => {
                    self.put_allocation(w, e.ty, at, *r, *zeroed, self.operand(x.get(), d), to);
                    self.part(w, ALONE, x.get(), d);
                }
            },
        }
    }

    /// Assignments, whose results may be dropped.
    #[cycle(lowering)]
    fn stored(&self, w: &mut Writer, e: &Expression, to: Option<u32>, d: u32)
        requires { d + asked (expression_of e.now) < 2 ^ 32 }
        ensures { Wrote w.old w.new (stored_in self.now e.now to d) }
    {
        let at = e.place;
        match &e.node {
            ExpressionNode::Assign(q, x) => match self.named_root(q.get()) {
                Some(n) => {
                    self.put_named(w, at, n, x.get(), to);
                    self.value(w, x.get(), n, d);
                }
                None => {
                    self.put_store(w, e.ty, at, q.get(), x.get(), to, d, d + 1);
                    self.part(w, ALONE, x.get(), d + 1);
                    self.place(w, self.atom(x.get()), q.get(), d);
                }
            },
            ExpressionNode::AssignOp(op, q, x) => match self.named_root(q.get()) {
                Some(n) => {
                    self.put_named_update(w, e.ty, at, *op, n, x.get(), to, d);
                    self.part(w, ALONE, x.get(), d);
                }
                None => {
                    self.put_placed_update(w, e.ty, at, *op, q.get(), x.get(), to, d, d + 1, d + 2);
                    self.part(w, None, x.get(), d + 1);
                    self.place(w, None, q.get(), d);
                }
            },
            ExpressionNode::Step(op, before, q) => match self.named_root(q.get()) {
                Some(n) => self.put_named_step(w, e.ty, at, *op, n, *before, d, to),
                None => {
                    self.put_placed_step(w, e.ty, at, *op, q.get(), *before, to, d, d + 1, d + 2);
                    self.place(w, None, q.get(), d);
                }
            },
            ExpressionNode::CopyRecord(q, r) => match (
                self.named_root(q.get()),
                self.named_root(r.get()),
            ) {
                (None, None) => {
                    self.put_copy(w, at, q.get(), r.get(), to, d, d + 1);
                    self.place(w, ALONE, r.get(), d + 1);
                    self.place(w, self.place_atom(r.get()), q.get(), d);
                }
                (Some(_), _) | (None, Some(_)) => {
                    w.put(Step::Fail(UndefinedKind::Dead, at));
                    self.put_place_test(w, r.get(), d + 1);
                    self.path(w, false, r.get(), d + 1, d + 1);
                    self.put_place_test(w, q.get(), d);
                    self.path(w, false, q.get(), d, d);
                }
            },
            _ => {}
        }
    }

    /// What an expression does, its value being dropped.
    #[cycle(lowering)]
    pub fn effect(&self, w: &mut Writer, e: &Expression, d: u32)
        requires { d + asked (expression_of e.now) < 2 ^ 32 }
        ensures { Wrote w.old w.new (effect_code (program_in self.now) (locals_in self.now) (expression_of e.now) d) }
    {
        if drops(e) {
            self.effect_shown(w, e, d);
        } else {
            self.value(w, e, d, d);
        }
    }

    #[cycle(lowering)]
    fn effect_shown(&self, w: &mut Writer, e: &Expression, d: u32)
        requires drops { drops (expression_of e.now) ≡ true }
        requires few { d + asked (expression_of e.now) < 2 ^ 32 }
        ensures { Wrote w.old w.new (effect_shown (program_in self.now) (locals_in self.now) (expression_of e.now) d) }
    {
        match &e.node {
            ExpressionNode::Comma(x, y) => {
                self.effect(w, y.get(), d);
                self.effect(w, x.get(), d);
            }
            ExpressionNode::Assign(_, _)
            | ExpressionNode::AssignOp(_, _, _)
            | ExpressionNode::Step(_, _, _)
            | ExpressionNode::CopyRecord(_, _) => self.stored(w, e, None, d),
            _ => unreachable!(),
        }
    }

    /// A jump where the value is true, or where it is not.
    #[cycle(lowering)]
    pub fn branch(&self, w: &mut Writer, e: &Expression, when: bool, to: Target, d: u32)
        requires { d + asked (expression_of e.now) < 2 ^ 32 }
        ensures { Wrote w.old w.new (branch_code (program_in self.now) (locals_in self.now) (expression_of e.now) when to d) }
    {
        if decides(e) {
            self.branch_shown(w, e, when, to, d);
        } else {
            w.put(Step::Branch(when, self.operand(e, d), to));
            self.part(w, ALONE, e, d);
        }
    }

    #[cycle(lowering)]
    fn branch_shown(&self, w: &mut Writer, e: &Expression, when: bool, to: Target, d: u32)
        requires decides { decides (expression_of e.now) ≡ true }
        requires few { d + asked (expression_of e.now) < 2 ^ 32 }
        ensures { Wrote w.old w.new (branch_shown (program_in self.now) (locals_in self.now) (expression_of e.now) when to d) }
    {
        match &e.node {
            ExpressionNode::Compare(op, x, y) => {
                self.put_jump(w, e.place, *op, when, x.get(), y.get(), to, d, d + 1);
                self.part(w, ALONE, y.get(), d + 1);
                self.part(w, self.atom(y.get()), x.get(), d);
            }
            ExpressionNode::Not(x) => self.branch(w, x.get(), !when, to, d),
            ExpressionNode::And(x, y) => {
                if when {
                    let past = w.here();
                    self.branch(w, y.get(), true, to, d);
                    self.branch(w, x.get(), false, past, d);
                } else {
                    self.branch(w, y.get(), false, to, d);
                    self.branch(w, x.get(), false, to, d);
                }
            }
            ExpressionNode::Or(x, y) => {
                if when {
                    self.branch(w, y.get(), true, to, d);
                    self.branch(w, x.get(), true, to, d);
                } else {
                    let past = w.here();
                    self.branch(w, y.get(), false, to, d);
                    self.branch(w, x.get(), true, past, d);
                }
            }
            _ => unreachable!(),
        }
    }

    /// A part whose value is used: code that leaves it in the temporary d, where it needs any. It is settled where `b` is none.
    #[cycle(lowering)]
    pub fn part(&self, w: &mut Writer, b: Option<Operand>, e: &Expression, d: u32)
        requires { d + asked (expression_of e.now) < 2 ^ 32 }
        ensures { Wrote w.old w.new (left_code b (part_in self.now e.now) d) }
    {
        match b {
            None => {
                if fixed(self.atom(e)).is_none() {
                    self.put_test(w, e, d);
                    self.value(w, e, d, d);
                }
            }
            Some(_) => {
                if self.atom(e).is_none() {
                    self.value(w, e, d, d);
                }
            }
        }
    }

    /// As `part`, of the address to which a path leads.
    #[cycle(lowering)]
    pub fn place(&self, w: &mut Writer, b: Option<Operand>, q: &Path, d: u32)
        requires { d + asked_by_path (path_of q.now) < 2 ^ 32 }
        ensures { Wrote w.old w.new (left_code b (place_in self.now q.now) d) }
    {
        match b {
            None => {
                if fixed(self.place_atom(q)).is_none() {
                    self.put_place_test(w, q, d);
                    self.path(w, false, q, d, d);
                }
            }
            Some(_) => {
                if self.place_atom(q).is_none() {
                    self.path(w, false, q, d, d);
                }
            }
        }
    }

    /// An address as a value.
    #[cycle(lowering)]
    fn address(&self, w: &mut Writer, addressed: bool, q: &Path, at: Place, to: u32, d: u32)
        requires { d + asked_by_path (path_of q.now) < 2 ^ 32 }
        ensures { Wrote w.old w.new (address_in self.now addressed q.now at to d) }
    {
        if self.named_root(q).is_some() {
            w.put(Step::Fail(UndefinedKind::Dead, at));
        } else {
            self.path(w, addressed, q, to, d);
        }
    }

    /// Code that leaves the address of what a path leads to in the temporary `to`; a named local has none.
    #[cycle(lowering)]
    pub fn path(&self, w: &mut Writer, addressed: bool, q: &Path, to: u32, d: u32)
        requires { d + asked_by_path (path_of q.now) < 2 ^ 32 }
        ensures { Wrote w.old w.new (path_code (program_in self.now) (locals_in self.now) addressed (path_of q.now) to d) }
    {
        let at = q.place;
        match &q.node {
            PathNode::Named(x) => self.put_local(w, at, *x, to),
            PathNode::Object(n) => w.put(Step::Set(to, Operand::Object(*n))),
            PathNode::Deref(e) => self.value(w, e.get(), to, d),
            PathNode::Index(e, i) => {
                self.put_index(w, q.ty, at, e.get(), i.get(), to, d, d + 1);
                self.part(w, ALONE, i.get(), d + 1);
                self.part(w, self.atom(i.get()), e.get(), d);
            }
            PathNode::Member(r, number, field) => {
                self.member(w, r.get(), at, self.types.offset(*number, *field), to, d)
            }
            PathNode::Element(r, i) => {
                if self.named_root(r.get()).is_some() {
                    self.put_no_element(w, at, addressed, r.get(), i.get(), to, d);
                    self.part(w, ALONE, i.get(), d);
                } else {
                    self.put_element(w, q.ty, at, addressed, r.get(), i.get(), to, d, d + 1);
                    self.part(w, ALONE, i.get(), d + 1);
                    self.place(w, self.atom(i.get()), r.get(), d);
                }
            }
        }
    }

    /// The field so many bytes behind what a path leads to.
    #[cycle(lowering)]
    fn member(&self, w: &mut Writer, q: &Path, at: Place, by: u32, to: u32, d: u32)
        requires { d + asked_by_path (path_of q.now) < 2 ^ 32 }
        ensures { Wrote w.old w.new (member_code (program_in self.now) (locals_in self.now) (path_of q.now) at by to d) }
    {
        if leads_through(q) {
            self.member_shown(w, q, at, by, to, d);
        } else {
            match self.named_root(q) {
                Some(_) => w.put(Step::Fail(UndefinedKind::Dead, at)),
                None => {
                    w.put(Step::Part(to, at, by, self.left_place(ALONE, q, d)));
                    self.place(w, ALONE, q, d);
                }
            }
        }
    }

    #[cycle(lowering)]
    fn member_shown(&self, w: &mut Writer, q: &Path, at: Place, by: u32, to: u32, d: u32)
        requires through { leads_through (path_of q.now) ≡ true }
        requires few { d + asked_by_path (path_of q.now) < 2 ^ 32 }
        ensures { Wrote w.old w.new (member_shown (program_in self.now) (locals_in self.now) (path_of q.now) at by to d) }
    {
        match &q.node {
            PathNode::Deref(e) => {
                w.put(Step::Field(to, at, by, self.operand(e.get(), d)));
                self.part(w, ALONE, e.get(), d);
            }
            PathNode::Index(e, i) => {
                self.put_element_field(w, q.ty, at, by, e.get(), i.get(), to, d, d + 1);
                self.part(w, ALONE, i.get(), d + 1);
                self.part(w, self.atom(i.get()), e.get(), d);
            }
            _ => unreachable!(),
        }
    }

    /// Values in a row, from the temporary d on.
    #[cycle(lowering)]
    fn arguments(&self, w: &mut Writer, all: &List<Expression>, d: u32)
        requires { d + asked_by_all (expressions_of (map expression_of all.now)) < 2 ^ 32 }
        ensures { Wrote w.old w.new (arguments_code (program_in self.now) (locals_in self.now) (expressions_of (map expression_of all.now)) d) }
    {
        let mut at = behind(all, d);
        for e in all.as_slice().iter().rev() {
            at = temporary_below(at, e);
            self.put_test(w, e, at);
            self.value(w, e, at, at);
        }
    }
}
