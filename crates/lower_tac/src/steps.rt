//! Steps of expressions, whose operands are made afterwards.

ghost use Rattle.std.specs.Prelude.{◌≡◌, ◌+◌, ◌-◌, ◌∷◌, ◌<◌, ◌^◌, Some, false, length, map, suc};
ghost use Rattle.lay_base.specs.declared.faults.UndefinedKind.TheVariants as K;
ghost use Rattle.c_typed.specs.Constants.{kind_of};
ghost use Rattle.c_typed.specs.Conversions.{is_pointer};
ghost use Rattle.c_typed.specs.Typed.{at_of};
ghost use Rattle.c_typed.specs.Views.{expression_of, expressions_of, path_of};
ghost use Rattle.block_memory.specs.RunWorlds.Operators.{step_op};
ghost use Rattle.c_meaning.specs.Expressions.{count_kind};
ghost use Rattle.c_meaning.specs.Program.{access_at, element_size, length_of, size_at, type_at};
ghost use Rattle.tac_ir.specs.declared.step.Operand.TheVariants as O;
ghost use Rattle.tac_ir.specs.declared.step.Step.TheVariants as S;
ghost use Rattle.tac_ir.specs.declared.step.Target.TheVariants as To;
ghost use Rattle.lower_tac.specs.Asked.{asked, asked_by_all};
ghost use Rattle.lower_tac.specs.Expressions.{convert_step, count_of, is_void, local_code, no_result, place_lacks, place_value_at, result_code};
ghost use Rattle.lower_tac.specs.Expressions.{sort_of, step_named, unit_kind, update, lacks};
ghost use Rattle.lower_tac.specs.Grounds.{locals_in, part_in, place_in, program_in};
ghost use Rattle.lower_tac.specs.Parts.{Steps, left_operand, operand, settled_operand, temp, tested_if};
ghost use Rattle.lower_tac.specs.Writing.{Wrote, code_in, WroteTo};

use crate::ground::Ground;
use crate::operands::temp;
use crate::writer::Writer;
use c_typed::{BinaryOp, Expression, Path, StepOp, promoted_kind};
use c_types::IntKind;
use lay_base::{List, Place, UndefinedKind};
use source_values::Sort;
use tac_ir::{Operand, Row, Sort as Updated, Step, Target};

/// An operand whose right neighbour needs no code, or which has none.
pub const ALONE: Option<Operand> = Some(Operand::Null);

pub fn step_op(op: StepOp) -> BinaryOp
    ensures { result ≡ step_op op }
{
    match op {
        StepOp::Increment => BinaryOp::Add,
        StepOp::Decrement => BinaryOp::Subtract,
    }
}

/// Arguments in a row, from the temporary d on.
#[tactic(auto, using(crate::proofs::Counts::count_is, crate::proofs::Counts::each_asks))]
pub fn row(all: &List<Expression>, d: u32) -> Row
    requires { d + asked_by_all (expressions_of (map expression_of all.now)) < 2 ^ 32 }
    ensures { result ≡ record { first = d; count = count_of (expressions_of (map expression_of all.now)) } }
{
    Row {
        first: d,
        count: all.len() as u32,
    }
}

/// The first temporary behind such a row.
#[tactic(auto, using(crate::proofs::Counts::each_asks))]
pub fn behind(all: &List<Expression>, d: u32) -> u32
    requires { d + asked_by_all (expressions_of (map expression_of all.now)) < 2 ^ 32 }
    ensures { result ≡ d + length all.now }
{
    d + all.len() as u32
}

/// The temporary of an argument before those that follow it.
pub fn temporary_below(at: u32, _e: &Expression) -> u32
    requires some { 0 < at }
    requires few { at - 1 + asked (expression_of _e.now) < 2 ^ 32 }
    ensures is { result ≡ at - 1 }
    ensures few { result + asked (expression_of _e.now) < 2 ^ 32 }
{
    at - 1
}

/// What has no use as a result is dropped.
pub fn put_result(w: &mut Writer, to: Option<u32>, a: Operand)
    ensures { Wrote w.old w.new (result_code to a) }
{
    if let Some(to) = to {
        w.put(Step::Set(to, a));
    }
}

pub fn put_no_result(w: &mut Writer, to: Option<u32>)
    ensures { Wrote w.old w.new (no_result to) }
{
    if let Some(to) = to {
        w.put(Step::Clear(to));
    }
}

fn test_if(w: &mut Writer, lacks: bool, at: Place, t: u32)
    ensures { Wrote w.old w.new (tested_if lacks at t) }
{
    if lacks {
        w.put(Step::Set(t, temp(at, t)));
    }
}

/// The two ways on which a truth value comes: the code begins with the one that is not decided, and the answer leads to the other.
pub fn put_truth(w: &mut Writer, to: u32, decided: u32, other: u32) -> Target
    ensures { WroteTo w.old w.new result (λ code. To.Left (length (S.Set to (O.Word decided) ∷ code))) (λ code. S.Set to (O.Word other) ∷ S.Jump (To.Left (length code)) ∷ S.Set to (O.Word decided) ∷ code) }
{
    let end = w.here();
    w.put(Step::Set(to, Operand::Word(decided)));
    let way = w.here();
    w.put(Step::Jump(end));
    w.put(Step::Set(to, Operand::Word(other)));
    way
}

impl Ground<'_> {
    pub fn kind(&self, t: usize) -> IntKind
        ensures { result ≡ kind_of (type_at (program_in self.now) t) }
    {
        self.types.row(t).kind
    }

    pub fn is_void(&self, t: usize) -> bool
        ensures { result ≡ is_void (type_at (program_in self.now) t) }
    {
        match self.types.row(t).sort {
            Sort::Void => true,
            Sort::Number(_) | Sort::Pointer | Sort::Other => false,
        }
    }

    pub fn is_pointer(&self, t: usize) -> bool
        ensures { result ≡ is_pointer (type_at (program_in self.now) t) }
    {
        match self.types.row(t).sort {
            Sort::Pointer => true,
            Sort::Void | Sort::Number(_) | Sort::Other => false,
        }
    }

    /// The kind of the number of elements by which a pointer moves.
    pub fn count_kind(&self, x: usize, y: usize) -> IntKind
        ensures { result ≡ count_kind (type_at (program_in self.now) x) (type_at (program_in self.now) y) }
    {
        if self.is_pointer(x) {
            self.kind(y)
        } else {
            self.kind(x)
        }
    }

    fn updated(&self, t: usize) -> Updated
        ensures { result ≡ sort_of (type_at (program_in self.now) t) }
    {
        match self.types.row(t).sort {
            Sort::Number(kind) => Updated::Number(kind),
            Sort::Void | Sort::Pointer | Sort::Other => Updated::Pointer,
        }
    }

    pub fn unit_kind(&self, t: usize) -> IntKind
        ensures { result ≡ unit_kind (type_at (program_in self.now) t) }
    {
        match self.types.row(t).sort {
            Sort::Number(kind) => promoted_kind(kind),
            Sort::Void | Sort::Pointer | Sort::Other => IntKind::Int,
        }
    }

    fn conversion(&self, t: usize, at: Place, to: u32, a: Operand) -> Step
        ensures { (code : Steps) → convert_step (type_at (program_in self.now) t) at to a code ≡ result ∷ code }
    {
        match self.types.row(t).sort {
            Sort::Number(kind) => Step::Convert(to, at, kind, a),
            Sort::Pointer => Step::AsPointer(to, at, a),
            Sort::Void | Sort::Other => Step::Set(to, a),
        }
    }

    pub fn put_conversion(&self, w: &mut Writer, t: usize, x: &Expression, to: u32, a: Operand)
        ensures { Wrote w.old w.new (convert_step (type_at (program_in self.now) t) (at_of (expression_of x.now)) to a) }
    {
        w.put(self.conversion(t, x.place, to, a));
    }

    /// That the value in the temporary is one, where it may lack.
    pub fn put_test(&self, w: &mut Writer, e: &Expression, t: u32)
        ensures { Wrote w.old w.new (tested_if (part_in self.now e.now).lacks (part_in self.now e.now).at t) }
    {
        test_if(w, self.lacks(e), e.place, t);
    }

    pub fn put_place_test(&self, w: &mut Writer, q: &Path, t: u32)
        ensures { Wrote w.old w.new (tested_if (place_in self.now q.now).lacks (place_in self.now q.now).at t) }
    {
        test_if(w, self.place_lacks(q), self.place_value_at(q), t);
    }

    pub fn put_update(
        &self,
        w: &mut Writer,
        t: usize,
        at: Place,
        op: BinaryOp,
        right: IntKind,
        new: u32,
        old: Operand,
        b: Operand,
    )
        ensures { Wrote w.old w.new (update (program_in self.now) t at op right new old b) }
    {
        let element = self.types.row(t).element;
        w.put(Step::Update(new, at, op, element, self.updated(t), right, old, b));
    }
}
