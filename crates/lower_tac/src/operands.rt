//! What parts of expressions are as operands of a step.

ghost use Rattle.std.specs.Prelude.{◌≡◌, suc};
ghost use Rattle.c_typed.specs.Typed.{at_of};
ghost use Rattle.c_typed.specs.Views.{expression_of, path_of};
ghost use Rattle.lower_tac.specs.Expressions.{atom, lacks, named_root, place_atom, place_lacks, place_value_at};
ghost use Rattle.lower_tac.specs.Grounds.{decides, drops, leads_through, locals_in, part_in, place_in, program_in};
ghost use Rattle.lower_tac.specs.Parts.{fixed, left_operand, operand, or_temp, settled_operand, temp};

use crate::ground::Ground;
use c_typed::{Expression, ExpressionNode, Path, PathNode};
use lay_base::{Place, UndefinedKind};
use source_values::Sort;
use tac_ir::Operand;

/// The value of the expression at that place.
pub fn temp(at: Place, t: u32) -> Operand
    ensures { result ≡ temp at t }
{
    Operand::Temp(UndefinedKind::NoValue, t, at)
}

/// An operand that needs no code, or else what code leaves in a temporary.
fn or_temp(a: Option<Operand>, at: Place, d: u32) -> Operand
    ensures { result ≡ or_temp a at d }
{
    match a {
        None => temp(at, d),
        Some(a) => a,
    }
}

/// An operand that nothing changes.
pub fn fixed(a: Option<Operand>) -> Option<Operand>
    ensures { result ≡ fixed a }
{
    match a {
        None | Some(Operand::Temp(_, _, _)) => None,
        Some(Operand::Word(_) | Operand::Null | Operand::Function(_) | Operand::Object(_)) => a,
    }
}

/// Whether the value that it gives may be dropped where it is made.
pub fn drops(e: &Expression) -> bool
    ensures { result ≡ drops (expression_of e.now) }
{
    match &e.node {
        ExpressionNode::Comma(_, _)
        | ExpressionNode::Assign(_, _)
        | ExpressionNode::AssignOp(_, _, _)
        | ExpressionNode::Step(_, _, _)
        | ExpressionNode::CopyRecord(_, _) => true,
        ExpressionNode::Constant(_)
        | ExpressionNode::Null
        | ExpressionNode::FunctionName(_)
        | ExpressionNode::Load(_)
        | ExpressionNode::AddressOf(_)
        | ExpressionNode::Decay(_)
        | ExpressionNode::Convert(_, _)
        | ExpressionNode::Unary(_, _)
        | ExpressionNode::Binary(_, _, _)
        | ExpressionNode::Compare(_, _, _)
        | ExpressionNode::PointerAdd(_, _, _)
        | ExpressionNode::PointerDiff(_, _)
        | ExpressionNode::And(_, _)
        | ExpressionNode::Or(_, _)
        | ExpressionNode::Not(_)
        | ExpressionNode::Cond(_, _, _)
        | ExpressionNode::Call(_, _)
        | ExpressionNode::CallThrough(_, _)
        | ExpressionNode::Library(_, _)
        | ExpressionNode::Allocate(_, _, _) => false,
    }
}

/// Whether it decides a jump by itself.
pub fn decides(e: &Expression) -> bool
    ensures { result ≡ decides (expression_of e.now) }
{
    match &e.node {
        ExpressionNode::Compare(_, _, _)
        | ExpressionNode::Not(_)
        | ExpressionNode::And(_, _)
        | ExpressionNode::Or(_, _) => true,
        ExpressionNode::Constant(_)
        | ExpressionNode::Null
        | ExpressionNode::FunctionName(_)
        | ExpressionNode::Load(_)
        | ExpressionNode::AddressOf(_)
        | ExpressionNode::Decay(_)
        | ExpressionNode::Convert(_, _)
        | ExpressionNode::Unary(_, _)
        | ExpressionNode::Binary(_, _, _)
        | ExpressionNode::PointerAdd(_, _, _)
        | ExpressionNode::PointerDiff(_, _)
        | ExpressionNode::Cond(_, _, _)
        | ExpressionNode::Comma(_, _)
        | ExpressionNode::Assign(_, _)
        | ExpressionNode::AssignOp(_, _, _)
        | ExpressionNode::Step(_, _, _)
        | ExpressionNode::CopyRecord(_, _)
        | ExpressionNode::Call(_, _)
        | ExpressionNode::CallThrough(_, _)
        | ExpressionNode::Library(_, _)
        | ExpressionNode::Allocate(_, _, _) => false,
    }
}

/// Whether a path leads through a pointer.
pub fn leads_through(q: &Path) -> bool
    ensures { result ≡ leads_through (path_of q.now) }
{
    match &q.node {
        PathNode::Deref(_) | PathNode::Index(_, _) => true,
        PathNode::Named(_)
        | PathNode::Object(_)
        | PathNode::Member(_, _, _)
        | PathNode::Element(_, _) => false,
    }
}

impl Ground<'_> {
    /// The named local to which a path leads.
    pub fn named_root(&self, q: &Path) -> Option<u32>
        ensures { result ≡ named_root (program_in self.now) (locals_in self.now) (path_of q.now) }
    {
        match &q.node {
            PathNode::Named(x) => self.named(*x),
            PathNode::Object(_)
            | PathNode::Deref(_)
            | PathNode::Index(_, _)
            | PathNode::Member(_, _, _)
            | PathNode::Element(_, _) => None,
        }
    }

    /// An expression as an operand that needs no code.
    pub fn atom(&self, e: &Expression) -> Option<Operand>
        ensures { result ≡ atom (program_in self.now) (locals_in self.now) (expression_of e.now) }
    {
        match &e.node {
            ExpressionNode::Constant(v) => Some(Operand::Word(*v)),
            ExpressionNode::Null => Some(Operand::Null),
            ExpressionNode::FunctionName(f) => Some(Operand::Function(*f)),
            ExpressionNode::Load(q) => match self.named_root(q.get()) {
                None => None,
                Some(x) => Some(Operand::Temp(UndefinedKind::Empty, x, e.place)),
            },
            ExpressionNode::AddressOf(_)
            | ExpressionNode::Decay(_)
            | ExpressionNode::Convert(_, _)
            | ExpressionNode::Unary(_, _)
            | ExpressionNode::Binary(_, _, _)
            | ExpressionNode::Compare(_, _, _)
            | ExpressionNode::PointerAdd(_, _, _)
            | ExpressionNode::PointerDiff(_, _)
            | ExpressionNode::And(_, _)
            | ExpressionNode::Or(_, _)
            | ExpressionNode::Not(_)
            | ExpressionNode::Cond(_, _, _)
            | ExpressionNode::Comma(_, _)
            | ExpressionNode::Assign(_, _)
            | ExpressionNode::AssignOp(_, _, _)
            | ExpressionNode::Step(_, _, _)
            | ExpressionNode::CopyRecord(_, _)
            | ExpressionNode::Call(_, _)
            | ExpressionNode::CallThrough(_, _)
            | ExpressionNode::Library(_, _)
            | ExpressionNode::Allocate(_, _, _) => None,
        }
    }

    /// The address of what a path leads to, as an operand that needs no code.
    pub fn place_atom(&self, q: &Path) -> Option<Operand>
        ensures { result ≡ place_atom (program_in self.now) (locals_in self.now) (path_of q.now) }
    {
        match &q.node {
            PathNode::Named(x) => self.address_of_local(q.place, *x),
            PathNode::Object(n) => Some(Operand::Object(*n)),
            PathNode::Deref(e) => self.atom(e.get()),
            PathNode::Index(_, _) | PathNode::Member(_, _, _) | PathNode::Element(_, _) => None,
        }
    }

    /// Whether an expression may end without a value.
    #[cycle(lacking)]
    pub fn lacks(&self, e: &Expression) -> bool
        ensures { result ≡ lacks (program_in self.now) (locals_in self.now) (expression_of e.now) }
    {
        match &e.node {
            ExpressionNode::Convert(_, _) => match self.types.row(e.ty).sort {
                Sort::Void => true,
                Sort::Number(_) | Sort::Pointer | Sort::Other => false,
            },
            ExpressionNode::AddressOf(q) | ExpressionNode::Decay(q) => self.place_lacks(q.get()),
            ExpressionNode::Cond(_, y, z) => self.lacks(y.get()) || self.lacks(z.get()),
            ExpressionNode::Comma(_, y) => self.lacks(y.get()),
            ExpressionNode::CopyRecord(_, _)
            | ExpressionNode::Call(_, _)
            | ExpressionNode::CallThrough(_, _)
            | ExpressionNode::Library(_, _) => true,
            ExpressionNode::Constant(_)
            | ExpressionNode::Null
            | ExpressionNode::FunctionName(_)
            | ExpressionNode::Load(_)
            | ExpressionNode::Unary(_, _)
            | ExpressionNode::Binary(_, _, _)
            | ExpressionNode::Compare(_, _, _)
            | ExpressionNode::PointerAdd(_, _, _)
            | ExpressionNode::PointerDiff(_, _)
            | ExpressionNode::And(_, _)
            | ExpressionNode::Or(_, _)
            | ExpressionNode::Not(_)
            | ExpressionNode::Assign(_, _)
            | ExpressionNode::AssignOp(_, _, _)
            | ExpressionNode::Step(_, _, _)
            | ExpressionNode::Allocate(_, _, _) => false,
        }
    }

    /// Whether what a path leads to may be a value that lacks.
    #[cycle(lacking)]
    pub fn place_lacks(&self, q: &Path) -> bool
        ensures { result ≡ place_lacks (program_in self.now) (locals_in self.now) (path_of q.now) }
    {
        match &q.node {
            PathNode::Deref(e) => self.lacks(e.get()),
            PathNode::Named(_)
            | PathNode::Object(_)
            | PathNode::Index(_, _)
            | PathNode::Member(_, _, _)
            | PathNode::Element(_, _) => false,
        }
    }

    /// The place of the value that is an address.
    pub fn place_value_at(&self, q: &Path) -> Place
        ensures { result ≡ place_value_at (program_in self.now) (locals_in self.now) (path_of q.now) }
    {
        match &q.node {
            PathNode::Deref(e) => e.get().place,
            PathNode::Named(_)
            | PathNode::Object(_)
            | PathNode::Index(_, _)
            | PathNode::Member(_, _, _)
            | PathNode::Element(_, _) => q.place,
        }
    }

    /// The left one of two operands.
    pub fn left(&self, b: Option<Operand>, x: &Expression, d: u32) -> Operand
        ensures { result ≡ left_operand b (part_in self.now x.now) d }
    {
        match b {
            None => or_temp(fixed(self.atom(x)), x.place, d),
            Some(_) => or_temp(self.atom(x), x.place, d),
        }
    }

    /// An operand, or the right one of two.
    pub fn operand(&self, x: &Expression, d: u32) -> Operand
        ensures { result ≡ operand (part_in self.now x.now) d }
    {
        or_temp(self.atom(x), x.place, d)
    }

    /// As `left`, of what a path leads to.
    pub fn left_place(&self, b: Option<Operand>, q: &Path, d: u32) -> Operand
        ensures { result ≡ left_operand b (place_in self.now q.now) d }
    {
        match b {
            None => or_temp(fixed(self.place_atom(q)), self.place_value_at(q), d),
            Some(_) => or_temp(self.place_atom(q), self.place_value_at(q), d),
        }
    }
}
