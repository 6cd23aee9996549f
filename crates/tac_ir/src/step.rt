//! The steps of a function, as data.

use block_memory::Access;
use c_typed::{BinaryOp, CompareOp, LibraryFunction, PointerOp, UnaryOp};
use c_types::IntKind;
use lay_base::{Bytes, List, Place, UndefinedKind};

/// What a step reads.
#[derive(Clone, Copy)]
pub enum Operand {
    Word(u32),
    Null,
    Function(usize),
    /// The address of an object of the program, by its number.
    Object(usize),
    /// A temporary. Where it holds nothing, reading it is undefined with that kind, at that place.
    Temp(UndefinedKind, u32, Place),
}

/// The temporaries in a row in which the arguments of a call stand.
#[derive(Clone, Copy)]
pub struct Row {
    pub first: u32,
    pub count: u32,
}

/// Where a jump leads.
#[derive(Clone, Copy)]
pub enum Target {
    /// To where so many steps are left of the function's.
    Left(usize),
    /// To the label of that number, where the code before it was made later.
    Label(usize),
}

/// What is updated by `op=`, `++` or `--`.
#[derive(Clone, Copy)]
pub enum Sort {
    Number(IntKind),
    Pointer,
}

/// A step. Those that give a value begin with the temporary that takes it. A place is that of the expression whose step it is.
#[derive(Clone, Copy)]
pub enum Step {
    Set(u32, Operand),
    /// The temporary holds nothing.
    Clear(u32),
    Unary(u32, Place, UnaryOp, Operand),
    /// 1 where the operand is 0 or null, else 0.
    Not(u32, Operand),
    Convert(u32, Place, IntKind, Operand),
    /// A pointer as it is, and 0 as null.
    AsPointer(u32, Place, Operand),
    /// A number as it is, for a `switch`.
    Number(u32, Place, Operand),
    /// Of numbers of a kind; the right operand has its own.
    Binary(u32, Place, BinaryOp, IntKind, IntKind, Operand, Operand),
    Compare(u32, Place, CompareOp, IntKind, Operand, Operand),
    /// By elements of a size, on or back: whether the pointer is the left operand, and the kind of the number of elements.
    Move(u32, Place, PointerOp, u32, bool, IntKind, Operand, Operand),
    /// How many elements of a size lie between two pointers.
    Distance(u32, Place, u32, Operand, Operand),
    /// What `op=` makes of an old value and a number of a kind; a pointer moves by elements of a size.
    Update(u32, Place, BinaryOp, u32, Sort, IntKind, Operand, Operand),
    /// The field so many bytes behind a pointer, which is told.
    Field(u32, Place, u32, Operand),
    /// The field so many bytes behind an element of a size, by a subscript of a kind, which is told.
    ElementField(u32, Place, u32, IntKind, u32, Operand, Operand),
    /// An element of an array itself: its length, the size of its elements, whether it is addressed, and the kind of the subscript.
    Element(u32, Place, u32, u32, bool, IntKind, Operand, Operand),
    /// So many bytes behind a place in memory.
    Part(u32, Place, u32, Operand),
    /// Of a local's block: so many bytes behind its beginning.
    Inside(u32, Place, u32, u32),
    Load(u32, Place, Access, Operand),
    /// The address, and what is stored there.
    Store(Place, Access, Operand, Operand),
    /// A whole record of a size: the address to which it is copied, and from which.
    CopyRecord(Place, u32, Operand, Operand),
    Jump(Target),
    /// Jumps where the operand is true, or where it is not.
    Branch(bool, Operand, Target),
    /// Jumps where the comparison holds, or where it does not.
    Test(Place, CompareOp, IntKind, bool, Operand, Operand, Target),
    /// Jumps where the operand is that number.
    Case(u32, Operand, Target),
    Call(u32, Place, usize, Row),
    /// Through a pointer of a type, which has the type of the function.
    CallThrough(u32, Place, usize, Operand, Row),
    Library(u32, Place, LibraryFunction, Row),
    /// So many records, of that number and size, all zero or not.
    Allocate(u32, Place, usize, u32, bool, Operand),
    /// The block of a local of that size begins, or ends; it holds nothing again, or zeros; bytes of a text stand in it from an offset on.
    Begin(u32, u32),
    End(u32),
    Forget(u32, u32),
    Zeros(u32, u32),
    Text(u32, u32, usize),
    /// The body of a loop of a function begins.
    Began(usize, u32),
    Return(Option<Operand>),
    /// The function is left with what a temporary holds, or without a value where it holds none.
    ReturnHeld(u32),
    Fail(UndefinedKind, Place),
}

/// A parameter of a function, as it begins.
#[derive(Clone, Copy)]
pub struct Parameter {
    pub block: bool,
    pub size: u32,
    pub access: Access,
}

/// A function.
#[derive(Drop)]
pub struct Routine {
    /// The number of its type.
    pub ty: usize,
    /// Of each local, parameters first, whether it lies in a block.
    pub locals: List<bool>,
    pub parameters: List<Parameter>,
    /// Its steps, **the last one first**; a function without a body has none.
    pub code: List<Step>,
    /// How many steps are left at each label.
    pub labels: List<usize>,
    /// The texts that stand in its blocks, by their numbers.
    pub texts: List<Bytes>,
}

/// The functions of a program, and the number of `main` with its place.
#[derive(Drop)]
pub struct Tac {
    pub routines: List<Routine>,
    pub main: usize,
    pub place: Place,
}
