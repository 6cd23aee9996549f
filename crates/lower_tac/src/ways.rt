//! Where ways out of a statement lead.

use tac_ir::Target;

/// A `break` or a `continue`.
#[derive(Clone, Copy)]
pub enum Exit {
    Leads(Target),
    /// Out of the function, where no loop and no `switch` stands around it.
    Leaves,
}

/// A `return`.
#[derive(Clone, Copy)]
pub enum ReturnWay {
    /// The function is left where it stands.
    AtOnce,
    /// To where blocks of locals end, with its value in the first temporary behind the locals.
    BehindEnds(Target),
}

/// The ways out of a statement.
#[derive(Clone, Copy)]
pub struct Exits {
    pub on_break: Exit,
    pub on_continue: Exit,
    pub on_return: ReturnWay,
}
