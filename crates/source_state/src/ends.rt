//! What a step comes to, and how it ends a run.

ghost use Rattle.std.specs.Prelude.{◌≡◌};
ghost use Rattle.source_state.specs.declared.ends.Final.TheVariants.{Undefined};
ghost use Rattle.source_state.specs.declared.ends.Moved.TheVariants.{Over};

use lay_base::{Place, RoomKind, UndefinedKind};

/// How a run is over.
#[derive(Clone, Copy)]
pub enum Final {
    /// The program ended, with a status.
    Ends(u8),
    /// The turns are used up, and the next would begin.
    TurnLimit,
    /// The step of the expression at a place has no defined meaning.
    Undefined(UndefinedKind, Place),
    /// The limit would be passed with that many bytes, or calls.
    Room(RoomKind, u64),
}

/// What a step comes to.
#[derive(Clone, Copy)]
pub enum Moved {
    Goes,
    /// A byte is to be written.
    Puts(u8),
    /// A byte is to be read, and its value given to the step.
    Gets,
    Over(Final),
}

/// The end of a run at a step that has no defined meaning.
pub fn undefined(kind: UndefinedKind, place: Place) -> Moved
    ensures { result ≡ Over (Undefined kind place) }
{
    Moved::Over(Final::Undefined(kind, place))
}
