//! The code, the exit status and the places of each refusal.

ghost use Rattle.std.specs.Prelude.{◌≡◌};
ghost use Rattle.refusals.specs.Table.{numbers, code, status, places};

use crate::refusal::Refusal;
use lay_base::Place;

/// The number by which a refusal is known, from 1 on.
pub fn code_of(refusal: &Refusal) -> u8
    ensures { result ≡ code refusal.now }
{
    numbers(refusal).0
}

/// The status with which a command exits that a refusal ended.
pub fn status_of_refusal(refusal: &Refusal) -> u8
    ensures { result ≡ status refusal.now }
{
    numbers(refusal).1
}

fn numbers(refusal: &Refusal) -> (u8, u8)
    ensures { result ≡ numbers refusal.now }
{
    match refusal {
        Refusal::BadByte(_) => (1, 122),
        Refusal::BadLiteral(_) => (2, 122),
        Refusal::Unclosed(_) => (3, 122),
        Refusal::TooWide(_) => (4, 122),
        Refusal::NoParse(_) => (5, 122),
        Refusal::Unsupported(..) => (6, 122),
        Refusal::TooBig(_) => (7, 122),
        Refusal::IllTyped(..) => (8, 122),
        Refusal::Undeclared(..) => (9, 122),
        Refusal::Redeclared(..) => (10, 122),
        Refusal::Missing(_) => (11, 122),
        Refusal::Twice(..) => (12, 122),
        Refusal::TagClash(..) => (13, 122),
        Refusal::NoMain => (14, 122),
        Refusal::Limit(..) => (15, 122),
        Refusal::Undefined(..) => (17, 125),
        Refusal::TurnLimit(_) => (18, 126),
        Refusal::Room(..) => (19, 126),
        Refusal::ReadFault => (20, 121),
        Refusal::WriteFault => (21, 121),
        Refusal::BadProfile(_) => (22, 123),
        Refusal::Stale(..) => (23, 123),
        Refusal::BadElf(..) => (24, 124),
        Refusal::Trap(..) => (25, 125),
        Refusal::Break(_) => (26, 125),
        Refusal::StepLimit(_) => (27, 126),
        Refusal::Usage => (28, 120),
        Refusal::FileFault(_) => (29, 121),
        Refusal::TooLong(_) => (30, 121),
        Refusal::Memory(_) | Refusal::Unread => (31, 127),
        Refusal::NameClash(..) => (32, 122),
        Refusal::NotBuilt(_) => (33, 122),
    }
}

/// The place of which a refusal speaks, and that of the first definition where it names two.
pub fn places_of(refusal: &Refusal) -> (Option<Place>, Option<Place>)
    ensures { result ≡ places refusal.now }
{
    match refusal {
        Refusal::BadByte(place)
        | Refusal::BadLiteral(place)
        | Refusal::Unclosed(place)
        | Refusal::TooWide(place)
        | Refusal::NoParse(place)
        | Refusal::Unsupported(_, place)
        | Refusal::TooBig(place)
        | Refusal::IllTyped(_, place)
        | Refusal::Undeclared(_, place)
        | Refusal::Undefined(_, place) => (Some(*place), None),
        Refusal::Redeclared(_, place, first)
        | Refusal::Twice(_, place, first)
        | Refusal::TagClash(_, place, first)
        | Refusal::NameClash(_, place, first) => (Some(*place), Some(*first)),
        _ => (None, None),
    }
}
