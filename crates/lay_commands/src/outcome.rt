//! How a command ends.

ghost use Rattle.std.specs.Prelude.{◌≡◌};
ghost use Rattle.lay_commands.specs.Status.{exit_status};

use refusals::{Refusal, status_of_refusal};

/// How a command ends: a program that it ran ended with a status, its work is done, or it is refused.
#[derive(Drop)]
pub enum Outcome {
    Program(u8),
    Done,
    Refused(Refusal),
}

/// The exit status: the program's own, 0 where the work is done, and 120 to 127 by the class of a
/// refusal. A program's own status may equal a refusal's; only a refusal writes to `err`.
pub fn status_of(outcome: &Outcome) -> u8
    ensures { result ≡ exit_status outcome.now }
{
    match outcome {
        Outcome::Program(status) => *status,
        Outcome::Done => 0,
        Outcome::Refused(refusal) => status_of_refusal(refusal),
    }
}
