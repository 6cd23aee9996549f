//! `layc`, a whole-program C compiler for RV32IM, and a machine for what it compiles: the commands of
//! `lay_commands` on the real files and streams. The program that `run` runs reads standard input and
//! writes to standard output.
//!
//! Standard input is read ahead, in pieces of up to 8,192 bytes. A piece is used as soon as it is there, however short it is. What a program leaves unread
//! of a piece is lost to whoever reads the same stream after it.
//!
//! The adapters meet the traits `Host`, `Source` and `Sink` with unknown contents: a call that fails raises the count, and no other call does. That they give
//! and take what is there, and fail only where the system does, is only tested, on real files. Where the words or the buffer of standard input find no memory,
//! `main` answers the refusal for want of memory. Text that is not UTF-8 on the command line is answered with the usage text.
#![tactic(auto)]

mod adapters;
#[cfg(test)]
mod tests;

use adapters::{FileHost, StdSink, StdSource};
use lay_base::{NoMemory, arguments, buffered};
use lay_commands::{Outcome, layc, status_of};
use refusals::{Refusal, put_refusal};
use std::process::ExitCode;

/// The words after the program's own name. Where the system gives none as text, there are none, which asks for nothing.
fn after_the_name(words: &[String]) -> &[String] {
    match words {
        [_, more @ ..] => more,
        [] => words,
    }
}

/// Does what the words ask for. Standard input is read in pieces, each of which is used at once however
/// short it is.
fn outcome_of(rt: &HostRuntime) -> Result<Outcome, NoMemory> {
    let words = arguments(rt)?;
    let input = buffered(rt.alloc(), rt.stdin())?;
    Ok(layc(
        rt.alloc(),
        after_the_name(&words),
        &mut FileHost::new(rt),
        &mut StdSource::new(input),
        &mut StdSink::new(rt.stdout()),
        &mut StdSink::new(rt.stderr()),
    ))
}

/// The refusal for want of memory before a command is known, whose text goes to standard error.
fn refused_for(want: NoMemory, rt: &HostRuntime) -> Outcome {
    let refusal = Refusal::Memory(want);
    let _ = put_refusal(&mut StdSink::new(rt.stderr()), &refusal, b"", b"");
    Outcome::Refused(refusal)
}

fn main(rt: HostRuntime) -> ExitCode {
    let outcome = match outcome_of(&rt) {
        Ok(outcome) => outcome,
        Err(want) => refused_for(want, &rt),
    };
    ExitCode::from(status_of(&outcome))
}
