//! Reads instruction words and prints what `rv_isa` makes of them, so that its table can be compared
//! with the assemblers and disassemblers of others.
//!
//! Standard input has a word on each line, in at most 8 hexadecimal digits. For each the program
//! prints `none` where no instruction of RV32IM has the word. Else it prints the word of the
//! instruction that was found, which is the same word, in 8 digits, a blank, and the instruction:
//! `00700293 Addi { rd: 5, rs1: 0, imm: 7 }`. At a line that is no word it stops with a message on
//! standard error and status 1; the lines above have been answered.
#![tactic(auto)]

mod answering;
mod digits;

use answering::{Stopped, answer_lines};
use std::io::{self, BufReader, BufWriter, Write};
use std::process::ExitCode;

fn answer_input(rt: &HostRuntime) -> Result<(), Stopped> {
    let input = BufReader::new(rt.alloc(), rt.reader())?;
    let mut output = BufWriter::new(rt.alloc(), io::writer(rt))?;
    let answered = answer_lines(rt.alloc(), input, &mut output);
    output.flush()?;
    answered
}

fn main(rt: HostRuntime) -> ExitCode {
    let reported = match answer_input(&rt) {
        Ok(()) => return ExitCode::SUCCESS,
        Err(Stopped::NoWord(line)) => {
            eprintln!(rt; "rv_words: line {line} is no word of at most 8 hexadecimal digits")
        }
        Err(Stopped::Io(error)) => eprintln!(rt; "rv_words: {error}"),
    };
    // Where the message cannot be written either, the status still tells.
    drop(reported);
    ExitCode::FAILURE
}
