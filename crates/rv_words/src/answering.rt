//! The answer to each line.

ghost use Rattle.std.specs.Prelude.{◌≡◌, MatchOption, Some, None};
ghost use Rattle.rv_isa.specs.Decoding.{decoded};
ghost use Rattle.rv_words.specs.declared.answering.Stopped.TheVariants.{Io};

use crate::digits::word_in;
use rv_isa::{Inst, decode, encode};
use std::alloc::Global;
use std::io::{self, BufRead, Write};

/// Why the answers end before the input does.
#[derive(Drop)]
pub enum Stopped {
    /// The line with this number, from 1 on, is no word.
    NoWord(u64),
    /// Reading or writing failed, or memory is out.
    Io(io::Error),
}

impl From<io::Error> for Stopped {
    ghost from_gives = { λ error stopped. stopped ≡ Io error };

    fn from(error: io::Error) -> Stopped {
        Stopped::Io(error)
    }
}

/// The instruction of a word, after its word by the table.
fn instruction_at(word: u32) -> Option<(u32, Inst)>
    ensures { MatchOption result (decoded word ≡ None) (λ found. (decoded word ≡ Some found.1) × (found.0 ≡ word)) }
{
    let instruction = decode(word)?;
    Some((encode(instruction), instruction))
}

fn answer<W: Write>(word: u32, output: &mut W) -> io::Result<()> {
    match instruction_at(word) {
        Some((again, instruction)) => writeln!(output, "{again:08x} {instruction:?}"),
        None => writeln!(output, "none"),
    }
}

/// Answers each line of the input, up to the first that is no word.
pub fn answer_lines<R: BufRead + Drop, W: Write>(
    alloc: Global,
    input: R,
    output: &mut W,
) -> Result<(), Stopped> {
    let mut count = 0u64;
    for line in input.lines(alloc) {
        count = count.saturating_add(1);
        let Some(word) = word_in(line?.as_str()) else {
            return Err(Stopped::NoWord(count));
        };
        answer(word, output)?;
    }
    Ok(())
}
