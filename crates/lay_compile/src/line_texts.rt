//! The text FILE:LINE of a place in source files, as the line markers before it presume it (C99 6.10.4).
//!
//! It stands on `lay_base` and `c_lexer`, and on the definition of presumed lines in `c_erasure`. It promises the text of
//! each place before which there are tokens.

ghost use Rattle.std.specs.Prelude.{◌≡◌, ◌≢◌, ◌≤◌, All, IfOk, length};
ghost use Rattle.c_lexer.specs.declared.fault.LexFault.TheVariants as L;
ghost use Rattle.c_erasure.specs.Untagged.{name_in};
ghost use Rattle.lay_base.specs.Want.{no_memory};
ghost use Rattle.lay_compile.specs.LineTexts.PlaceTexts.{line_text, IsTextAt, IsPlaceText, PresumesIfAny};

use c_lexer::{LexFault, lex, presumed_at, texts_have_one_reading};
use c_tokens::Presumed;
use itoa::Buffer;
use lay_base::{Bytes, File, NoMemory, Place, append, copied};
use std::alloc::Global;

/// Passes where a text has a fault, and not only memory is out.
fn check_fault(fault: LexFault) -> Result<(), NoMemory>
    ensures { IfOk result (λ _. fault ≢ L.Memory no_memory) }
{
    match fault {
        LexFault::Memory(want) => Err(want),
        LexFault::BadByte(_)
        | LexFault::BadLiteral(_)
        | LexFault::Unclosed(_)
        | LexFault::TooWide(_) => Ok(()),
    }
}

/// What is presumed of a byte, where there are tokens before it.
#[tactic(auto, using(crate::proofs::LineTexts::Places::no_tokens))]
fn presumed_if_any(alloc: Global, bytes: &[u8], at: u32) -> Result<Option<Presumed>, NoMemory>
    requires { length bytes.now ≤ 4194304 }
    ensures { IfOk result (PresumesIfAny bytes.now at) }
{
    if at as usize > bytes.len() {
        return Ok(None);
    }
    texts_have_one_reading();
    let (front, _) = bytes.split_at(at as usize);
    match lex(alloc, front, 0) {
        Ok(_) => Ok(Some(presumed_at(bytes, at))),
        Err(fault) => {
            check_fault(fault)?;
            Ok(None)
        }
    }
}

/// The name that is presumed: the file's own where no marker gives one.
#[tactic(auto, using(std::proofs::lemmas::List::take_min, std::proofs::lemmas::List::drop_min))]
fn presumed_name<'a>(file: &'a File, presumed: Presumed) -> &'a [u8]
    ensures { result.now ≡ name_in file.now.name file.now.bytes presumed }
{
    if presumed.to <= presumed.from {
        return file.name.as_slice();
    }
    let bytes = file.bytes.as_slice();
    let from = (presumed.from as usize).min(bytes.len());
    let (_, after) = bytes.split_at(from);
    let size = ((presumed.to - presumed.from) as usize).min(after.len());
    let (name, _) = after.split_at(size);
    name
}

fn line_bytes(alloc: Global, name: &[u8], line: u32) -> Result<Vec<u8>, NoMemory>
    ensures { IfOk result (λ text. text.items ≡ line_text (name.now, line)) }
{
    let mut buffer = Buffer::new();
    let mut text = copied(alloc, name)?;
    append(&mut text, b":")?;
    append(&mut text, buffer.format(line).as_bytes())?;
    Ok(text)
}

/// The text of a byte of a file; an empty one where there are no tokens before the byte.
fn text_at(alloc: Global, file: &File, at: u32) -> Result<Bytes, NoMemory>
    requires { length file.now.bytes ≤ 4194304 }
    ensures { IfOk result (IsTextAt file.now at) }
{
    let Some(presumed) = presumed_if_any(alloc, file.bytes.as_slice(), at)? else {
        return Ok(Bytes::of(Vec::new(alloc)));
    };
    let text = line_bytes(alloc, presumed_name(file, presumed), presumed.line)?;
    Ok(Bytes::of(text))
}

/// The text of a place in files; an empty one where there is no such file, or no tokens are before the place.
pub fn place_text(alloc: Global, files: &[File], place: Place) -> Result<Bytes, NoMemory>
    requires { All (λ file. length file.bytes ≤ 4194304) files.now }
    ensures { IfOk result (IsPlaceText files.now place) }
{
    match files.get(place.file as usize) {
        Some(file) => text_at(alloc, file, place.at),
        None => Ok(Bytes::of(Vec::new(alloc))),
    }
}
