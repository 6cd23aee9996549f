//! Whether files are a program, and the refusal for files that are none, with the texts of its places.

ghost use Rattle.std.specs.Prelude.{◌≤◌, All, IfOk, IfErr, IfSome, length};
ghost use Rattle.lay_compile.specs.declared.fault.CompileFault.TheVariants.{Lexical, Syntax, Types, Joining};
ghost use Rattle.lay_compile.specs.LineTexts.PlaceTexts.{IsPlaceText};
ghost use Rattle.lay_compile.specs.ProgramFiles.FrontEnd.{AreTexts, FrontEndGives, ProgramGives, Tells, or_empty};

use crate::fault::CompileFault;
use crate::line_texts::place_text;
use crate::stages::front;
use c_check::CheckFault;
use c_lexer::LexFault;
use c_link::{Gap, Passed, Trouble};
use c_parser::ParseFault;
use c_typed::Typed;
use lay_base::{Bytes, File, Files, NoMemory, Place};
use refusals::{Refusal, places_of};
use std::alloc::Global;

/// The texts FILE:LINE of the places of a refusal: of that of which it speaks, and of that of the first definition.
#[derive(Drop)]
pub struct PlaceTexts {
    pub at: Option<Bytes>,
    pub first: Option<Bytes>,
}

impl PlaceTexts {
    /// Those of a refusal that has no place.
    pub fn none() -> PlaceTexts {
        PlaceTexts {
            at: None,
            first: None,
        }
    }
}

/// The refusal for a fault of the tokens of a file.
fn lexical(file: u16, fault: LexFault) -> Refusal
    ensures { Tells (Lexical file fault) result }
{
    match fault {
        LexFault::BadByte(at) => Refusal::BadByte(Place { file, at }),
        LexFault::BadLiteral(at) => Refusal::BadLiteral(Place { file, at }),
        LexFault::Unclosed(at) => Refusal::Unclosed(Place { file, at }),
        LexFault::TooWide(at) => Refusal::TooWide(Place { file, at }),
        LexFault::Memory(want) => Refusal::Memory(want),
    }
}

/// The refusal for a file that has no tree.
fn syntactic(fault: ParseFault) -> Refusal
    ensures { Tells (Syntax fault) result }
{
    match fault {
        ParseFault::NoParse(place) => Refusal::NoParse(place),
        ParseFault::Unsupported(keyword, place) => Refusal::Unsupported(keyword, place),
        ParseFault::Memory(want) => Refusal::Memory(want),
    }
}

/// The refusal for a fault of the types of a file.
fn of_types(fault: CheckFault) -> Refusal
    ensures { Tells (Types fault) result }
{
    match fault {
        CheckFault::TooBig(place) => Refusal::TooBig(place),
        CheckFault::IllTyped(rule, place) => Refusal::IllTyped(rule, place),
        CheckFault::Undeclared(name, place) => Refusal::Undeclared(name, place),
        CheckFault::Redeclared(name, place, first) => Refusal::Redeclared(name, place, first),
        CheckFault::Memory(want) => Refusal::Memory(want),
    }
}

/// The refusal for a gap of the units.
fn of_gap(gap: Gap) -> Refusal
    ensures { Tells (Joining gap) result }
{
    match gap {
        Gap::TagClash(t) => {
            let Trouble { name, place, first } = t;
            Refusal::TagClash(name, place, first)
        }
        Gap::NameClash(t) => {
            let Trouble { name, place, first } = t;
            Refusal::NameClash(name, place, first)
        }
        Gap::Twice(t) => {
            let Trouble { name, place, first } = t;
            Refusal::Twice(name, place, first)
        }
        Gap::Missing(name) => Refusal::Missing(name),
        Gap::NoMain => Refusal::NoMain,
        Gap::Limit(Passed { which, counted }) => Refusal::Limit(which, counted),
        Gap::Memory(want) => Refusal::Memory(want),
    }
}

/// The refusal for a fault of the front end.
fn refusal_for(fault: CompileFault) -> Refusal
    ensures { Tells fault result }
{
    match fault {
        CompileFault::Lexical(file, fault) => lexical(file, fault),
        CompileFault::Syntax(fault) => syntactic(fault),
        CompileFault::Types(fault) => of_types(fault),
        CompileFault::Joining(gap) => of_gap(gap),
        CompileFault::Memory(want) => Refusal::Memory(want),
    }
}

/// The text of a place, where there is one.
fn text_if_any(
    alloc: Global,
    files: &[File],
    place: Option<Place>,
) -> Result<Option<Bytes>, NoMemory>
    requires { All (λ file. length file.bytes ≤ 4194304) files.now }
    ensures { IfOk result (λ text. IfSome place (λ p. IsPlaceText files.now p (or_empty text))) }
{
    match place {
        Some(place) => Ok(Some(place_text(alloc, files, place)?)),
        None => Ok(None),
    }
}

/// The texts of the places of a refusal.
pub fn texts_of(alloc: Global, files: &[File], refusal: &Refusal) -> Result<PlaceTexts, NoMemory>
    requires { All (λ file. length file.bytes ≤ 4194304) files.now }
    ensures { IfOk result (AreTexts files.now refusal.now) }
{
    let (place, first) = places_of(refusal);
    let at = text_if_any(alloc, files, place)?;
    let first = text_if_any(alloc, files, first)?;
    Ok(PlaceTexts { at, first })
}

/// The program of files. A refusal leaves the texts of its places.
pub fn program_of(alloc: Global, files: &Files, texts: &mut PlaceTexts) -> Result<Typed, Refusal>
    requires few { length files.now ≤ 64 }
    requires short { All (λ file. length file.bytes ≤ 4194304) files.now }
    ensures gives { ProgramGives files.now result }
    ensures texts { IfErr result (λ refusal. AreTexts files.now refusal texts.new) }
{
    let fault = match front(alloc, files) {
        Ok(program) => return Ok(program),
        Err(fault) => fault,
    };
    let refusal = refusal_for(fault);
    *texts = texts_of(alloc, files.as_slice(), &refusal)?;
    Err(refusal)
}

/// Refuses files that are no program. A refusal leaves the texts of its places.
pub fn check_files(alloc: Global, files: &Files, texts: &mut PlaceTexts) -> Result<(), Refusal>
    requires few { length files.now ≤ 64 }
    requires short { All (λ file. length file.bytes ≤ 4194304) files.now }
    ensures gives { FrontEndGives files.now result }
    ensures texts { IfErr result (λ refusal. AreTexts files.now refusal texts.new) }
{
    match program_of(alloc, files, texts) {
        Ok(_) => Ok(()),
        Err(refusal) => Err(refusal),
    }
}
