//! The stages of the front end, over all files.

ghost use Rattle.std.specs.Prelude.{◌≡◌, ◌≤◌, ℕ, ◌∷◌, ◌++◌, [], All, IfOk, Ok, length, map};
ghost use Rattle.c_lexer.specs.Answers.{LexGives};
ghost use Rattle.c_tokens.specs.Lexes.{Lexes};
ghost use Rattle.c_link.specs.Counting.{IsCountable};
ghost use Rattle.c_typed.specs.Programs.{unit_data};
ghost use Rattle.lay_compile.specs.declared.stages.Reached.TheVariants as R;
ghost use Rattle.lay_compile.specs.Front.{FrontGives};
ghost use Rattle.lay_compile.specs.Reaching.{ProgramGives, ReachedGives, StagesGive, StepGives};
ghost use Rattle.lay_base.specs.declared.place.File.{File as DeclaredFile};

use crate::fault::CompileFault;
use c_check::{CheckFault, check};
use c_checking_units::units_are_one;
use c_lexer::{lex, texts_have_one_reading};
use c_link::link;
use c_parser::{ParseFault, files_have_one_tree, parse, trees_are_small};
use c_tokens::Tokens;
use c_typed::{Typed, Unit};
use c_well_typed::units_are_countable;
use lay_base::{File, Files, List, NoMemory, add};
use std::alloc::Global;

/// How far the files up to one have come together.
#[derive(Drop)]
pub enum Reached {
    /// Each has its unit.
    Units(List<Unit>),
    /// Each has a tree, and this is the fault of the first that has no unit.
    Trees(CheckFault),
    /// Each has tokens, and this is the fault of the first that has no tree.
    Tokens(ParseFault),
}

/// The units with one more.
fn with_one_more(units: List<Unit>, unit: Unit) -> Result<List<Unit>, NoMemory>
    ensures { IfOk result (λ all. all ≡ units ++ unit ∷ []) }
{
    let mut all = units;
    add(&mut all, unit)?;
    Ok(all)
}

/// One more file with these tokens, where each before it has its unit.
fn with_unit(
    alloc: Global,
    number: u16,
    file: &File,
    tokens: Tokens,
    units: List<Unit>,
) -> Result<Reached, CompileFault>
    requires short { length file.now.bytes ≤ 4194304 }
    requires tokens { LexGives file.now.bytes number (Ok tokens) }
    ensures { StepGives number file.now (R.Units units) result }
{
    let tree = match parse(alloc, &tokens) {
        Ok(tree) => tree,
        Err(fault) => return Ok(Reached::Tokens(fault)),
    };
    trees_are_small();
    units_are_countable();
    match check(alloc, number, file, tokens, tree) {
        Ok(unit) => Ok(Reached::Units(with_one_more(units, unit)?)),
        Err(fault) => Ok(Reached::Trees(fault)),
    }
}

/// One more file with these tokens, where each before it has a tree and this fault is the first of their types.
fn with_tree(alloc: Global, tokens: Tokens, fault: CheckFault) -> Reached
    requires short { length tokens.bytes ≤ 4194304 }
    requires tokens { Lexes tokens.bytes tokens.list }
    ensures { (number : ℕ) (file : DeclaredFile) → LexGives file.bytes number (Ok tokens) → StepGives number file (R.Trees fault) (Ok result) }
{
    match parse(alloc, &tokens) {
        Ok(_) => Reached::Trees(fault),
        Err(fault) => Reached::Tokens(fault),
    }
}

/// One more file, through the stages that each before it has passed.
fn with_file(
    alloc: Global,
    number: u16,
    file: &File,
    reached: Reached,
) -> Result<Reached, CompileFault>
    requires { length file.now.bytes ≤ 4194304 }
    ensures { StepGives number file.now reached result }
{
    let tokens = match lex(alloc, file.bytes.as_slice(), number) {
        Ok(tokens) => tokens,
        Err(fault) => return Err(CompileFault::Lexical(number, fault)),
    };
    match reached {
        Reached::Units(units) => with_unit(alloc, number, file, tokens, units),
        Reached::Trees(fault) => Ok(with_tree(alloc, tokens, fault)),
        Reached::Tokens(fault) => Ok(Reached::Tokens(fault)),
    }
}

/// How far all files come.
fn reached_by(alloc: Global, files: &[File]) -> Result<Reached, CompileFault>
    requires few { length files.now ≤ 64 }
    requires short { All (λ file. length file.bytes ≤ 4194304) files.now }
    ensures { ReachedGives files.now result }
{
    let mut reached = Reached::Units(List::new(alloc));
    let mut number = 0;
    for file in files {
        reached = match with_file(alloc, number, file, reached) {
            Ok(next) => next,
            Err(fault) => return Err(fault),
        };
        number += 1;
    }
    Ok(reached)
}

/// The program of units.
fn program_of(alloc: Global, units: List<Unit>) -> Result<Typed, CompileFault>
    requires { All IsCountable (map unit_data units) }
    ensures { ProgramGives (map unit_data units) result }
{
    match link(alloc, units) {
        Ok(p) => Ok(p),
        Err(gap) => Err(CompileFault::Joining(gap)),
    }
}

/// Files through all stages.
fn through_stages(alloc: Global, files: &[File]) -> Result<Typed, CompileFault>
    requires few { length files.now ≤ 64 }
    requires short { All (λ file. length file.bytes ≤ 4194304) files.now }
    ensures { StagesGive files.now result }
{
    match reached_by(alloc, files) {
        Ok(Reached::Units(units)) => program_of(alloc, units),
        Ok(Reached::Trees(fault)) => Err(CompileFault::Types(fault)),
        Ok(Reached::Tokens(fault)) => Err(CompileFault::Syntax(fault)),
        Err(fault) => Err(fault),
    }
}

/// The program of files; or, where they have none, the fault of the first file that fails the earliest stage that any file fails.
pub fn front(alloc: Global, files: &Files) -> Result<Typed, CompileFault>
    requires few { length files.now ≤ 64 }
    requires short { All (λ file. length file.bytes ≤ 4194304) files.now }
    ensures { FrontGives files.now result }
{
    texts_have_one_reading();
    files_have_one_tree();
    units_are_one();
    through_stages(alloc, files.as_slice())
}
