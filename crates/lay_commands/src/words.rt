//! The words on the command line.

ghost use Rattle.std.specs.Prelude.{◌≡◌, ◌≤◌, IfOk, IfSome, option_map, option_and_then, map, length};
ghost use Rattle.std.specs.String.{string_bytes};
ghost use Rattle.clap.specs.Walk.{rows_of};
ghost use Rattle.clap.specs.Matches.{found_of};
ghost use Rattle.clap.specs.Simple.{subcommand_rows_of};
ghost use Rattle.lay_commands.specs.CommandLine.{matches_in};
ghost use Rattle.lay_commands.specs.Words.{Compile, Profile, Interp, Run, AreTurns, IsInRange, IsPossible, number_of, is_given, files_of};
ghost use Rattle.lay_commands.specs.Words.{compile_of, profile_of, interp_of, run_of, turns_of, command_found};
ghost use Rattle.lay_commands.specs.Words.{compilation_of, profiling_of, interpretation_of, requested};

use crate::command_line::command_line;
use crate::numbers::number_in;
use clap::ArgMatches;
use clap::error::ErrorKind;
use std::alloc::{AllocError, Global};

/// A request to compile `files` to an ELF file under `out`.
#[derive(Clone, Copy)]
pub struct CompileRequest<'b, 'a> {
    pub out: &'a str,
    /// The name of a profile by which fields are weighed.
    pub profile: Option<&'a str>,
    /// Whether each record is to stay as it is declared.
    pub plain: bool,
    /// MiB of heap, 1 to 1024.
    pub heap: u32,
    /// MiB of stack, 1 to 128.
    pub stack: u32,
    /// One or more names.
    pub files: &'b [&'a str],
}

/// A request to run the program of `files` and to write its profile under `out`.
#[derive(Clone, Copy)]
pub struct ProfileRequest<'b, 'a> {
    pub out: &'a str,
    /// How many turns may begin, 1 to 10^18.
    pub turns: u64,
    /// One or more names.
    pub files: &'b [&'a str],
}

/// A request to run the program of `files`.
#[derive(Clone, Copy)]
pub struct InterpRequest<'b, 'a> {
    /// How many turns may begin, 1 to 10^18.
    pub turns: u64,
    /// One or more names.
    pub files: &'b [&'a str],
}

/// A request to run the ELF file `elf` for at most `steps` steps.
#[derive(Clone, Copy)]
pub struct RunRequest<'a> {
    pub steps: u64,
    pub elf: &'a str,
}

/// What the words can ask for.
#[derive(Clone, Copy)]
pub enum Request<'b, 'a> {
    Compile(CompileRequest<'b, 'a>),
    Profile(ProfileRequest<'b, 'a>),
    Interp(InterpRequest<'b, 'a>),
    Run(RunRequest<'a>),
}

/// MiB of heap where the words say none, and the most that they can ask for.
const DEFAULT_HEAP: u64 = 256;

const MOST_HEAP: u64 = 1024;

/// The same of the stack.
const DEFAULT_STACK: u64 = 64;

const MOST_STACK: u64 = 128;

/// The same of the number of turns.
const DEFAULT_TURNS: u64 = 100_000_000;

const MOST_TURNS: u64 = 1_000_000_000_000_000_000;

/// The same of the number of steps.
const DEFAULT_STEPS: u64 = 10_000_000_000;

const MOST_STEPS: u64 = 1_000_000_000_000_000_000;

/// The number that an option has, or the default where it is not given.
#[tactic(auto, using(crate::proofs::Found::first_by_rows))]
fn number_of(found: &ArgMatches<'_>, name: &str, default: u64, most: u64) -> Option<u64>
    requires { (1 ≤ default) × (default ≤ most) }
    ensures number { result ≡ number_of name.now default most (rows_of (found_of found.now)) }
    ensures range { IfSome result (λ n. (1 ≤ n) × (n ≤ most)) }
{
    match found.get_str(name) {
        Some(word) => number_in(word, most),
        None => Some(default),
    }
}

/// Whether a flag is given.
#[tactic(auto, using(crate::proofs::Found::one_by_rows))]
fn is_given(found: &ArgMatches<'_>, name: &str) -> bool
    ensures { result ≡ is_given name.now (rows_of (found_of found.now)) }
{
    found.get_one::<bool>(name) == Some(true)
}

/// The files, which are one or more.
#[tactic(auto, using(crate::proofs::Found::all_by_rows, crate::proofs::Found::files_kept))]
fn files_of<'b, 'a>(found: &'b ArgMatches<'a>) -> Option<&'b [&'a str]>
    ensures files { option_map (λ files. map (λ file. file.now) files.now) result ≡ files_of (rows_of (found_of found.now)) }
    ensures some { IfSome result (λ files. 1 ≤ length files.now) }
{
    let files = found.get_strs("FILE")?;
    if files.is_empty() { None } else { Some(files) }
}

/// The request to compile that was found, where its numbers are in range.
#[tactic(auto, using(crate::proofs::Found::first_by_rows))]
fn compile_request<'b, 'a>(found: &'b ArgMatches<'a>) -> Option<CompileRequest<'b, 'a>>
    ensures command { option_map (λ request. Compile (compilation_of request)) result ≡ compile_of (rows_of (found_of found.now)) }
    ensures range { IfSome result (λ request. IsInRange (compilation_of request)) }
{
    let out = found.get_str("OUT")?;
    let files = files_of(found)?;
    let heap = number_of(found, "heap", DEFAULT_HEAP, MOST_HEAP)?;
    let stack = number_of(found, "stack", DEFAULT_STACK, MOST_STACK)?;
    Some(CompileRequest {
        out,
        profile: found.get_str("profile"),
        plain: is_given(found, "plain"),
        heap: heap as u32,
        stack: stack as u32,
        files,
    })
}

/// The number of turns, where it is in range.
fn turns_of(found: &ArgMatches<'_>) -> Option<u64>
    ensures number { result ≡ turns_of (rows_of (found_of found.now)) }
    ensures range { IfSome result AreTurns }
{
    number_of(found, "turns", DEFAULT_TURNS, MOST_TURNS)
}

/// The request to profile that was found, where its number is in range.
#[tactic(auto, using(crate::proofs::Found::first_by_rows))]
fn profile_request<'b, 'a>(found: &'b ArgMatches<'a>) -> Option<ProfileRequest<'b, 'a>>
    ensures command { option_map (λ request. Profile (profiling_of request)) result ≡ profile_of (rows_of (found_of found.now)) }
    ensures range { IfSome result (λ request. AreTurns request.turns) }
{
    let out = found.get_str("OUT")?;
    let files = files_of(found)?;
    let turns = turns_of(found)?;
    Some(ProfileRequest { out, turns, files })
}

/// The request to interpret that was found, where its number is in range.
fn interp_request<'b, 'a>(found: &'b ArgMatches<'a>) -> Option<InterpRequest<'b, 'a>>
    ensures command { option_map (λ request. Interp (interpretation_of request)) result ≡ interp_of (rows_of (found_of found.now)) }
    ensures range { IfSome result (λ request. AreTurns request.turns) }
{
    let files = files_of(found)?;
    let turns = turns_of(found)?;
    Some(InterpRequest { turns, files })
}

/// The request to run that was found, where its number is in range.
#[tactic(auto, using(crate::proofs::Found::first_by_rows))]
fn run_request<'a>(found: &ArgMatches<'a>) -> Option<RunRequest<'a>>
    ensures { option_map (λ request. Run request.steps request.elf.now) result ≡ run_of (rows_of (found_of found.now)) }
{
    let elf = found.get_str("ELF")?;
    let steps = number_of(found, "steps", DEFAULT_STEPS, MOST_STEPS)?;
    Some(RunRequest { steps, elf })
}

/// What was found asks for, where it asks for something.
pub fn request_in<'b, 'a>(matches: &'b ArgMatches<'a>) -> Option<Request<'b, 'a>>
    ensures command { option_map requested result ≡ option_and_then command_found (subcommand_rows_of matches.now) }
    ensures range { IfSome result IsPossible }
{
    let (name, found) = matches.subcommand()?;
    if name == "compile" {
        Some(Request::Compile(compile_request(found)?))
    } else if name == "profile" {
        Some(Request::Profile(profile_request(found)?))
    } else if name == "interp" {
        Some(Request::Interp(interp_request(found)?))
    } else {
        Some(Request::Run(run_request(found)?))
    }
}

/// What the command line has of the words, where it takes them. Where it finds no memory, its own error says so.
pub fn matches_in<'a>(
    alloc: Global,
    words: &'a [String],
) -> Result<Option<ArgMatches<'a>>, AllocError>
    ensures { IfOk result (λ matches. option_and_then subcommand_rows_of matches ≡ matches_in (map string_bytes words.now)) }
{
    match command_line(alloc)?.try_get_matches_from(words) {
        Ok(matches) => Ok(Some(matches)),
        Err(error) => {
            if error.kind() == ErrorKind::OutOfMemory {
                Err(AllocError)
            } else {
                Ok(None)
            }
        }
    }
}
