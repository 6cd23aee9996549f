//! The top call: words, a host and three streams in, an outcome out.

ghost use Rattle.std.specs.Prelude.{◌≡◌, ◌⊎◌, map, option_and_then, option_map, Some};
ghost use Rattle.std.specs.String.{string_bytes};
ghost use Rattle.c_link.specs.Programs.{ProgramsAreOne};
ghost use Rattle.clap.specs.Simple.{subcommand_rows_of};
ghost use Rattle.lay_commands.specs.Words.{command_found, command_of, requested, IsPossible};
ghost use Rattle.lay_compile.specs.ProgramFiles.FrontEnd.{or_empty};
ghost use Rattle.lay_compile.specs.ProgramFiles.Outside.{outside, stream};
ghost use Rattle.c_undefined_places.specs.Verdicts.{ViolationsStandInFiles};
ghost use Rattle.layout_plan.specs.Planning.{PlansAreOne};
ghost use Rattle.lay_commands.specs.Answers.{AskedGives, ErrGives, MayRead, OutcomeGives, OutcomeHas, run_outcome};

use crate::compiling::compile;
use crate::interpreting::interp;
use crate::outcome::Outcome;
use crate::profiling::profile;
use crate::running::run;
use crate::words::{Request, matches_in, request_in};
use c_undefined_places::{undefined_steps_stand_in_files, violations_stand_in_files};
use clap::ArgMatches;
use lay_base::{Bytes, Host, Sink, Source};
use lay_compile::{PlaceTexts, named_texts_are_of_places, programs_are_one};
use layout_plan::plans_are_one;
use refusals::{Refusal, put_refusal};
use std::alloc::Global;

/// The outcome of a command that runs a program.
fn by_status(answer: Result<u8, Refusal>) -> Outcome
    ensures { result ≡ run_outcome answer }
{
    match answer {
        Ok(status) => Outcome::Program(status),
        Err(refusal) => Outcome::Refused(refusal),
    }
}

/// Does what is asked for. A refusal leaves the texts of its places, if it has any.
fn outcome_for<H: Host, I: Source, O: Sink>(
    alloc: Global,
    request: Request<'_, '_>,
    host: &mut H,
    input: &mut I,
    out: &mut O,
    texts: &mut PlaceTexts,
) -> Outcome
    requires { IsPossible request }
    ensures input { (input.new ≡ input.old) ⊎ MayRead (Some (requested request.entry)) result }
    ensures gives { let before = outside (H.files host.old) (H.failed_reads host.old) (H.failed_writes host.old)
        (stream (I.left input.old) (I.faults input.old)) (stream (O.written out.old) (O.faults out.old)) in
        let now = outside (H.files host.new) (H.failed_reads host.new) (H.failed_writes host.new)
        (stream (I.left input.new) (I.faults input.new)) (stream (O.written out.new) (O.faults out.new)) in
        AskedGives (Some (requested request.entry)) before now result }
    ensures texts { OutcomeHas (Some (requested request.entry)) (H.files host.old) result (or_empty texts.new.at) (or_empty texts.new.first) }
{
    match request {
        Request::Compile(request) => match compile(alloc, request, host, out, texts) {
            Ok(()) => Outcome::Done,
            Err(refusal) => Outcome::Refused(refusal),
        },
        Request::Profile(request) => by_status(profile(alloc, request, host, input, out, texts)),
        Request::Interp(request) => by_status(interp(alloc, request, host, input, out, texts)),
        Request::Run(request) => by_status(run(alloc, request, host, input, out)),
    }
}

/// Does what is asked for by what was found. A refusal leaves the texts of its places, if it has any.
fn outcome_in<H: Host, I: Source, O: Sink>(
    alloc: Global,
    matches: &ArgMatches<'_>,
    host: &mut H,
    input: &mut I,
    out: &mut O,
    texts: &mut PlaceTexts,
) -> Outcome
    ensures input { (input.new ≡ input.old) ⊎ MayRead (option_and_then command_found (subcommand_rows_of matches.now)) result }
    ensures gives { let before = outside (H.files host.old) (H.failed_reads host.old) (H.failed_writes host.old)
        (stream (I.left input.old) (I.faults input.old)) (stream (O.written out.old) (O.faults out.old)) in
        let now = outside (H.files host.new) (H.failed_reads host.new) (H.failed_writes host.new)
        (stream (I.left input.new) (I.faults input.new)) (stream (O.written out.new) (O.faults out.new)) in
        AskedGives (option_and_then command_found (subcommand_rows_of matches.now)) before now result }
    ensures texts { OutcomeHas (option_and_then command_found (subcommand_rows_of matches.now)) (H.files host.old) result
        (or_empty texts.new.at) (or_empty texts.new.first) }
{
    match request_in(matches) {
        Some(request) => outcome_for(alloc, request, host, input, out, texts),
        None => Outcome::Refused(Refusal::Usage),
    }
}

/// Does what the words ask for. A refusal leaves the texts of its places, if it has any.
fn outcome_of<H: Host, I: Source, O: Sink>(
    alloc: Global,
    words: &[String],
    host: &mut H,
    input: &mut I,
    out: &mut O,
    texts: &mut PlaceTexts,
) -> Outcome
    ensures input { (input.new ≡ input.old) ⊎ MayRead (command_of (map string_bytes words.now)) result }
    ensures gives { let before = outside (H.files host.old) (H.failed_reads host.old) (H.failed_writes host.old)
        (stream (I.left input.old) (I.faults input.old)) (stream (O.written out.old) (O.faults out.old)) in
        let now = outside (H.files host.new) (H.failed_reads host.new) (H.failed_writes host.new)
        (stream (I.left input.new) (I.faults input.new)) (stream (O.written out.new) (O.faults out.new)) in
        OutcomeGives (command_of (map string_bytes words.now)) before now result }
    ensures texts { OutcomeHas (command_of (map string_bytes words.now)) (H.files host.old) result
        (or_empty texts.new.at) (or_empty texts.new.first) }
{
    match matches_in(alloc, words) {
        Ok(Some(matches)) => outcome_in(alloc, &matches, host, input, out, texts),
        Ok(None) => Outcome::Refused(Refusal::Usage),
        Err(_) => Outcome::Refused(Refusal::Unread),
    }
}

fn text_of(text: &Option<Bytes>) -> &[u8]
    ensures { result.now ≡ or_empty text.now }
{
    match text {
        Some(text) => text.as_slice(),
        None => b"".as_slice(),
    }
}

/// Runs the command that the words after the program's own name ask for. A refusal writes its
/// text to `err`; a fault of `err` does not change the outcome.
#[tactic(auto, using(crate::proofs::Refused::reported))]
pub fn layc<H: Host, I: Source, O: Sink, E: Sink>(
    alloc: Global,
    words: &[String],
    host: &mut H,
    input: &mut I,
    out: &mut O,
    err: &mut E,
) -> Outcome
    ensures input { (input.new ≡ input.old) ⊎ MayRead (command_of (map string_bytes words.now)) result }
    ensures gives { let before = outside (H.files host.old) (H.failed_reads host.old) (H.failed_writes host.old)
        (stream (I.left input.old) (I.faults input.old)) (stream (O.written out.old) (O.faults out.old)) in
        let now = outside (H.files host.new) (H.failed_reads host.new) (H.failed_writes host.new)
        (stream (I.left input.new) (I.faults input.new)) (stream (O.written out.new) (O.faults out.new)) in
        OutcomeGives (command_of (map string_bytes words.now)) before now result }
    ensures err { ErrGives (command_of (map string_bytes words.now)) (H.files host.old) (I.left input.old) (stream (E.written err.old) (E.faults err.old))
        (stream (E.written err.new) (E.faults err.new)) result }
    // The program of some files, of which these clauses speak, is the only one, and so is its plan by a profile or without.
    ensures one { ProgramsAreOne }
    ensures plans { PlansAreOne }
    // Each place of a violation, which a report names, is one of the files, with tokens before it.
    ensures violations { ViolationsStandInFiles }
{
    named_texts_are_of_places();
    undefined_steps_stand_in_files();
    programs_are_one();
    plans_are_one();
    violations_stand_in_files();
    let mut texts = PlaceTexts::none();
    let outcome = outcome_of(alloc, words, host, input, out, &mut texts);
    if let Outcome::Refused(refusal) = &outcome {
        let _ = put_refusal(err, refusal, text_of(&texts.at), text_of(&texts.first));
    }
    outcome
}
