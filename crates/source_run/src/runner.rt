//! The runner of a program.

ghost use Rattle.std.specs.Prelude.{◌≡◌, IfOk};
ghost use Rattle.c_typed.specs.Programs.{program_data};
ghost use Rattle.lower_tac.specs.Statements.{lowered};
ghost use Rattle.source_run.specs.Fresh.{no_counts as counts_of_none};
ghost use Rattle.source_run.specs.RunGives.{RunGives};
ghost use Rattle.source_run.specs.Starting.{HasFinished, IsAtStart, answer_of};
ghost use Rattle.source_run.specs.Streams.{streams};
ghost use Rattle.source_start.specs.Fits.{StartsFit};
ghost use Rattle.tac_engine.specs.View.{state_of};
ghost use Rattle.tac_ir.specs.Code.{code_of};
ghost use Rattle.tac_ir.specs.Steady.{AllSteady};

use crate::end::RunEnd;
use crate::stepping::{Advance, make_step};
use c_typed::{Counts, Typed};
use lay_base::{List, NoMemory, Sink, Source};
use lower_tac::{lower, runs_are_same};
use source_start::{counts, no_counts, start};
use source_state::{Final, Moved, Room};
use source_values::Types;
use std::alloc::Global;
use tac_engine::Engine;
use tac_ir::{Routine, Tac};

/// What a run answers that is over so.
fn answer(end: Final, turns: u64) -> RunEnd
    ensures { result ≡ answer_of end turns }
{
    match end {
        Final::Ends(status) => RunEnd::Ends(status),
        Final::TurnLimit => RunEnd::TurnLimit(turns),
        Final::Undefined(kind, place) => RunEnd::Undefined(kind, place),
        Final::Room(kind, counted) => RunEnd::Room(kind, counted),
    }
}

/// The counts of a program of which nothing was done.
fn counts_at_start(alloc: Global, p: &Typed) -> Result<Counts, NoMemory>
    requires { StartsFit (program_data p.now) }
    ensures { IfOk result (λ counts. counts ≡ counts_of_none (program_data p.now)) }
{
    match no_counts(alloc, p) {
        Ok(none) => counts(alloc, p, &none),
        Err(fault) => Err(fault),
    }
}

/// What stands in an engine where no function runs yet.
fn no_routine(alloc: Global) -> Routine {
    Routine {
        ty: 0,
        locals: List::new(alloc),
        parameters: List::new(alloc),
        code: List::new(alloc),
        labels: List::new(alloc),
        texts: List::new(alloc),
    }
}

/// An engine for the code of a program, in the room with which a run starts.
fn engine_at_start<'a>(
    alloc: Global,
    types: &'a Types<'a>,
    code: &'a Tac,
    routine: &'a Routine,
    turns: u64,
) -> Result<Engine<'a>, NoMemory>
    requires code { code_of code.now ≡ lowered (program_data types.now) }
    requires starts { StartsFit (program_data types.now) }
    ensures { IfOk result (λ engine. IsAtStart types.entry.now turns (state_of engine)) }
{
    let none = no_counts(alloc, types.typed())?;
    let mut room = Room::new(alloc, turns, none);
    start(alloc, types, &mut room)?;
    Ok(Engine::new(alloc, types, code, routine, room))
}

/// The answer of a run that is over, with its counts.
fn finish(
    alloc: Global,
    types: &Types<'_>,
    kept: &mut Counts,
    engine: &Engine<'_>,
    end: Final,
    turns: u64,
) -> RunEnd
    requires { StartsFit (program_data types.now) }
    ensures { HasFinished (program_data types.now) (state_of engine.now).core.counts kept.new end turns result }
{
    match counts(alloc, types.typed(), &engine.room.counts) {
        Ok(counts) => {
            *kept = counts;
            answer(end, turns)
        }
        Err(want) => RunEnd::Memory(want),
    }
}

/// Calls `main`, and makes steps until the run is over.
fn run_engine<I: Source, O: Sink>(
    alloc: Global,
    types: &Types<'_>,
    kept: &mut Counts,
    engine: &mut Engine<'_>,
    input: &mut I,
    out: &mut O,
    turns: u64,
) -> RunEnd
    requires start { IsAtStart types.now turns (state_of engine.old) }
    requires starts { StartsFit (program_data types.now) }
    requires steady { AllSteady (lowered (program_data types.now)).routines }
    ensures { RunGives (program_data types.now) turns
        (streams (I.left input.old) (I.faults input.old) (O.written out.old) (O.faults out.old))
        (streams (I.left input.new) (I.faults input.new) (O.written out.new) (O.faults out.new)) kept.new result }
{
    // The run of the code is the run of the program.
    runs_are_same();
    match engine.start(alloc) {
        Ok(Moved::Goes) => {}
        Ok(Moved::Over(end)) => return finish(alloc, types, kept, engine, end, turns),
        // A call neither writes nor reads.
        Ok(Moved::Puts(_)) | Ok(Moved::Gets) => unreachable!(),
        Err(want) => return RunEnd::Memory(want),
    }
    loop {
        match make_step(alloc, engine, input, out) {
            Advance::Goes | Advance::Wrote(_) | Advance::Read => {}
            Advance::Over(end) => return finish(alloc, types, kept, engine, end, turns),
            Advance::ReadFails => return RunEnd::ReadFault,
            Advance::WriteFails(_) => return RunEnd::WriteFault,
            Advance::Memory(want) => return RunEnd::Memory(want),
        }
    }
}

/// Runs the code of a program.
fn run_code<'a, I: Source, O: Sink>(
    alloc: Global,
    types: &'a Types<'a>,
    code: &'a Tac,
    kept: &mut Counts,
    input: &mut I,
    out: &mut O,
    turns: u64,
) -> RunEnd
    requires code { code_of code.now ≡ lowered (program_data types.now) }
    requires starts { StartsFit (program_data types.now) }
    requires steady { AllSteady (lowered (program_data types.now)).routines }
    ensures { RunGives (program_data types.now) turns
        (streams (I.left input.old) (I.faults input.old) (O.written out.old) (O.faults out.old))
        (streams (I.left input.new) (I.faults input.new) (O.written out.new) (O.faults out.new)) kept.new result }
{
    let nothing = no_routine(alloc);
    match engine_at_start(alloc, types, code, &nothing, turns) {
        Ok(mut engine) => run_engine(alloc, types, kept, &mut engine, input, out, turns),
        Err(want) => RunEnd::Memory(want),
    }
}

/// Runs a program once. It is as `new` made it, or it has run and keeps its end and its counts.
#[derive(Drop)]
pub struct Runner<'a> {
    pub(crate) types: Types<'a>,
    pub(crate) counts: Counts,
    pub(crate) ended: Option<RunEnd>,
}

impl<'a> Runner<'a> {
    ghost use Rattle.std.specs.Prelude.{◌≡◌, ◌<◌, ◌≤◌, ◌^◌, IfOk, IsSome, Some};
    ghost use Rattle.c_typed.specs.declared.program.Typed.{Typed};
    ghost use Rattle.c_typed.specs.Programs.{program_data};
    ghost use Rattle.lower_tac.specs.Asked.{asked_by_functions};
    ghost use Rattle.source_run.specs.Fresh.{IsFresh, no_counts};
    ghost use Rattle.source_run.specs.RunGives.{RunGives};
    ghost use Rattle.source_run.specs.Starting.{IsSteadyProgram};
    ghost use Rattle.source_run.specs.Streams.{streams};
    ghost use Rattle.source_start.specs.Fits.{StartsFit};
    ghost use Rattle.source_values.specs.Rows.{TypesAreSmall};

    /// A runner of the program, with counts that are all 0.
    pub fn new(alloc: Global, p: &'a Typed) -> Result<Runner<'a>, NoMemory>
        requires starts { StartsFit (program_data p.now) }
        requires small { TypesAreSmall (program_data p.now) }
        ensures fresh { IfOk result (λ runner. IsFresh p.entry.now runner) }
        ensures zero { IfOk result (λ runner. runner.counts ≡ no_counts (program_data p.entry.now)) }
    {
        let counts = counts_at_start(alloc, p)?;
        match Types::of(alloc, p) {
            Ok(types) => Ok(Runner {
                types,
                counts,
                ended: None,
            }),
            Err(fault) => Err(fault),
        }
    }

    /// Runs the program from its start.
    fn go<I: Source, O: Sink>(
        &mut self,
        alloc: Global,
        input: &mut I,
        out: &mut O,
        turns: u64,
    ) -> RunEnd
        requires starts { StartsFit (program_data self.old.types) }
        requires steady { IsSteadyProgram (program_data self.old.types) }
        requires asked { asked_by_functions (program_data self.old.types).functions < 2 ^ 32 }
        ensures { RunGives (program_data self.old.types) turns
            (streams (I.left input.old) (I.faults input.old) (O.written out.old) (O.faults out.old))
            (streams (I.left input.new) (I.faults input.new) (O.written out.new) (O.faults out.new)) self.new.counts result }
    {
        self.types.are_small();
        match lower(alloc, self.types.typed()) {
            Ok(code) => run_code(
                alloc,
                &self.types,
                &code,
                &mut self.counts,
                input,
                out,
                turns,
            ),
            Err(want) => RunEnd::Memory(want),
        }
    }

    /// Runs the program until it ends, within the room of the interpreter, where at most so many turns begin; its input comes from
    /// `input`, and its output goes to `out`. A runner that has run answers the same end again and touches neither.
    pub fn run<I: Source, O: Sink>(
        &mut self,
        alloc: Global,
        input: &mut I,
        out: &mut O,
        turns: u64,
    ) -> RunEnd
        requires turns { turns ≤ 10 ^ 18 }
        requires starts { StartsFit (program_data self.old.types) }
        requires steady { IsSteadyProgram (program_data self.old.types) }
        requires asked { asked_by_functions (program_data self.old.types).functions < 2 ^ 32 }
        ensures ended { self.new.ended ≡ Some result }
        ensures again { IsSome self.old.ended → (self.new ≡ self.old) × (input.new ≡ input.old) × (out.new ≡ out.old) }
        ensures gives { (p : Typed) → IsFresh p self.old → RunGives (program_data p) turns
            (streams (I.left input.old) (I.faults input.old) (O.written out.old) (O.faults out.old))
            (streams (I.left input.new) (I.faults input.new) (O.written out.new) (O.faults out.new)) self.new.counts result }
    {
        if let Some(end) = self.ended {
            return end;
        }
        let end = self.go(alloc, input, out, turns);
        self.ended = Some(end);
        end
    }

    /// The counts of the run: of each function that the program defines, in the order of a profile.
    pub fn counts(&self) -> &Counts
        ensures { result.now ≡ self.now.counts }
    {
        &self.counts
    }
}
