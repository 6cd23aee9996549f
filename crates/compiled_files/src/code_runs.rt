//! What holds of runs of code, and of the room of light ones.

ghost use Rattle.compiled_files.specs.CodeRuns.Laws.{StepsLead, StepsAdd, RunsAdd, RunsPass, CoveredRunsPass, WeightsRise, CallsAreWithin};
ghost use Rattle.compiled_files.specs.CodeRuns.Laws.{EarlierFits, LightRunsFit, LightMomentsFit};
ghost use Rattle.compiled_files.specs.CodeRuns.Room.{CallHasRoom, AllocationHasRoom};

/// A step leads to one moment or to the end, whatever the steps behind it do, and so do the body of a function that was entered, a call and a return. The
/// world behind it is later: events were only added, and no block was taken away. Where the active functions were those of the calls, they are so behind it.
pub fn steps_lead()
    ensures { StepsLead }
{}

/// Where what follows only adds to the world, so do a step with what follows it, the body of a function, a call and a return.
pub fn steps_add()
    ensures { StepsAdd }
{}

/// So a run of any number of steps only adds.
pub fn runs_add()
    ensures { RunsAdd }
{}

/// After any number of steps a run of code is at one moment, at which the active functions are those of its calls, or it has ended.
pub fn runs_pass()
    ensures { RunsPass }
{}

/// Where a run of code comes to an end, that is later than each moment through which it passes.
pub fn covered_runs_pass()
    ensures { CoveredRunsPass }
{}

/// The weight of the heap and the greatest sum of the frames of active calls only rise while a trace grows, so a bound on them at the end is one now.
pub fn weights_rise()
    ensures { WeightsRise }
{}

/// Where a function is entered, its frame and those of the calls that are not over are at most the greatest sum.
pub fn calls_are_within()
    ensures { CallsAreWithin }
{}

/// What fits in the room at the end of a run has fitted before.
pub fn earlier_fits()
    ensures { EarlierFits }
{}

/// In a light run all that was asked for fits in the heap; and where each frame is within the weight of a call of its function, the frames of all active
/// calls fit in the stack with 16,384 bytes beside them.
pub fn light_runs_fit()
    ensures { LightRunsFit }
{}

/// So it is at each moment of a run of code that comes to the light run's end.
pub fn light_moments_fit()
    ensures { LightMomentsFit }
{}

/// Where a run fits, there is room below the stack pointer for the frame of a function that is entered.
pub fn calls_have_room()
    ensures { CallHasRoom }
{}

/// And there is room in the unused heap for an allocation, behind which the heap is used within the weight so far.
pub fn allocations_have_room()
    ensures { AllocationHasRoom }
{}
