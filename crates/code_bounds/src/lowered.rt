//! What holds of lowered code.

ghost use Rattle.code_bounds.specs.LoweredLaws.{AllJumpsLeadOn, BytesAreWithin, CodeIsPaid, FramesAreWithin, JumpsStand, KindsStand, LabelsAreFew, ProgramsAreWithin};
ghost use Rattle.code_bounds.specs.LoweredLaws.{BytesAreLeft, FewAreAsked, SizesStand, FramesWeighLess};
ghost use Rattle.code_bounds.specs.LoweredLaws.{ProgramsHaveFewSteps, StepsAreFew, TemporariesAreFew, TypedHaveScopes};

use c_well_typed::{programs_are_bounded, programs_are_within_limits};

/// Each jump leads to a step of its function. The last step of a function with a body is a return, so something is left at each place to which a jump
/// leads, and each label that is used is set.
pub fn jumps_stand()
    ensures { JumpsStand }
{}

/// Each jump leads on, or back to where the body of a loop begins, which takes a turn: so between two turns a function takes no more steps than it has.
pub fn jumps_lead_on()
    ensures { AllJumpsLeadOn }
{}

/// A step writes temporaries and locals that are kept by name, and no local that lies in a block; each block of which a step speaks is that of a local.
pub fn kinds_stand()
    ensures { KindsStand }
{}

/// Each block begins with the size of its local.
pub fn sizes_stand()
    ensures { SizesStand }
{}

/// A function has no more labels than steps.
pub fn labels_are_few()
    ensures { LabelsAreFew }
{}

/// What is in a function pays for its code: whatever the prices of steps are, the code costs no more than the function weighs by the numbers of `paid`.
pub fn code_is_paid()
    ensures { CodeIsPaid }
{}

/// So the code of a function has no more steps than the function weighs where each costs one.
pub fn steps_are_few()
    ensures { StepsAreFew }
{}

/// At up to 48 bytes for a step, 96 for a wide one, 128 for an argument and 256 for a parameter, the code of a function is within its weight in bytes.
pub fn bytes_are_within()
    ensures { BytesAreWithin }
{}

/// So is the code of a program.
pub fn programs_are_within()
    ensures { ProgramsAreWithin }
{}

/// Where `main` is there, 512 bytes of the program's weight are left.
pub fn bytes_are_left()
    ensures { BytesAreLeft }
{}

/// A program within the bounds on nodes, as each program of files is, has at most 32 steps for three nodes.
pub fn programs_have_few_steps()
    ensures { ProgramsHaveFewSteps }
{}

/// The temporaries that code writes or reads are the locals, and no more than the function weighs by the numbers of `temporaries`.
pub fn temporaries_are_few()
    ensures { TemporariesAreFew }
{}

/// Four bytes for each temporary are within the weight of the function's frame, and 100 bytes of that weight are left.
pub fn frames_are_within()
    ensures { FramesAreWithin }
{}

/// A function weighs eight bytes of code for each byte of its frame at least.
pub fn frames_weigh_less()
    ensures { FramesWeighLess }
{}

/// In the functions of a well typed program the locals stand in the scopes that declare them.
pub fn typed_functions_have_scopes()
    ensures { TypedHaveScopes }
{}

/// The code of a program of files asks for fewer temporaries and loops than 32 bits count, so none of them is without a number.
pub fn few_are_asked()
    ensures { FewAreAsked }
{
    programs_are_bounded();
    programs_are_within_limits();
}
