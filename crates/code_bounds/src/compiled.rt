//! What holds of compiled code.

ghost use Rattle.c_typed.specs.Programs.{program_data};
ghost use Rattle.code_bounds.specs.CompiledLaws.{CodeFits, CodeIsInRange, CodeIsWithin, DataFits, EntriesAreAsLong, FramesAreSmall, FramesAreWeighed};
ghost use Rattle.code_bounds.specs.CompiledLaws.{FunctionsAreAsLong, FunctionsArePaid, ProgramFits, ProgramIsSmall, ProgramsAreAsLong, StepsAreAsLong, TextsAreWithin, WordsArePaid};

use crate::lowered::{
    bytes_are_left, frames_are_within, frames_weigh_less, sizes_stand, temporaries_are_few,
    typed_functions_have_scopes,
};
use c_typed::Typed;
use c_well_typed::{
    programs_are_bounded, programs_are_within_limits, programs_have_typed_functions,
};
use tac_ir::Tac;

/// The code of a step is as long wherever things lie, in frames of the same form.
pub fn steps_are_as_long()
    ensures { StepsAreAsLong }
{}

/// So is the beginning of a function.
pub fn entries_are_as_long()
    ensures { EntriesAreAsLong }
{}

/// So a function takes as many words as it was laid out for.
pub fn functions_are_as_long()
    ensures { FunctionsAreAsLong }
{}

/// And the code of a program ends where its last function does.
pub fn programs_are_as_long()
    ensures { ProgramsAreAsLong }
{}

/// Each instruction of a program has a word: its registers and its numbers are in range.
pub fn code_is_in_range()
    ensures { CodeIsInRange }
{}

/// The words of a step are within its price in bytes.
pub fn words_are_paid()
    ensures { WordsArePaid }
{}

/// So are those of a function, with its beginning.
pub fn functions_are_paid()
    ensures { FunctionsArePaid }
{}

/// The code of a program within the bounds on nodes takes no more than 512 bytes for each node, with those of its start.
pub fn code_is_within()
    ensures { CodeIsWithin }
{
    bytes_are_left();
    functions_are_paid();
}

/// A frame has words for temporaries within the weight of the function's frame, and at most four bytes for each byte of its locals.
pub fn frames_are_small()
    ensures { FramesAreSmall }
{
    frames_are_within();
    sizes_stand();
    temporaries_are_few();
}

/// So no frame takes more than a call of its function weighs.
pub fn frames_are_weighed()
    ensures { FramesAreWeighed }
{
    frames_are_small();
}

/// The texts that stand in blocks of locals take no more bytes than those of the source.
pub fn texts_are_within()
    ensures { TextsAreWithin }
{}

/// So the code of a program of files is within the parts of the address space, as the code generator asks, where its texts lie below 2 ^ 31.
pub fn programs_are_small(p: &Typed, t: &Tac, first_text: u32)
    ensures { ProgramIsSmall (program_data p.now) t.now first_text }
{
    programs_have_typed_functions(p);
    programs_are_bounded();
    programs_are_within_limits();
    typed_functions_have_scopes();
    code_is_within();
    texts_are_within();
    frames_are_small();
    frames_are_within();
    frames_weigh_less();
}

/// Its code takes no more than 64 MiB, which is what the text segment of a file has beside the runtime.
pub fn code_fits(p: &Typed, t: &Tac)
    ensures { CodeFits (program_data p.now) t.now }
{
    programs_have_typed_functions(p);
    programs_are_bounded();
    programs_are_within_limits();
    typed_functions_have_scopes();
    code_is_within();
    programs_are_as_long();
}

/// Its objects and texts take no more than 16 MiB.
pub fn data_fits()
    ensures { DataFits }
{
    programs_are_within_limits();
}

/// So the image of a program of files is within the parts of the address space.
pub fn programs_fit(p: &Typed, t: &Tac)
    ensures { ProgramFits (program_data p.now) t.now }
{
    programs_have_typed_functions(p);
    programs_are_bounded();
    programs_are_within_limits();
    typed_functions_have_scopes();
    code_is_within();
    texts_are_within();
    frames_are_small();
    frames_are_within();
    frames_weigh_less();
    code_fits(p, t);
    data_fits();
}
