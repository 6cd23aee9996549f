//! Laws about the definitions.

ghost use Rattle.c_facts.specs.Groups.{GroupsMeetCounts, LoopsMeetCounts};

/// Where a profile fits a program, the facts of the program begin one group for each of its counts: in each function as many loops as are
/// counted there, and so many groups in all.
pub fn groups_meet_counts()
    ensures loops { LoopsMeetCounts }
    ensures all { GroupsMeetCounts }
{}
