//! A law of accesses: it does nothing, and whoever calls it learns what it ensures.

ghost use Rattle.affinity.specs.Weighing.{AccessesAreWeighed};

use c_facts::groups_meet_counts;

/// Each access of a program is one of a group that has a weight.
#[tactic(auto, using(crate::proofs::Weighed::accesses_are_weighed))]
pub fn accesses_are_weighed()
    ensures { AccessesAreWeighed }
{
    groups_meet_counts();
}
