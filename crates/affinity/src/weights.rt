//! The accesses of a program and the weights of their groups.

ghost use Rattle.std.specs.Prelude.{IfOk};
ghost use Rattle.std.specs.Option.{option_copied};
ghost use Rattle.affinity.specs.Weighing.{Weighs};

use crate::access::Access;
use crate::profile::counts_in;
use crate::walking::walked;
use c_facts::Fact;
use c_typed::Counts;
use lay_base::{List, NoMemory};
use std::alloc::Global;

/// The accesses of a program, the weight of each group, and whether a profile gave the weights.
#[derive(Drop)]
pub struct Weights {
    pub accesses: List<Access>,
    pub groups: List<u64>,
    pub by_profile: bool,
}

/// Weighs the groups of a program, of whose functions the facts are given, by a profile or by the depths of loops.
#[tactic(auto, using(crate::proofs::Walked::accesses_are, crate::proofs::Walked::guesses_are))]
pub fn weigh(alloc: Global, facts: &[Fact], counts: Option<&Counts>) -> Result<Weights, NoMemory>
    ensures { IfOk result (Weighs (option_copied counts.entry) facts.now) }
{
    let walk = walked(alloc, facts);
    if let Some(want) = walk.want {
        return Err(want);
    }
    match counts {
        None => Ok(Weights {
            accesses: walk.accesses,
            groups: walk.weights,
            by_profile: false,
        }),
        Some(c) => Ok(Weights {
            accesses: walk.accesses,
            groups: counts_in(alloc, c)?,
            by_profile: true,
        }),
    }
}
