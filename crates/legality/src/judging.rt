//! The verdicts on the records of a program.

ghost use Rattle.std.specs.Prelude.{◌≡◌, IfOk, None, fold, length, replicate};
ghost use Rattle.c_typed.specs.Programs.{program_data};
ghost use Rattle.legality.specs.Breaches.{breaches_by};
ghost use Rattle.legality.specs.Firsts.{marked};
ghost use Rattle.legality.specs.Verdicts.{AreVerdicts, verdict_of};

use crate::facts::mark_facts;
use crate::fields::mark_records;
use crate::holdings::holdings_of;
use crate::mentions::mark_mentions;
use crate::violation::Violation;
use c_facts::Fact;
use c_typed::Typed;
use lay_base::{List, NoMemory, filled};
use std::alloc::Global;

/// For each record of a program its first violation; none where it is legal.
#[derive(Drop)]
pub struct Verdicts {
    pub list: List<Option<Violation>>,
}

impl Verdicts {
    /// The verdict on the record with that number; none past the last.
    pub fn of(&self, number: usize) -> Option<Violation>
        ensures { result ≡ verdict_of self.now.list number }
    {
        match self.list.get(number) {
            None => None,
            Some(found) => *found,
        }
    }
}

fn nothing_found(alloc: Global, count: usize) -> Result<List<Option<Violation>>, NoMemory>
    ensures { IfOk result (λ firsts. firsts ≡ replicate count None) }
{
    let firsts = filled(alloc, None, count)?;
    Ok(List::of(firsts))
}

fn firsts(alloc: Global, p: &Typed, facts: &[Fact]) -> Result<List<Option<Violation>>, NoMemory>
    ensures { IfOk result (λ firsts. firsts ≡ fold marked (replicate (length p.now.records) None) (breaches_by (program_data p.now) facts.now)) }
{
    let mut list = nothing_found(alloc, p.records.len())?;
    let holdings = holdings_of(alloc, p.records.as_slice())?;
    let firsts = list.as_mut_vec().as_mut_slice();
    let types = p.types.as_slice();
    mark_facts(firsts, types, facts);
    mark_mentions(firsts, types, holdings.as_slice(), p.mentions.as_slice());
    mark_records(firsts, holdings.as_slice(), p.records.as_slice());
    Ok(list)
}

/// The verdicts on the records of a program, of whose functions the facts are given.
#[tactic(auto, using(crate::proofs::Kept::are_verdicts))]
pub fn judge(alloc: Global, p: &Typed, facts: &[Fact]) -> Result<Verdicts, NoMemory>
    ensures { IfOk result (λ v. AreVerdicts (breaches_by (program_data p.now) facts.now) (length p.now.records) v.list) }
{
    let list = firsts(alloc, p, facts)?;
    Ok(Verdicts { list })
}
