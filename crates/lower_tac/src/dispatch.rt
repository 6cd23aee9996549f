//! Where a `switch` leads to (C99 6.8.4.2).

ghost use Rattle.std.specs.Prelude.{◌≡◌, map};
ghost use Rattle.c_typed.specs.Views.{arm_of, arms_of};
ghost use Rattle.lower_tac.specs.Statements.{cases_code, default_start, dispatch_code};
ghost use Rattle.lower_tac.specs.Writing.{Wrote};

use crate::writer::Writer;
use c_typed::Arm;
use tac_ir::{Operand, Step, Target};

/// The arm that is entered where no case fits, or else what is behind the arms.
pub fn default_start(behind: Target, arms: &[Arm], starts: &[Target]) -> Target
    ensures { result ≡ default_start behind (arms_of (map arm_of arms.now)) starts.now }
{
    let mut left = starts;
    for arm in arms {
        match left {
            [] => return behind,
            [start, more @ ..] => {
                if arm.is_default {
                    return *start;
                }
                left = more;
            }
        }
    }
    behind
}

#[tactic(auto, using(crate::proofs::FromBack::at_end, crate::proofs::FromBack::one_more))]
fn put_cases(w: &mut Writer, a: Operand, start: Target, cases: &[u32])
    ensures { Wrote w.old w.new (cases_code a start cases.now) }
{
    let mut left = cases.len();
    while left > 0 {
        left -= 1;
        w.put(Step::Case(cases[left], a, start));
    }
}

/// Jumps to the arms of the case values.
#[tactic(auto, using(crate::proofs::FromBack::none_left, crate::proofs::FromBack::one_more))]
pub fn put_dispatch(w: &mut Writer, a: Operand, arms: &[Arm], starts: &[Target])
    ensures { Wrote w.old w.new (dispatch_code a (arms_of (map arm_of arms.now)) starts.now) }
{
    let mut left = arms.len().min(starts.len());
    while left > 0 {
        left -= 1;
        put_cases(w, a, starts[left], arms[left].cases.as_slice());
    }
}
