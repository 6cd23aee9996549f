//! The plan of a program.

ghost use Rattle.std.specs.Prelude.{◌≡◌, ◌<◌, ◌∷◌, [], IfOk, IsSomeAnd, length, slice_get};
ghost use Rattle.std.specs.Option.{option_copied};
ghost use Rattle.c_types.specs.Views.{records_of, types_of_fields};
ghost use Rattle.c_typed.specs.Programs.{program_data};
ghost use Rattle.c_typed.specs.RunCounts.Counting.{numbers_below};
ghost use Rattle.affinity.specs.FieldWeights.{field_weights};
ghost use Rattle.layout_plan.specs.declared.plans.Decision.TheVariants.{Refused};
ghost use Rattle.layout_plan.specs.Outlines.{outline, outlined};
ghost use Rattle.layout_plan.specs.PartSizes.{AreFieldsOf};
ghost use Rattle.layout_plan.specs.Peeling.{is_peelable};
ghost use Rattle.layout_plan.specs.Planning.{IsPlanned};
ghost use Rattle.layout_plan.specs.Plans.{outline_of, plan_of, record_plan};

use crate::outline::Outline;
use crate::outlining;
use crate::outlining::live;
use crate::parts::{is_too_big, outlines_are_small};
use crate::peeling::peelable;
use crate::placing::record_plan;
use crate::plans::{Decision, Plan, Planned, RecordPlan};
use affinity::{Weights, field_weights, weigh};
use c_facts::{Fact, facts};
use c_typed::{Counts, Typed};
use c_types::{Field, Records};
use lay_base::{List, NoMemory, add};
use legality::{Verdicts, Violation, judge};
use std::alloc::Global;

/// The outline of a record with one part.
fn in_one(alloc: Global, decision: Decision, fields: List<usize>) -> Result<Outline, NoMemory>
    ensures { IfOk result (λ o. o ≡ outline decision (fields ∷ [])) }
{
    let mut parts = List::new(alloc);
    add(&mut parts, fields)?;
    Ok(Outline { decision, parts })
}

/// The outline of a record that violates a test.
fn refused(alloc: Global, violation: Violation, count: usize) -> Result<Outline, NoMemory>
    ensures { IfOk result (λ o. o ≡ outline (Refused violation) (numbers_below count ∷ [])) }
{
    let mut fields = List::new(alloc);
    for field in 0..count {
        add(&mut fields, field)?;
    }
    in_one(alloc, Decision::Refused(violation), fields)
}

/// The outline of a record that violates none.
fn outlined(
    alloc: Global,
    records: &Records,
    own: &[Field],
    w: &Weights,
    number: usize,
    is_peelable: bool,
) -> Result<Outline, NoMemory>
    requires { AreFieldsOf records.now own.now }
    ensures { IfOk result (λ o. o ≡ outlined (records_of records.now) (types_of_fields own.now) (field_weights w.now number (length own.now)) w.now.by_profile is_peelable) }
{
    let count = own.len();
    let weights = field_weights(alloc, w, number, count)?;
    let fields = live(alloc, &weights, count)?;
    let outline = outlining::planned(
        alloc,
        records,
        own,
        &weights,
        w.by_profile,
        is_peelable,
        fields.as_slice(),
    )?;
    if is_too_big(records, own, outline.decision, outline.parts.as_slice()) {
        in_one(alloc, Decision::Reordered, fields)
    } else {
        Ok(outline)
    }
}

/// What becomes of a record, by its verdict.
fn outline_of(
    alloc: Global,
    records: &Records,
    own: &[Field],
    w: &Weights,
    number: usize,
    is_peelable: bool,
    verdict: Option<Violation>,
) -> Result<Outline, NoMemory>
    requires { AreFieldsOf records.now own.now }
    ensures { IfOk result (λ o. o ≡ outline_of (records_of records.now) w.now is_peelable verdict number (types_of_fields own.now)) }
{
    match verdict {
        Some(violation) => refused(alloc, violation, own.len()),
        None => outlined(alloc, records, own, w, number, is_peelable),
    }
}

/// The plan of the record of that number.
#[tactic(auto, using(crate::proofs::Small::outline_small))]
fn plan_of(
    alloc: Global,
    records: &Records,
    w: &Weights,
    number: usize,
    is_peelable: bool,
    verdict: Option<Violation>,
) -> Result<RecordPlan, NoMemory>
    requires { number < length records.now }
    ensures { IfOk result (λ it. IsSomeAnd (slice_get records.now number) (λ r. it ≡ record_plan (records_of records.now) (types_of_fields r.fields)
        (outline_of (records_of records.now) w.now is_peelable verdict number (types_of_fields r.fields)))) }
{
    let own = records.get(number).fields.as_slice();
    let outline = outline_of(alloc, records, own, w, number, is_peelable, verdict)?;
    outlines_are_small(records, own);
    record_plan(alloc, records, own, outline)
}

/// The plan of a program, of whose functions the facts are given, by the verdicts on its records and the weights of its groups.
pub fn plan(
    alloc: Global,
    p: &Typed,
    facts: &[Fact],
    v: &Verdicts,
    w: &Weights,
) -> Result<Plan, NoMemory>
    ensures { IfOk result (λ plan. plan.records ≡ plan_of (program_data p.now) facts.now v.now.list w.now) }
{
    let peelable = peelable(alloc, p, facts)?;
    let mut records = List::new(alloc);
    for number in 0..p.records.len() {
        let is_peelable = peelable.as_slice()[number];
        let plan = plan_of(alloc, &p.records, w, number, is_peelable, v.of(number))?;
        add(&mut records, plan)?;
    }
    Ok(Plan { records })
}

/// The plan of a program, by a profile or, where there is none, by the depths of loops; with the weights by which it was made.
pub fn planned(alloc: Global, p: &Typed, counts: Option<&Counts>) -> Result<Planned, NoMemory>
    ensures { IfOk result (IsPlanned (option_copied counts.entry) (program_data p.now)) }
{
    let facts = facts(alloc, p)?;
    let verdicts = judge(alloc, p, facts.as_slice())?;
    let weights = weigh(alloc, facts.as_slice(), counts)?;
    let plan = plan(alloc, p, facts.as_slice(), &verdicts, &weights)?;
    Ok(Planned { plan, weights })
}
