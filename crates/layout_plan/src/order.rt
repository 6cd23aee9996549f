//! The order of the fields of a part, and groups of fields that are accessed together.

ghost use Rattle.std.specs.Prelude.{◌≡◌, IfOk, OnOk};
ghost use Rattle.layout_plan.specs.Joining.{group_of};
ghost use Rattle.layout_plan.specs.Order.{groups, hotter, hottest, is_with, joined, nearer, nearest, others, placed};

use affinity::FieldWeights;
use lay_base::{List, NoMemory, add};
use std::alloc::Global;

fn hotter(w: &FieldWeights, f: usize, g: usize) -> usize
    ensures { result ≡ hotter w.now f g }
{
    if w.hotness(f) < w.hotness(g) { g } else { f }
}

fn hottest(w: &FieldWeights, fields: &[usize]) -> Option<usize>
    ensures { result ≡ hottest w.now fields.now }
{
    let Some(first) = fields.first() else {
        return None;
    };
    let mut best = *first;
    for f in &fields[1..] {
        best = hotter(w, best, *f);
    }
    Some(best)
}

fn others(alloc: Global, f: usize, fields: &[usize]) -> Result<List<usize>, NoMemory>
    ensures { IfOk result (λ r. r ≡ others f fields.now) }
{
    let mut rest = List::new(alloc);
    for g in fields {
        if *g != f {
            add(&mut rest, *g)?;
        }
    }
    Ok(rest)
}

fn nearer(w: &FieldWeights, last: usize, f: usize, g: usize) -> usize
    ensures { result ≡ nearer w.now last f g }
{
    let old = w.affinity(last, f);
    let new = w.affinity(last, g);
    if old < new {
        g
    } else if new < old {
        f
    } else {
        hotter(w, f, g)
    }
}

fn nearest(w: &FieldWeights, last: usize, fields: &[usize]) -> Option<usize>
    ensures { result ≡ nearest w.now last fields.now }
{
    let Some(first) = fields.first() else {
        return None;
    };
    let mut best = *first;
    for f in &fields[1..] {
        best = nearer(w, last, best, *f);
    }
    Some(best)
}

/// The fields of a part as they are placed.
#[tactic(auto, using(crate::proofs::Follows::one_more, crate::proofs::Follows::none_left))]
pub fn placed(alloc: Global, w: &FieldWeights, fields: List<usize>) -> Result<List<usize>, NoMemory>
    ensures { IfOk result (λ r. r ≡ placed w.now fields) }
{
    let mut done = List::new(alloc);
    let mut next = hottest(w, fields.as_slice());
    let mut left = fields.len();
    let mut rest = fields;
    while left > 0 {
        if let Some(f) = next {
            add(&mut done, f)?;
            rest = others(alloc, f, rest.as_slice())?;
            next = nearest(w, f, rest.as_slice());
        }
        left -= 1;
    }
    Ok(done)
}

fn is_with(w: &FieldWeights, group: &[usize], f: usize) -> bool
    ensures { result ≡ is_with w.now group.now f }
{
    match group.first() {
        None => true,
        Some(leader) => {
            let together = w.affinity(*leader, f);
            // No twice, which could pass the greatest number.
            w.hotness(*leader)
                .min(w.hotness(f))
                .saturating_sub(together)
                <= together
        }
    }
}

fn group_of(w: &FieldWeights, groups: &[List<usize>], f: usize) -> usize
    ensures { result ≡ group_of w.now 8 groups.now f }
{
    for (number, group) in groups.iter().enumerate() {
        if number == 7 || is_with(w, group.as_slice(), f) {
            return number;
        }
    }
    groups.len()
}

fn join(
    alloc: Global,
    w: &FieldWeights,
    groups: &mut List<List<usize>>,
    f: usize,
) -> Result<(), NoMemory>
    ensures { OnOk result (groups.new ≡ joined w.now 8 groups.old f) }
{
    let number = group_of(w, groups.as_slice(), f);
    if number < groups.len() {
        add(&mut groups.as_mut_vec()[number], f)
    } else {
        let mut group = List::new(alloc);
        add(&mut group, f)?;
        add(groups, group)
    }
}

/// The fields of a record in groups, each of which has its fields in their order here.
pub fn groups(
    alloc: Global,
    w: &FieldWeights,
    fields: &[usize],
) -> Result<List<List<usize>>, NoMemory>
    ensures { IfOk result (λ r. r ≡ groups w.now fields.now) }
{
    let mut groups = List::new(alloc);
    for f in fields {
        join(alloc, w, &mut groups, *f)?;
    }
    Ok(groups)
}
