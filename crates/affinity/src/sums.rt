//! Sums over accesses, marks of groups, and the sum over the groups with two marks.

ghost use Rattle.std.specs.Prelude.{◌≡◌, ◌&&◌, if◌then◌else◌, IfOk, false, fold, replicate, slice_set, true};
ghost use Rattle.affinity.specs.GroupWeights.{weight_of};
ghost use Rattle.affinity.specs.Sums.{hotness, is_read};
ghost use Rattle.affinity.specs.Touched.{common, is_marked, marked, marked_group, touched, touched_at_all};

use crate::access::{Access, is_to};
use lay_base::{List, NoMemory, filled};
use std::alloc::Global;

/// How often a field is accessed, by the weights of groups.
pub fn hotness(groups: &[u64], of: usize, field: usize, all: &[Access]) -> u128
    ensures { result ≡ hotness groups.now of field all.now }
{
    let mut sum: u128 = 0;
    for a in all {
        if is_to(*a, of, field) {
            sum += u128::from(weight_of(groups, a.group));
        }
    }
    sum
}

/// Whether the value of a field is ever loaded.
pub fn is_read(of: usize, field: usize, all: &[Access]) -> bool
    ensures { result ≡ is_read of field all.now }
{
    for a in all {
        if is_to(*a, of, field) && a.is_read {
            return true;
        }
    }
    false
}

/// The weight of a group, 0 where there is none.
fn weight_of(weights: &[u64], group: usize) -> u64
    ensures { result ≡ weight_of weights.now group }
{
    match weights.get(group) {
        Some(weight) => *weight,
        None => 0,
    }
}

fn mark_group(marks: &mut [bool], group: usize)
    ensures { marks.new ≡ slice_set marks.old group true }
{
    if group < marks.len() {
        marks[group] = true;
    }
}

fn mark(marks: &mut [bool], of: usize, field: usize, a: Access)
    ensures { marks.new ≡ marked of field marks.old a }
{
    if is_to(a, of, field) {
        mark_group(marks, a.group);
    }
}

fn mark_all(marks: &mut [bool], of: usize, field: usize, all: &[Access])
    ensures { marks.new ≡ fold (marked of field) marks.old all.now }
{
    for a in all {
        mark(marks, of, field, *a);
    }
}

fn mark_groups(marks: &mut [bool], all: &[Access])
    ensures { marks.new ≡ fold marked_group marks.old all.now }
{
    for a in all {
        mark_group(marks, a.group);
    }
}

fn unmarked(alloc: Global, groups: usize) -> Result<List<bool>, NoMemory>
    ensures { IfOk result (λ marks. marks ≡ replicate groups false) }
{
    let marks = filled(alloc, false, groups)?;
    Ok(List::of(marks))
}

/// Which groups access a field.
pub fn touched(
    alloc: Global,
    of: usize,
    field: usize,
    groups: usize,
    all: &[Access],
) -> Result<List<bool>, NoMemory>
    ensures { IfOk result (λ marks. marks ≡ touched of field groups all.now) }
{
    let mut marks = unmarked(alloc, groups)?;
    mark_all(marks.as_mut_vec().as_mut_slice(), of, field, all);
    Ok(marks)
}

/// Which groups are those of some access.
pub fn touched_at_all(alloc: Global, groups: usize, all: &[Access]) -> Result<List<bool>, NoMemory>
    ensures { IfOk result (λ marks. marks ≡ touched_at_all groups all.now) }
{
    let mut marks = unmarked(alloc, groups)?;
    mark_groups(marks.as_mut_vec().as_mut_slice(), all);
    Ok(marks)
}

pub fn is_marked(marks: &[bool], group: usize) -> bool
    ensures { result ≡ is_marked marks.now group }
{
    match marks.get(group) {
        Some(mark) => *mark,
        None => false,
    }
}

/// The weight of a group if it has both marks, else 0.
fn common_weight(weight: u64, ones: &[bool], others: &[bool], group: usize) -> u64
    ensures { result ≡ (if is_marked ones.now group && is_marked others.now group then weight else 0) }
{
    if is_marked(ones, group) && is_marked(others, group) {
        weight
    } else {
        0
    }
}

/// The sum over the groups that have both marks.
pub fn common(weights: &[u64], ones: &[bool], others: &[bool]) -> u128
    ensures { result ≡ common 0 weights.now ones.now others.now }
{
    let mut sum: u128 = 0;
    for (group, weight) in weights.iter().enumerate() {
        sum += u128::from(common_weight(*weight, ones, others, group));
    }
    sum
}
