//! The weights of the fields of one record. For each field only the record's own accesses are gone through, for two fields only the groups that have one.

ghost use Rattle.std.specs.Prelude.{◌≡◌, IfOk, length, map};
ghost use Rattle.c_typed.specs.RunCounts.Counting.{numbers_below};
ghost use Rattle.affinity.specs.FieldWeights.{field_weights, hotnesses};
ghost use Rattle.affinity.specs.Sums.{affinity, hotness, is_read};
ghost use Rattle.affinity.specs.Touched.{common, kept, own, touched};

use crate::access::Access;
use crate::fields::FieldWeights;
use crate::sums::{common, hotness, is_marked, is_read, touched, touched_at_all};
use crate::weights::Weights;
use lay_base::{List, NoMemory, add};
use std::alloc::Global;

fn own(alloc: Global, of: usize, all: &[Access]) -> Result<List<Access>, NoMemory>
    ensures { IfOk result (λ those. those ≡ own of all.now) }
{
    let mut those = List::new(alloc);
    for a in all {
        if a.of == of {
            add(&mut those, *a)?;
        }
    }
    Ok(those)
}

/// What stands at the groups that have a mark.
fn kept<T: Copy>(alloc: Global, marks: &[bool], items: &[T]) -> Result<List<T>, NoMemory>
    ensures { IfOk result (λ those. those ≡ kept 0 marks.now items.now) }
{
    let mut those = List::new(alloc);
    for (group, item) in items.iter().enumerate() {
        if is_marked(marks, group) {
            add(&mut those, *item)?;
        }
    }
    Ok(those)
}

fn reads(alloc: Global, of: usize, count: usize, all: &List<Access>) -> Result<List<bool>, NoMemory>
    ensures { IfOk result (λ reads. reads ≡ map (λ f. is_read of f all.now) (numbers_below count)) }
{
    let mut reads = List::new(alloc);
    for f in 0..count {
        add(&mut reads, is_read(of, f, all.as_slice()))?;
    }
    Ok(reads)
}

fn sums(
    alloc: Global,
    groups: &List<u64>,
    of: usize,
    count: usize,
    all: &List<Access>,
) -> Result<List<u128>, NoMemory>
    ensures { IfOk result (λ sums. sums ≡ map (λ f. hotness groups.now of f all.now) (numbers_below count)) }
{
    let mut sums = List::new(alloc);
    for f in 0..count {
        add(&mut sums, hotness(groups.as_slice(), of, f, all.as_slice()))?;
    }
    Ok(sums)
}

/// For each field, which of the groups with a mark access it.
fn columns(
    alloc: Global,
    marks: &List<bool>,
    of: usize,
    count: usize,
    all: &List<Access>,
) -> Result<List<List<bool>>, NoMemory>
    ensures { IfOk result (λ columns. columns ≡
        map (λ f. kept 0 marks.now (touched of f (length marks.now) all.now)) (numbers_below count)) }
{
    let mut columns = List::new(alloc);
    for f in 0..count {
        let column = touched(alloc, of, f, marks.len(), all.as_slice())?;
        let those = kept(alloc, marks.as_slice(), column.as_slice())?;
        add(&mut columns, those)?;
    }
    Ok(columns)
}

fn row(
    alloc: Global,
    weights: &List<u64>,
    one: &List<bool>,
    columns: &List<List<bool>>,
) -> Result<List<u128>, NoMemory>
    ensures { IfOk result (λ sums. sums ≡ map (λ other. common 0 weights.now one.now other) columns.now) }
{
    let mut sums = List::new(alloc);
    for other in columns.as_slice() {
        let sum = common(weights.as_slice(), one.as_slice(), other.as_slice());
        add(&mut sums, sum)?;
    }
    Ok(sums)
}

fn rows(
    alloc: Global,
    weights: &List<u64>,
    columns: &List<List<bool>>,
) -> Result<List<List<u128>>, NoMemory>
    ensures { IfOk result (λ rows. rows ≡ map (λ one. map (λ other. common 0 weights.now one other) columns.now) columns.now) }
{
    let mut rows = List::new(alloc);
    for one in columns.as_slice() {
        let sums = row(alloc, weights, one, columns)?;
        add(&mut rows, sums)?;
    }
    Ok(rows)
}

/// Of each two fields: the sum over the groups that have an access at all, of which there are few.
fn affinities(
    alloc: Global,
    groups: &List<u64>,
    of: usize,
    count: usize,
    all: &List<Access>,
) -> Result<List<List<u128>>, NoMemory>
    ensures { IfOk result (λ rows. rows ≡
        map (λ f. map (λ g. affinity groups.now of f g all.now) (numbers_below count)) (numbers_below count)) }
{
    let marks = touched_at_all(alloc, groups.len(), all.as_slice())?;
    let weights = kept(alloc, marks.as_slice(), groups.as_slice())?;
    let columns = columns(alloc, &marks, of, count, all)?;
    rows(alloc, &weights, &columns)
}

/// How often each of the first fields of a record is accessed.
pub fn hotnesses(
    alloc: Global,
    w: &Weights,
    of: usize,
    count: usize,
) -> Result<List<u128>, NoMemory>
    ensures { IfOk result (λ all. all ≡ hotnesses w.now of count) }
{
    let all = own(alloc, of, w.accesses.as_slice())?;
    sums(alloc, &w.groups, of, count, &all)
}

/// What the weights say of the first fields of a record.
pub fn field_weights(
    alloc: Global,
    w: &Weights,
    of: usize,
    count: usize,
) -> Result<FieldWeights, NoMemory>
    ensures { IfOk result (λ it. it ≡ field_weights w.now of count) }
{
    let all = own(alloc, of, w.accesses.as_slice())?;
    let read = reads(alloc, of, count, &all)?;
    let hotness = sums(alloc, &w.groups, of, count, &all)?;
    let affinity = affinities(alloc, &w.groups, of, count, &all)?;
    Ok(FieldWeights {
        read,
        hotness,
        affinity,
    })
}
