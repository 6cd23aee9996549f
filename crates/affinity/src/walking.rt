//! The walk over the facts: accesses and their groups.

ghost use Rattle.std.specs.Prelude.{◌≡◌, ◌∷◌, [], None, length};
ghost use Rattle.c_facts.specs.declared.fact.Fact.TheVariants as F;
ghost use Rattle.affinity.specs.GroupWeights.{guess};
ghost use Rattle.affinity.specs.Walking.{Opens, Walks};

use crate::access::Access;
use c_facts::Fact;
use lay_base::{List, NoMemory, add};
use std::alloc::Global;

/// The groups around the open one, innermost last; the open one; the guessed weights of all; the accesses; and the want of memory for one of them.
#[derive(Drop)]
pub struct Walk {
    pub outer: List<usize>,
    pub inner: usize,
    pub weights: List<u64>,
    pub accesses: List<Access>,
    pub want: Option<NoMemory>,
}

/// The weight of a loop at a depth, or of a function, at depth 0.
fn guess(depth: usize) -> u64
    ensures { result ≡ guess depth }
{
    match depth {
        0 => 1,
        1 => 10,
        2 => 100,
        3 => 1_000,
        4 => 10_000,
        5 => 100_000,
        6 => 1_000_000,
        7 => 10_000_000,
        _ => 100_000_000,
    }
}

fn open(walk: &mut Walk, weight: u64)
    ensures { Opens walk.old walk.new weight }
{
    if walk.want.is_some() {
        return;
    }
    let number = walk.weights.len();
    if let Err(want) = add(&mut walk.weights, weight) {
        walk.want = Some(want);
        return;
    }
    walk.inner = number;
}

fn open_function(walk: &mut Walk)
    ensures { Walks walk.old walk.new (F.FunctionBegins ∷ []) }
{
    walk.outer.as_mut_vec().clear();
    open(walk, 1);
}

fn depth(walk: &Walk) -> usize
    ensures { result ≡ length walk.now.outer }
{
    walk.outer.len()
}

#[tactic(auto, using(crate::proofs::Walked::innermost))]
fn open_loop(walk: &mut Walk)
    ensures { Walks walk.old walk.new (F.LoopBegins ∷ []) }
{
    if let Err(want) = add(&mut walk.outer, walk.inner) {
        walk.want = Some(want);
        return;
    }
    let weight = guess(depth(walk));
    open(walk, weight);
}

#[tactic(auto, using(crate::proofs::Walked::innermost))]
fn close_loop(walk: &mut Walk)
    ensures { Walks walk.old walk.new (F.LoopEnds ∷ []) }
{
    match walk.outer.pop() {
        Some(group) => walk.inner = group,
        None => {}
    }
}

fn site(walk: &mut Walk, of: usize, field: usize, is_read: bool)
    ensures { Walks walk.old walk.new (F.Site of field is_read ∷ []) }
{
    if walk.want.is_some() {
        return;
    }
    let access = Access {
        of,
        field,
        is_read,
        group: walk.inner,
    };
    if let Err(want) = add(&mut walk.accesses, access) {
        walk.want = Some(want);
    }
}

fn step(walk: &mut Walk, fact: Fact)
    ensures { Walks walk.old walk.new (fact ∷ []) }
{
    match fact {
        Fact::FunctionBegins => open_function(walk),
        Fact::LoopBegins => open_loop(walk),
        Fact::LoopEnds => close_loop(walk),
        Fact::Site(of, field, is_read) => site(walk, of, field, is_read),
        _ => {}
    }
}

fn walk_all(walk: &mut Walk, facts: &[Fact])
    ensures { Walks walk.old walk.new facts.now }
{
    for fact in facts {
        step(walk, *fact);
    }
}

/// The whole walk.
pub fn walked(alloc: Global, facts: &[Fact]) -> Walk
    ensures { Walks (record { outer = []; inner = 0; weights = []; accesses = []; want = None }) result facts.now }
{
    let mut walk = Walk {
        outer: List::new(alloc),
        inner: 0,
        weights: List::new(alloc),
        accesses: List::new(alloc),
        want: None,
    };
    walk_all(&mut walk, facts);
    walk
}
