//! Facts as they are collected.

ghost use Rattle.std.specs.Prelude.{◌∷◌, [], if◌then◌else◌};
ghost use Rattle.c_facts.specs.Puts.{Puts};

use crate::fact::Fact;
use lay_base::{List, NoMemory, add};

/// Facts, and the want of memory for one of them.
#[derive(Drop)]
pub struct Found {
    pub list: List<Fact>,
    pub want: Option<NoMemory>,
}

/// Adds a fact, unless memory was out.
pub fn put(found: &mut Found, fact: Fact)
    ensures { Puts found.old found.new (fact ∷ []) }
{
    if found.want.is_some() {
        return;
    }
    if let Err(want) = add(&mut found.list, fact) {
        found.want = Some(want);
    }
}

/// Adds a fact unless a condition holds.
pub fn put_unless(found: &mut Found, is_left_out: bool, fact: Fact)
    ensures { Puts found.old found.new (if is_left_out then [] else fact ∷ []) }
{
    if !is_left_out {
        put(found, fact);
    }
}
