//! `Block`: the names that a block declares, and the blocks around it.

ghost use Rattle.std.specs.Prelude.{◌≡◌, ◌∷◌, [], IfOk, Some};
ghost use Rattle.std.specs.Option.{option_copied, option_map};
ghost use Rattle.c_erasure.specs.Scopes.{innermost};
ghost use Rattle.c_annotated.specs.FileViews.{bound_of, entity_of};
ghost use Rattle.c_scopes.specs.Views.{blocks_of};

use crate::bound_names::BoundNames;
use c_annotated::{Bound, Entity};
use std::alloc::Global;

/// The names that a block declares, or the parameters of a declarator, and the blocks around it (C99 6.2.1).
#[derive(Drop)]
pub struct Block<'a> {
    pub names: BoundNames,
    pub outer: Option<&'a Block<'a>>,
}

/// What a name stands for in the innermost block that declares it.
pub fn innermost<'a>(block: &'a Block<'a>, x: &[u8]) -> Option<&'a Entity>
    ensures { option_map entity_of (option_copied result) ≡ innermost (blocks_of block.now) x.now }
{
    match block.names.first(x) {
        Some(b) => Some(&b.entity),
        None => match block.outer {
            Some(outer) => innermost(outer, x),
            None => None,
        },
    }
}
