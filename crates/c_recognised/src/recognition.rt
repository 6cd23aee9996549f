//! Recognition as a change of trees.

ghost use Rattle.std.specs.Prelude.{ℕ};
ghost use Rattle.c_annotated.specs.Views.{noted_of};
ghost use Rattle.c_erasure.specs.Noted.{Noted as ANoted};
ghost use Rattle.c_erasure.specs.Recognised.{recognising};
ghost use Rattle.c_erasure.specs.SizeOperands.{own_operand};

use crate::allocations::converted;
use crate::operands::size_operand;
use c_annotated::{Expression, Noted, Path};
use c_walks::Change;
use lay_base::{List, NoMemory, add};
use std::alloc::Global;

/// Recognises allocations of records and null pointers, and keeps where the size operands of allocations stand, as indexes into the text's tokens.
#[derive(Clone, Copy)]
pub struct Recognition {
    pub alloc: Global,
}

impl Change<Noted, List<usize>> for Recognition {
    type Error = NoMemory;

    ghost Seen = { ANoted };

    ghost seen = { noted_of };

    ghost Own = { ℕ };

    ghost change = { λ self. recognising };

    ghost own = { λ self. own_operand };

    ghost held = { λ places. places };

    fn keep(&self, places: &mut List<usize>, e: &Expression) -> Result<(), NoMemory> {
        match size_operand(&e.ty.ty, &e.node) {
            None => Ok(()),
            Some(place) => add(places, place),
        }
    }

    fn expression(&self, e: &mut Expression) -> Result<(), NoMemory> {
        converted(self.alloc, &mut e.node, &e.ty.ty)
    }

    fn path(&self, _p: &mut Path) {}
}
