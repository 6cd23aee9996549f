//! What each number becomes.

ghost use Rattle.std.specs.Prelude.{◌≡◌, ℕ, []};
ghost use Rattle.c_numbers.specs.NewNumbers.Numbers.{number_at, renaming_of};
ghost use Rattle.c_typed.specs.Mapped.{renamed};

use c_typed::{Expression, ExpressionNode, Path, PathNode};
use c_walks::Change;
use lay_base::List;
use std::convert::Infallible;

/// What the numbers from 0 on become, and what all others become.
#[derive(Drop)]
pub struct Numbers {
    pub entries: List<usize>,
    pub otherwise: usize,
}

/// What the numbers of a tree become. Records past those that a unit completes are among its records.
#[derive(Drop)]
pub struct Renumbering {
    pub types: Numbers,
    pub objects: Numbers,
    pub functions: Numbers,
    pub records: Numbers,
}

impl Numbers {
    /// What a number becomes.
    pub fn at(&self, number: usize) -> usize
        ensures { result ≡ number_at self.now number }
    {
        match self.entries.get(number) {
            Some(entry) => *entry,
            None => self.otherwise,
        }
    }
}

/// Nothing is kept of a tree.
impl Change<usize, ()> for Renumbering {
    type Error = Infallible;

    ghost Seen = { ℕ };

    ghost seen = { λ number. number };

    ghost Own = { ℕ };

    ghost change = { λ to. renamed (renaming_of to) };

    ghost own = { λ to e. [] };

    ghost held = { λ kept. [] };

    fn keep(&self, _kept: &mut (), _e: &Expression) -> Result<(), Infallible> {
        Ok(())
    }

    fn expression(&self, e: &mut Expression) -> Result<(), Infallible> {
        e.ty = self.types.at(e.ty);
        match &mut e.node {
            ExpressionNode::FunctionName(f) => *f = self.functions.at(*f),
            ExpressionNode::Call(f, _) => *f = self.functions.at(*f),
            ExpressionNode::Allocate(r, _, _) => *r = self.records.at(*r),
            _ => {}
        }
        Ok(())
    }

    fn path(&self, p: &mut Path) {
        p.ty = self.types.at(p.ty);
        match &mut p.node {
            PathNode::Object(n) => *n = self.objects.at(*n),
            PathNode::Member(_, r, _) => *r = self.records.at(*r),
            _ => {}
        }
    }
}
