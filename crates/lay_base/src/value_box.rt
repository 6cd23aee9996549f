//! `Boxed`: a box that contracts see as its value.

use std::alloc::{AllocFailed, Global};
use std::marker::Model;

/// A box that contracts see as its value. A type may reach itself through it.
#[derive(Drop)]
pub struct Boxed<T> {
    inner: Box<T>,
}

impl<T> Model for Boxed<T> {
    ghost Value = { T };

    ghost coded = { T.code };

    ghost view = { λ b. b.inner.value };
}

impl<T> Boxed<T> {
    ghost use Rattle.std.specs.Prelude.{◌≡◌, MatchResult};
    ghost use Rattle.std.specs.Borrow.{Lends, sem};
    ghost use Rattle.lay_base.specs.contracts.value_box.Boxed.{the_row};

    /// Boxes a value. Its one refusal is want of memory, which gives the value back.
    pub fn new(alloc: Global, value: T) -> Result<Boxed<T>, T>
        ensures { MatchResult result (λ boxed. boxed ≡ value) (λ back. back ≡ value) }
    {
        match Box::new(alloc, value) {
            Ok(inner) => Ok(Boxed { inner }),
            Err(failed) => {
                let AllocFailed { value } = failed;
                Err(value)
            }
        }
    }

    /// The value, lent.
    pub fn get(&self) -> &T
        ensures { result.now ≡ self.now }
    {
        &self.inner
    }

    /// The value, lent to be changed.
    pub fn get_mut(&mut self) -> &mut T
        ensures* lends { sem 𝓛 (Lends (the_row T.row) T.row self.entry result (λ w. w)) }
        ensures value { result.now ≡ self.old }
    {
        &mut self.inner
    }

    /// The value, out of its box.
    pub fn into_inner(self) -> T
        ensures { result ≡ self }
    {
        let Boxed { inner } = self;
        Box::into_inner(inner)
    }
}
