//! `Shared`: a value with several owners that contracts see as the value.

use std::alloc::{AllocFailed, Global};
use std::marker::Model;
use std::rc::Rc;

/// A value with several owners, which contracts see as the value. A type may reach itself through it.
#[derive(Drop)]
pub struct Shared<T> {
    inner: Rc<T>,
}

impl<T> Model for Shared<T> {
    ghost Value = { T };

    ghost coded = { T.code };

    ghost view = { λ it. it.inner.value };
}

impl<T> Shared<T> {
    ghost use Rattle.std.specs.Prelude.{◌≡◌, IfOk, MatchResult};

    /// The first owner of a value. Its one refusal is want of memory, which gives the value back.
    pub fn new(alloc: Global, value: T) -> Result<Shared<T>, T>
        ensures { MatchResult result (λ shared. shared ≡ value) (λ back. back ≡ value) }
    {
        match Rc::new(alloc, value) {
            Ok(inner) => Ok(Shared { inner }),
            Err(failed) => {
                let AllocFailed { value } = failed;
                Err(value)
            }
        }
    }

    /// The value, lent.
    pub fn get(&self) -> &T
        ensures { result.now ≡ self.now }
    {
        self.inner.as_ref()
    }
}

impl<T: Drop> Shared<T> {
    ghost use Rattle.std.specs.Prelude.{◌≡◌, IfSome};

    /// One more owner of the value, which takes no memory; none where there are as many as can be counted.
    pub fn again(&self) -> Option<Shared<T>>
        ensures { IfSome result (λ shared. shared ≡ self.now) }
    {
        match self.inner.clone() {
            Ok(inner) => Some(Shared { inner }),
            Err(_) => None,
        }
    }
}
