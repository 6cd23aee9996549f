//! Locals, by their numbers.

ghost use Rattle.std.specs.Prelude.{◌≡◌, ◌<◌, OnSome, slice_get};
ghost use Rattle.std.specs.Option.{option_copied};
ghost use Rattle.lower_tac.specs.Expressions.{address_of_local, named_local};
ghost use Rattle.lower_tac.specs.Grounds.{locals_in, program_in};

use crate::ground::Ground;
use c_typed::Local;
use lay_base::{Place, UndefinedKind};
use tac_ir::Operand;

impl<'a> Ground<'a> {
    /// The local of that number, where there is one; parameters come first.
    #[tactic(auto, using(crate::proofs::TwoLists::within_first, crate::proofs::TwoLists::behind_first, std::proofs::lemmas::Option::slice_get_past))]
    pub fn local(&self, x: usize) -> Option<&'a Local>
        ensures is { option_copied result ≡ slice_get (locals_in self.now) x }
        ensures low { OnSome result (x < self.now.room) }
    {
        let parameters = self.function.parameters.as_slice();
        if x >= self.room as usize {
            None
        } else if x < parameters.len() {
            parameters.get(x)
        } else {
            self.function.locals.get(x - parameters.len())
        }
    }

    /// A local that is kept by its name.
    pub fn named(&self, x: usize) -> Option<u32>
        ensures { result ≡ named_local (program_in self.now) (locals_in self.now) x }
    {
        match self.local(x) {
            None => None,
            Some(local) => { if local.block { None } else { Some(x as u32) } }
        }
    }

    /// The address of a local that lies in a block.
    pub fn address_of_local(&self, at: Place, x: usize) -> Option<Operand>
        ensures { result ≡ address_of_local at x (slice_get (locals_in self.now) x) }
    {
        match self.local(x) {
            None => None,
            Some(local) => {
                if local.block {
                    Some(Operand::Temp(UndefinedKind::Dead, x as u32, at))
                } else {
                    None
                }
            }
        }
    }
}
