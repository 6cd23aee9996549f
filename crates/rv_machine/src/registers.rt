//! The registers x0 to x31 (RISC-V unprivileged specification, RV32I).

ghost use Rattle.std.specs.Prelude.{◌≡◌, ℕ, ◌<◌, List, replicate, slice_index};
ghost use Rattle.rv_isa.specs.Step.{with_register};

use std::marker::Model;

/// The words that the registers hold.
#[derive(Drop)]
pub(crate) struct Registers {
    words: [u32; 32],
}

impl Model for Registers {
    ghost Value = { List ℕ };

    ghost view = { λ r. r.words };

    ghost invariant = { λ r. slice_index r.words 0 ≡ 0 };
}

impl Registers {
    /// Registers that are all 0.
    pub(crate) fn new() -> Registers
        ensures { result ≡ replicate 32 0 }
    {
        Registers { words: [0; 32] }
    }

    /// What a register holds.
    #[inline(always)]
    pub(crate) fn get(&self, r: u8) -> u32
        requires { r < 32 }
        ensures { result ≡ slice_index self.now r }
    {
        self.words[r as usize]
    }

    /// The register gets the value. Register 0 stays 0: it is set again, which takes less than a test.
    #[inline(always)]
    #[tactic(auto, using(crate::proofs::FirstRegister::set_again))]
    pub(crate) fn put(&mut self, rd: u8, value: u32)
        requires { rd < 32 }
        ensures { self.new ≡ with_register self.old rd value }
    {
        self.words[rd as usize] = value;
        self.words[0] = 0;
    }
}
