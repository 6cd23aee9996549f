//! Loads and stores.

ghost use Rattle.std.specs.Prelude.{◌≡◌};
ghost use Rattle.block_memory.specs.Accesses.{load_number, load_pointer, store_number, store_pointer};
ghost use Rattle.block_memory.specs.Stores.{Does};
ghost use Rattle.block_memory.specs.View.{memory_of};

use crate::store::Store;
use c_types::{IntKind, width};
use lay_base::UndefinedKind;
use memory_words::Ptr;

impl Store {
    /// Loads a number of a type, as the word that stands for it in two's complement.
    #[tactic(auto, using(crate::proofs::Reached::load_number_ok, crate::proofs::Reached::load_number_err))]
    pub fn load_int(&self, p: Ptr, kind: IntKind) -> Result<u32, UndefinedKind>
        ensures { result ≡ load_number (memory_of self.now) p kind }
    {
        let width = width(kind);
        match self.place(p, width, width, false) {
            Ok(place) => self.arena.number(place.cell, kind),
            Err(fault) => Err(fault),
        }
    }

    /// Loads a pointer of a type.
    #[tactic(auto, using(crate::proofs::Reached::load_pointer_ok, crate::proofs::Reached::load_pointer_err))]
    pub fn load_pointer(&self, p: Ptr, type_number: usize) -> Result<Ptr, UndefinedKind>
        ensures { result ≡ load_pointer (memory_of self.now) p type_number }
    {
        match self.place(p, 4, 4, false) {
            Ok(place) => self.arena.pointer(place.cell, type_number),
            Err(fault) => Err(fault),
        }
    }

    /// Stores the low bytes of a word as a number of a type.
    pub fn store_int(&mut self, p: Ptr, kind: IntKind, v: u32) -> Result<(), UndefinedKind>
        ensures { Does result (memory_of self.old) (memory_of self.new) (store_number (memory_of self.old) p kind v) }
    {
        let width = width(kind);
        match self.place(p, width, width, true) {
            Ok(place) => {
                self.arena.put_number(place.cell, kind, v);
                Ok(())
            }
            Err(fault) => Err(fault),
        }
    }

    /// Stores a pointer of a type.
    pub fn store_pointer(&mut self, p: Ptr, type_number: usize, q: Ptr) -> Result<(), UndefinedKind>
        ensures { Does result (memory_of self.old) (memory_of self.new) (store_pointer (memory_of self.old) p type_number q) }
    {
        match self.place(p, 4, 4, true) {
            Ok(place) => {
                self.arena.put_pointer(place.cell, type_number, q);
                Ok(())
            }
            Err(fault) => Err(fault),
        }
    }
}
