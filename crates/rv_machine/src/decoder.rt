//! The instructions of words, each decoded once.

ghost use Rattle.std.specs.Prelude.{◌≡◌, ◌/◌, ◌%◌, ◌^◌, ◌<◌, Some, length};
ghost use Rattle.rv_isa.specs.Decoding.{decoded};

use lay_base::{NoMemory, filled};
use rv_isa::{Inst, decode};
use std::alloc::Global;

/// How many words are kept.
const ENTRIES: u32 = 65536;

/// The place of the entry for an address.
#[inline(always)]
fn place_of(pc: u32) -> usize
    ensures { result ≡ pc / 4 % 65536 }
{
    (pc / 4 % ENTRIES) as usize
}

/// A word with its instruction, and the address at which it stays; or, where memory may change, an
/// address that has another place among the entries.
#[derive(Clone, Copy)]
struct Entry {
    at: u32,
    word: u32,
    inst: Inst,
    ghost read: { decoded word ≡ Some inst },
    ghost fits: { word < 2 ^ 32 },
}

/// An instruction that does nothing.
fn nothing_at(at: u32) -> Entry
    ensures { result.at ≡ at }
{
    Entry {
        at,
        word: 0x13,
        inst: Inst::Addi {
            rd: 0,
            rs1: 0,
            imm: 0,
        },
    }
}

/// The last word that was fetched at each address, for as many addresses as there are entries. Where
/// memory may change after it, an entry serves only where the word that is fetched is its own.
#[derive(Drop)]
pub(crate) struct Decoder {
    entries: Vec<Entry>,
    ghost full: { length entries.items ≡ 65536 },
}

impl Decoder {
    ghost use Rattle.std.specs.Prelude.{◌≡◌, ℕ, IfOk, MatchBool, None, Some, true};
    ghost use Rattle.rv_isa.specs.Decoding.{decoded};
    ghost use Rattle.rv_isa.specs.Encoding.{IsInRange};
    ghost use Rattle.rv_machine.specs.declared.memory.Memory.{Memory};
    ghost use Rattle.rv_machine.specs.Keeping.{AllStay, Keeps, Lasts, Stays};

    /// A decoder that has seen no word but that of an instruction that does nothing, at no address.
    pub(crate) fn new(alloc: Global) -> Result<Decoder, NoMemory>
        ensures { IfOk result (λ decoder. (memory : Memory) → AllStay memory decoder) }
    {
        let mut entries = filled(alloc, nothing_at(4), ENTRIES as usize)?;
        entries[1] = nothing_at(0);
        Ok(Decoder { entries })
    }

    /// Whether the word that is kept for the address stays there.
    #[inline(always)]
    pub(crate) fn lasts(&self, pc: u32) -> bool
        ensures { result ≡ true → Lasts self.now pc }
    {
        self.entries[place_of(pc)].at == pc
    }

    /// Whether the word is kept for the address.
    #[inline(always)]
    pub(crate) fn keeps(&self, pc: u32, word: u32) -> bool
        ensures { result ≡ true → Keeps self.now pc word }
    {
        self.entries[place_of(pc)].word == word
    }

    /// The instruction of the word that is kept for an address.
    #[inline(always)]
    pub(crate) fn instruction(&self, pc: u32) -> &Inst
        ensures range { IsInRange result.now }
        ensures word { (word : ℕ) → Keeps self.now pc word → decoded word ≡ Some result.now }
    {
        &self.entries[place_of(pc)].inst
    }

    /// Keeps a word for an address, at which it stays or not; `false` exactly where it is no instruction.
    pub(crate) fn keep(&mut self, pc: u32, word: u32, stays: bool) -> bool
        ensures kept { MatchBool result (Keeps self.new pc word) (decoded word ≡ None) }
        ensures stay { (memory : Memory) → AllStay memory self.old → (stays ≡ true → Stays memory pc word) → AllStay memory self.new }
    {
        match decode(word) {
            Some(inst) => {
                let at = if stays { pc } else { pc.wrapping_add(4) };
                self.entries[place_of(pc)] = Entry { at, word, inst };
                true
            }
            None => false,
        }
    }
}
