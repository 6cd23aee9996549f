//! Slots.

ghost use Rattle.std.specs.Prelude.{◌≡◌, ◌<◌, ◌≤◌, ◌^◌};
ghost use Rattle.block_memory.specs.Slots.{expanded, holds, kind_of, words_for};

use crate::kinds::BlockKind;

/// What is kept of a block as long as the store stands.
#[derive(Clone, Copy)]
pub(crate) struct Slot {
    pub(crate) kind: BlockKind,
    pub(crate) live: bool,
    /// The first of its words, while it lives.
    pub(crate) start: u32,
    /// In bytes.
    pub(crate) size: u32,
}

/// A slot in eight bytes.
#[derive(Clone, Copy)]
pub(crate) struct CompactSlot {
    pub(crate) word: u32,
    pub(crate) size: u32,
}

/// One more than the greatest number of a block's first word.
pub(crate) const WORDS: usize = 536_870_912;

/// How many words a block of so many cells takes.
pub(crate) fn words_for(size: u32) -> usize
    ensures is { result ≡ words_for size }
    ensures small { result ≤ 2 ^ 30 }
{
    (size as usize + 3) / 4
}

/// Whether a block lives and has cells.
pub(crate) fn holds(slot: Slot) -> bool
    ensures { result ≡ holds slot }
{
    slot.live && 0 < slot.size
}

fn code_of(kind: BlockKind) -> u32
    ensures is { kind_of result ≡ kind }
    ensures small { result < 4 }
{
    match kind {
        BlockKind::Global => 0,
        BlockKind::Text => 1,
        BlockKind::Local => 2,
        BlockKind::Heap => 3,
    }
}

fn kind_of(code: u32) -> BlockKind
    ensures { result ≡ kind_of code }
{
    match code {
        0 => BlockKind::Global,
        1 => BlockKind::Text,
        2 => BlockKind::Local,
        _ => BlockKind::Heap,
    }
}

/// A slot in eight bytes.
#[tactic(auto, using(crate::proofs::Slotting::compact_live, crate::proofs::Slotting::compact_ended))]
pub(crate) fn compact(slot: Slot) -> CompactSlot
    requires { slot.start < 2 ^ 29 }
    ensures { expanded result ≡ slot }
{
    let code = code_of(slot.kind);
    let word = if slot.live {
        code + 4 + 8 * slot.start
    } else {
        code + 8 * slot.start
    };
    CompactSlot {
        word,
        size: slot.size,
    }
}

/// The slot that stands in eight bytes.
#[inline(always)]
pub(crate) fn expanded(compact: CompactSlot) -> Slot
    ensures is { result ≡ expanded compact }
    ensures small { result.start < 2 ^ 29 }
{
    Slot {
        kind: kind_of(compact.word % 4),
        live: compact.word / 4 % 2 == 1,
        start: compact.word / 8,
        size: compact.size,
    }
}
