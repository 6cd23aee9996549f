//! The words of the routines.

ghost use Rattle.std.specs.Prelude.{◌≡◌, ◌++◌, ◌≤◌, length, OnOk, IfOk};
ghost use Rattle.rv_runtime.specs.Bytes.{zeros, bytes_of, open_page, page, runtime_bytes, data_bytes};

use lay_base::{NoMemory, append, filled};
use std::alloc::Global;

/// The bytes of a routine.
const ROUTINE: usize = 512;

/// Where the heap begins.
const HEAP: u32 = 0x20000000;

/// The word that returns.
const RETURN: u32 = 0x00008067;

// The words of each routine, but for the one that returns.

static START: [u32; 1] = [0x0000106F];

static EXIT: [u32; 2] = [0x05D00893, 0x00000073];

static MALLOC: [u32; 18] = [
    0x0080086F, 0x1F80006F, 0x080005B7, 0x0045A603, 0x02A66A63, 0x01000693, 0x00A6F663, 0x00D686B3,
    0xFF9FF06F, 0x0005A703, 0x40E607B3, 0x01068693, 0x00D7EA63, 0x00D707B3, 0x00F5A023, 0x01070513,
    0x00080067, 0x00100073,
];

static CALLOC: [u32; 6] = [
    0x02B53633, 0x00061863, 0x02B50533, 0xDFDFF86F, 0x1EC0006F, 0x00100073,
];

static FREE: [u32; 1] = [0x1FC0006F];

static COPY: [u32; 16] = [
    0x02A5E263, 0x00050693, 0x1E060A63, 0x0005C703, 0x00E68023, 0x00158593, 0x00168693, 0xFFF60613,
    0xFE9FF06F, 0x1C060C63, 0xFFF60613, 0x00C586B3, 0x0006C703, 0x00C506B3, 0x00E68023, 0xFE9FF06F,
];

static FILL: [u32; 6] = [
    0x00050693, 0x1E060C63, 0x00B68023, 0x00168693, 0xFFF60613, 0xFF1FF06F,
];

static COMPARE: [u32; 13] = [
    0x02060663, 0x00054683, 0x0005C703, 0x00E69A63, 0x00150513, 0x00158593, 0xFFF60613, 0xFE5FF06F,
    0x00D73533, 0x00E6B633, 0x40C50633, 0x00060513, 0x1CC0006F,
];

#[tactic(auto, unfolding(crate::specs::Bytes::zeros))]
fn zero_bytes(alloc: Global, n: usize) -> Result<Vec<u8>, NoMemory>
    ensures { IfOk result (λ bytes. bytes.items ≡ zeros n) }
{
    filled(alloc, 0, n)
}

/// Words, the lowest byte of each first, after what is there.
#[tactic(auto, using(crate::proofs::Lists::bytes_append, std::proofs::lemmas::Grind::common_steps))]
fn put_words(bytes: &mut Vec<u8>, words: &[u32]) -> Result<(), NoMemory>
    ensures { OnOk result (bytes.new.items ≡ bytes.old.items ++ bytes_of words.now) }
{
    for word in words {
        append(bytes, &word.to_le_bytes())?;
    }
    Ok(())
}

/// A routine that does not return, and zeros after it.
#[tactic(auto, unfolding(crate::specs::Bytes::open_page))]
fn put_open(alloc: Global, bytes: &mut Vec<u8>, words: &[u32]) -> Result<(), NoMemory>
    requires { length words.now ≤ 128 }
    ensures { OnOk result (bytes.new.items ≡ bytes.old.items ++ open_page words.now) }
{
    put_words(bytes, words)?;
    append(bytes, &zero_bytes(alloc, ROUTINE - 4 * words.len())?)
}

/// A routine, zeros, and the word that returns.
#[tactic(auto, unfolding(crate::specs::Bytes::page))]
fn put_page(alloc: Global, bytes: &mut Vec<u8>, words: &[u32]) -> Result<(), NoMemory>
    requires { length words.now ≤ 127 }
    ensures { OnOk result (bytes.new.items ≡ bytes.old.items ++ page words.now) }
{
    put_words(bytes, words)?;
    append(bytes, &zero_bytes(alloc, ROUTINE - 4 - 4 * words.len())?)?;
    put_words(bytes, &[RETURN])
}

/// The first 4,096 bytes of a program's text.
pub fn runtime(alloc: Global) -> Result<Vec<u8>, NoMemory>
    ensures { IfOk result (λ bytes. bytes.items ≡ runtime_bytes) }
{
    let mut bytes = Vec::new(alloc);
    put_open(alloc, &mut bytes, &START)?;
    put_open(alloc, &mut bytes, &EXIT)?;
    put_page(alloc, &mut bytes, &MALLOC)?;
    put_page(alloc, &mut bytes, &CALLOC)?;
    put_page(alloc, &mut bytes, &FREE)?;
    put_page(alloc, &mut bytes, &COPY)?;
    put_page(alloc, &mut bytes, &FILL)?;
    put_page(alloc, &mut bytes, &COMPARE)?;
    Ok(bytes)
}

/// The 256 bytes that stand at the front of a program's data, where the heap ends at that address.
#[tactic(auto, unfolding(crate::specs::Bytes::data_bytes))]
pub fn runtime_data(alloc: Global, end: u32) -> Result<Vec<u8>, NoMemory>
    ensures { IfOk result (λ bytes. bytes.items ≡ data_bytes end) }
{
    let mut bytes = Vec::new(alloc);
    append(&mut bytes, &HEAP.to_le_bytes())?;
    append(&mut bytes, &end.to_le_bytes())?;
    append(&mut bytes, &zero_bytes(alloc, 248)?)?;
    Ok(bytes)
}
