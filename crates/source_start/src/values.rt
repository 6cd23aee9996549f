//! The values that objects hold at first.

ghost use Rattle.std.specs.Prelude.{◌≡◌, ◌≤◌, ◌+◌, All};
ghost use Rattle.block_memory.specs.Blocks.{size, with_cells};
ghost use Rattle.block_memory.specs.Held.{bytes_of, fragments_of};
ghost use Rattle.block_memory.specs.View.{memory_of};
ghost use Rattle.c_types.specs.IntKinds.{width};
ghost use Rattle.source_start.specs.Standing.{FitsIn, TakesPointer};
ghost use Rattle.source_start.specs.Writing.{with_all, with_initial};

use block_memory::{Ptr, Store};
use c_typed::{Initial, InitialValue};
use c_types::IntKind;

/// Puts a number into a block, its least byte first.
fn write_number(store: &mut Store, block: u64, at: u32, kind: IntKind, v: u32)
    requires { at + width kind ≤ size (memory_of store.old) block }
    ensures { memory_of store.new ≡ with_cells (memory_of store.old) block at (bytes_of (width kind) v) }
{
    let a = (v % 256) as u8;
    let b = (v / 256 % 256) as u8;
    let c = (v / 256 / 256 % 256) as u8;
    let d = (v / 256 / 256 / 256 % 256) as u8;
    match kind {
        IntKind::Char | IntKind::SChar | IntKind::UChar => store.set_bytes(block, at, &[a]),
        IntKind::Short | IntKind::UShort => store.set_bytes(block, at, &[a, b]),
        IntKind::Int | IntKind::UInt | IntKind::Long | IntKind::ULong => {
            store.set_bytes(block, at, &[a, b, c, d]);
        }
    }
}

/// Puts a pointer of a type into a block, where it passes the tests.
fn write_pointer(store: &mut Store, block: u64, at: u32, type_number: usize, q: Ptr)
    requires { TakesPointer (memory_of store.old) block at }
    ensures { memory_of store.new ≡ with_cells (memory_of store.old) block at (fragments_of type_number q) }
{
    let _ = store.store_pointer(Ptr::Block(block, at), type_number, q);
}

/// Puts what an object holds at first at one place into its block.
#[tactic(auto, using(crate::proofs::Standing::number_ends, crate::proofs::Standing::address_takes, crate::proofs::Standing::function_takes))]
fn write_initial(store: &mut Store, block: u64, i: &Initial)
    requires { FitsIn (memory_of store.old) block i.now }
    ensures { memory_of store.new ≡ with_initial block (memory_of store.old) i.now }
{
    match &i.value {
        InitialValue::Number(kind, v) => write_number(store, block, i.offset, *kind, *v),
        InitialValue::Address(ty, object, at) => {
            write_pointer(store, block, i.offset, *ty, Ptr::Block(*object as u64, *at));
        }
        InitialValue::Function(ty, f) => {
            write_pointer(store, block, i.offset, *ty, Ptr::Function(*f));
        }
    }
}

/// Puts what an object holds at first into its block.
pub(crate) fn write_all(store: &mut Store, block: u64, all: &[Initial])
    requires { All (FitsIn (memory_of store.old) block) all.now }
    ensures { memory_of store.new ≡ with_all block (memory_of store.old) all.now }
{
    for i in all {
        write_initial(store, block, i);
    }
}
