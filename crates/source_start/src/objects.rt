//! The blocks of the objects.

ghost use Rattle.std.specs.Prelude.{◌≡◌, ◌<◌, ◌≤◌, ◌+◌, ◌^◌, ◌∷◌, [], ◌++◌, All, IfOk, replicate};
ghost use Rattle.memory_words.specs.declared.cell_words.cell.Cell.TheVariants.{Byte};
ghost use Rattle.block_memory.specs.Blocks.{living};
ghost use Rattle.block_memory.specs.View.{memory_of};
ghost use Rattle.c_meaning.specs.Program.{initial_memory, none_or, object_block, object_kind, object_size};
ghost use Rattle.c_typed.specs.Programs.{program_data};
ghost use Rattle.block_memory.specs.RunWorlds.Worlds.{live_bytes};
ghost use Rattle.source_start.specs.Fits.{IsFitValue, StartsFit};
ghost use Rattle.source_start.specs.Writing.{AddGives};

use crate::values::write_all;
use block_memory::{BlockKind, Store};
use c_typed::Object;
use lay_base::NoMemory;
use source_values::Types;
use std::alloc::Global;

fn object_kind(text: bool) -> BlockKind
    ensures { result ≡ object_kind text }
{
    if text {
        BlockKind::Text
    } else {
        BlockKind::Global
    }
}

/// A new block of so many bytes that are 0: its number.
#[tactic(auto, using(crate::proofs::LastBlock::zeroed_last, crate::proofs::LastBlock::size_of_last))]
fn add_zeros(alloc: Global, store: &mut Store, size: u32, kind: BlockKind) -> Result<u64, NoMemory>
    requires { live_bytes (memory_of store.old) + size < 2 ^ 29 }
    ensures { IfOk result (AddGives (memory_of store.old) (memory_of store.new) (record { kind = kind; contents = living (replicate size (Byte 0)) })) }
{
    let block = store.alloc(alloc, size, kind)?;
    store.set_zero(block, size);
    Ok(block)
}

/// A new block for an object, with what it holds at first: how many bytes live in it.
#[tactic(auto, using(crate::proofs::LastBlock::all_last, crate::proofs::LastBlock::last_block))]
fn add_object(
    alloc: Global,
    store: &mut Store,
    types: &Types<'_>,
    o: &Object,
) -> Result<u64, NoMemory>
    requires fits { All (IsFitValue (program_data types.now) o.now) (none_or o.now.initial) }
    requires few { live_bytes (memory_of store.old) + object_size (program_data types.now) o.now < 2 ^ 29 }
    ensures memory { IfOk result (λ n. memory_of store.new ≡ memory_of store.old ++ object_block (program_data types.now) o.now ∷ []) }
    ensures live { IfOk result (λ n. n ≡ object_size (program_data types.now) o.now) }
{
    let Some(all) = &o.initial else {
        add_zeros(alloc, store, 0, object_kind(o.text))?;
        return Ok(0);
    };
    let size = types.row(o.ty).size;
    let block = add_zeros(alloc, store, size, object_kind(o.text))?;
    write_all(store, block, all.as_slice());
    Ok(u64::from(size))
}

/// In the memory of no block a new one for each object, with what it holds at first: how many bytes live in them.
pub(crate) fn add_objects(
    alloc: Global,
    store: &mut Store,
    types: &Types<'_>,
) -> Result<u64, NoMemory>
    requires fits { StartsFit (program_data types.now) }
    requires empty { memory_of store.old ≡ [] }
    ensures memory { IfOk result (λ n. memory_of store.new ≡ initial_memory (program_data types.now)) }
    ensures live { IfOk result (λ n. n ≡ live_bytes (initial_memory (program_data types.now))) }
    ensures few { IfOk result (λ n. n ≤ 2 ^ 24) }
{
    let mut live: u64 = 0;
    for o in types.typed().objects.as_slice() {
        let size = add_object(alloc, store, types, o)?;
        live += size;
    }
    Ok(live)
}
