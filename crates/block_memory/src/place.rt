//! Where an access lies, and its tests.

ghost use Rattle.std.specs.Prelude.{◌≡◌, ◌<◌, ◌≤◌, ◌+◌, OnOk};
ghost use Rattle.block_memory.specs.Accesses.{is_text};
ghost use Rattle.block_memory.specs.Stores.{tests};

use crate::kinds::BlockKind;
use crate::slot::Slot;
use lay_base::UndefinedKind;

/// An offset in a live block, and where it lies among all cells.
#[derive(Clone, Copy)]
pub(crate) struct Place {
    pub(crate) block: u64,
    pub(crate) cell: usize,
    pub(crate) at: u32,
}

/// The tests of an access to a live block, but that of the block itself.
pub(crate) fn tested(
    slot: Slot,
    at: u32,
    count: u32,
    width: u32,
    stores: bool,
) -> Result<(), UndefinedKind>
    requires { 0 < width }
    ensures is { result ≡ tests slot at count width stores }
    ensures within { OnOk result (at + count ≤ slot.size) }
{
    if u64::from(at) + u64::from(count) > u64::from(slot.size) {
        Err(UndefinedKind::Outside)
    } else if at % width != 0 {
        Err(UndefinedKind::Align)
    } else if stores && is_text(slot.kind) {
        Err(UndefinedKind::ReadOnly)
    } else {
        Ok(())
    }
}

fn is_text(kind: BlockKind) -> bool
    ensures { result ≡ is_text kind }
{
    match kind {
        BlockKind::Text => true,
        BlockKind::Global => false,
        BlockKind::Local => false,
        BlockKind::Heap => false,
    }
}
