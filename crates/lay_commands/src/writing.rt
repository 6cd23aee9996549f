//! A file that a command writes.

ghost use Rattle.std.specs.Prelude.{◌≡◌, ℕ, List, OnOk};
ghost use Rattle.lay_base.specs.Known.{FilesKeepBut};
ghost use Rattle.lay_commands.specs.Stages.{WriteGives};

use lay_base::{Host, HostWrite};
use refusals::Refusal;

/// Writes bytes under a name.
pub fn write_bytes<H: Host>(host: &mut H, name: &str, bytes: &[u8]) -> Result<(), Refusal>
    ensures others { FilesKeepBut name.now (H.files host.old) (H.files host.new) }
    ensures writes { OnOk result ((other : List ℕ) → H.failed_writes host.new other ≡ H.failed_writes host.old other) }
    ensures gives { WriteGives (H.failed_writes host.old name.now) (H.failed_writes host.new name.now) (H.files host.old) (H.files host.new)
        name.now bytes.now result }
{
    match host.write_file(name, bytes) {
        Ok(()) => Ok(()),
        Err(HostWrite::Failed) => Err(Refusal::WriteFault),
        Err(HostWrite::Memory(want)) => Err(Refusal::Memory(want)),
    }
}
