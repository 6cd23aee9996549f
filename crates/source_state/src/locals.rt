//! The locals of the function that runs.

ghost use Rattle.std.specs.Prelude.{◌≡◌, IfOk};
ghost use Rattle.block_memory.specs.RunWorlds.Scalars.{load_in, store_in};
ghost use Rattle.source_state.specs.RoomView.{core_of};
ghost use Rattle.source_state.specs.Steps.Cores.{Changes};
ghost use Rattle.source_state.specs.Steps.Locals.{begin_as, end_all, end_slot, finish};
ghost use Rattle.source_state.specs.Steps.Memories.{changed};

use crate::ends::Final;
use crate::room::Room;
use block_memory::{Access, BlockKind, Ptr, Value};
use c_meaning::Slot;
use lay_base::{NoMemory, UndefinedKind};
use std::alloc::Global;

impl Room {
    /// Loads a value from memory.
    pub fn load(&self, p: Ptr, access: Access) -> Result<Value, UndefinedKind>
        ensures { result ≡ load_in (core_of self.now).memory p access }
    {
        match access {
            Access::Number(kind) => match self.store.load_int(p, kind) {
                Ok(v) => Ok(Value::Word(v)),
                Err(kind) => Err(kind),
            },
            Access::Pointer(type_number) => match self.store.load_pointer(p, type_number) {
                Ok(q) => Ok(Value::Pointer(q)),
                Err(kind) => Err(kind),
            },
        }
    }

    /// Stores a value in memory.
    #[tactic(auto, using(crate::proofs::Keeps::number_kept, crate::proofs::Keeps::pointer_kept))]
    pub fn store(&mut self, p: Ptr, access: Access, v: Value) -> Result<(), UndefinedKind>
        ensures { Changes result (core_of self.old) (core_of self.new)
            (changed (store_in (core_of self.old).memory p access v) (core_of self.old)) }
    {
        match (access, v) {
            (Access::Number(kind), Value::Word(word)) => self.store.store_int(p, kind, word),
            (Access::Pointer(type_number), Value::Pointer(q)) => {
                self.store.store_pointer(p, type_number, q)
            }
            (Access::Number(_), Value::Pointer(_)) | (Access::Pointer(_), Value::Word(_)) => {
                Err(UndefinedKind::Pointer)
            }
        }
    }

    /// A local of so many bytes is made, in a block or not. A block that has begun ends first.
    pub fn begin(
        &mut self,
        alloc: Global,
        local: u32,
        block: bool,
        size: u32,
    ) -> Result<Result<(), Final>, NoMemory>
        ensures { IfOk result (λ r. (r, core_of self.new) ≡ begin_as local block size (core_of self.old)) }
    {
        if !block {
            self.set_slot(local, Slot::ByName(None));
            return Ok(Ok(()));
        }
        self.finish(local);
        match self.make(alloc, u64::from(size), BlockKind::Local)? {
            Ok(number) => {
                self.set_slot(local, Slot::InBlock(Some(number)));
                Ok(Ok(()))
            }
            Err(end) => Ok(Err(end)),
        }
    }

    /// A local ends.
    pub fn finish(&mut self, local: u32)
        ensures { core_of self.new ≡ finish local (core_of self.old) }
    {
        if let Some(Slot::InBlock(Some(block))) = self.slot(local) {
            self.end(block);
            self.set_slot(local, Slot::InBlock(None));
        }
    }

    /// What of the locals has begun ends.
    pub fn end_all(&mut self)
        ensures { core_of self.new ≡ end_all (core_of self.old).frame (core_of self.old) }
    {
        for local in 0..self.frame.len() {
            if let Slot::InBlock(Some(block)) = self.frame[local] {
                self.end(block);
            }
        }
    }
}
