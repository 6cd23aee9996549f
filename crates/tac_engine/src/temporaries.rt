//! Temporaries.

ghost use Rattle.std.specs.Prelude.{◌≡◌, ◌≤◌, Ok, OnOk, IfOk, IfSome, length, vec_len};
ghost use Rattle.block_memory.specs.declared.run_worlds.value.Value.TheVariants.{Word as Number, Pointer as Address};
ghost use Rattle.source_state.specs.RoomView.{core_of};
ghost use Rattle.source_state.specs.Steps.Locals.{slot};
ghost use Rattle.tac_ir.specs.Running.{with_temp};
ghost use Rattle.tac_engine.specs.Reading.{ReadsRow};
ghost use Rattle.tac_engine.specs.States.{held, put_slot, read, read_both, read_row};

use block_memory::{Ptr, Value};
use c_meaning::Slot;
use lay_base::{NoMemory, Place, UndefinedKind, push};
use source_state::{Final, Room};
use std::alloc::Global;
use tac_ir::{Operand, Row};

/// A slot past the end of a frame, with those before it.
#[cold]
#[inline(never)]
#[tactic(auto, using(crate::proofs::Growing::at_end, crate::proofs::Growing::one_more))]
fn grow(frame: &mut Vec<Slot>, t: usize, slot: Slot) -> Result<(), NoMemory>
    requires { length frame.old.items ≤ t }
    ensures { OnOk result (frame.new.items ≡ with_temp t slot frame.old.items) }
{
    for _ in frame.len()..t {
        push(frame, Slot::ByName(None))?;
    }
    push(frame, slot)
}

/// Another slot of a temporary.
#[tactic(auto, using(crate::proofs::Growing::within))]
#[inline(always)]
pub(crate) fn put_slot(room: &mut Room, t: u32, slot: Slot) -> Result<(), NoMemory>
    ensures { OnOk result (core_of room.new ≡ put_slot t slot (core_of room.old)) }
{
    let t = t as usize;
    if t < room.frame.len() {
        room.frame[t] = slot;
        return Ok(());
    }
    grow(&mut room.frame, t, slot)
}

/// What a slot holds, or how that is undefined.
#[inline(always)]
fn held(kind: UndefinedKind, place: Place, slot: Option<Slot>) -> Result<Value, Final>
    ensures { result ≡ held kind place slot }
{
    match slot {
        Some(Slot::ByName(Some(v))) => Ok(v),
        Some(Slot::InBlock(Some(block))) => Ok(Value::Pointer(Ptr::Block(block, 0))),
        _ => Err(Final::Undefined(kind, place)),
    }
}

/// The value of an operand.
#[inline(always)]
pub(crate) fn read(room: &Room, a: Operand) -> Result<Value, Final>
    ensures { result ≡ read a (core_of room.now) }
{
    match a {
        Operand::Temp(kind, t, place) => held(kind, place, room.slot(t)),
        Operand::Word(n) => Ok(Value::Word(n)),
        Operand::Null => Ok(Value::Pointer(Ptr::Null)),
        Operand::Function(f) => Ok(Value::Pointer(Ptr::Function(f))),
        Operand::Object(n) => Ok(Value::Pointer(Ptr::Block(n as u64, 0))),
    }
}

/// The values of two operands, the left one first.
#[inline(always)]
pub(crate) fn read_both(room: &Room, a: Operand, b: Operand) -> Result<(Value, Value), Final>
    ensures { result ≡ read_both a b (core_of room.now) }
{
    match (read(room, a), read(room, b)) {
        (Ok(v), Ok(w)) => Ok((v, w)),
        (Ok(_), Err(end)) => Err(end),
        (Err(end), _) => Err(end),
    }
}

/// The word that an operand holds; none where it holds no word.
#[inline(always)]
pub(crate) fn word(room: &Room, a: &Operand) -> Option<u32>
    ensures { IfSome result (λ n. read a.now (core_of room.now) ≡ Ok (Number n)) }
{
    match a {
        Operand::Temp(_, t, _) => match room.slot(*t) {
            Some(Slot::ByName(Some(Value::Word(n)))) => Some(n),
            _ => None,
        },
        Operand::Word(n) => Some(*n),
        Operand::Null | Operand::Function(_) | Operand::Object(_) => None,
    }
}

/// The pointer that an operand holds; none where it holds no pointer.
#[inline(always)]
pub(crate) fn pointer(room: &Room, a: &Operand) -> Option<Ptr>
    ensures { IfSome result (λ q. read a.now (core_of room.now) ≡ Ok (Address q)) }
{
    match a {
        Operand::Temp(_, t, _) => match room.slot(*t) {
            Some(Slot::ByName(Some(Value::Pointer(q)))) => Some(q),
            Some(Slot::InBlock(Some(block))) => Some(Ptr::Block(block, 0)),
            _ => None,
        },
        Operand::Object(n) => Some(Ptr::Block(*n as u64, 0)),
        Operand::Word(_) | Operand::Null | Operand::Function(_) => None,
    }
}

/// The words that two operands hold; none where one holds no word.
#[inline(always)]
pub(crate) fn words(room: &Room, a: &Operand, b: &Operand) -> Option<(u32, u32)>
    ensures { IfSome result (λ both. read_both a.now b.now (core_of room.now) ≡ Ok (Number both.0, Number both.1)) }
{
    match word(room, a) {
        Some(v) => match word(room, b) {
            Some(w) => Some((v, w)),
            None => None,
        },
        None => None,
    }
}

/// The slot of a temporary, whose number may pass 32 bits.
#[inline(always)]
fn slot_at(room: &Room, t: usize) -> Option<Slot>
    ensures { result ≡ slot (core_of room.now) t }
{
    room.frame.get(t).copied()
}

/// The arguments of a call.
#[tactic(auto, using(crate::proofs::Rows::one_more))]
pub(crate) fn read_row(
    alloc: Global,
    room: &Room,
    place: Place,
    row: Row,
) -> Result<Result<Vec<Value>, Final>, NoMemory>
    ensures read { IfOk result (λ r. ReadsRow (read_row place row.first row.count (core_of room.now)) r) }
    ensures few { IfOk result (λ r. IfOk r (λ values. vec_len values ≤ row.count)) }
{
    let mut values = Vec::new(alloc);
    for i in 0..row.count {
        let slot = slot_at(room, row.first as usize + i as usize);
        match held(UndefinedKind::Call, place, slot) {
            Ok(v) => push(&mut values, v)?,
            Err(end) => return Ok(Err(end)),
        }
    }
    Ok(Ok(values))
}
