//! Want of memory, and the requests that can find it.
//!
//! A [`NoMemory`] is made here alone, by a call that asked the allocator and was refused: its field is private. So whoever answers one has it from such a
//! call. The calls are those of std and of the kit's containers; where one is refused, its items are let go.

ghost use Rattle.std.specs.Prelude.{◌≡◌, ◌≤◌, ◌+◌, ◌-◌, [], ◌∷◌, ◌++◌, Some, true, length, take, drop, insert, replicate, IsOk, IfOk, OnOk, OnErr, vec_len, vec_capacity};
ghost use Rattle.indexmap.specs.IndexMap as map;
ghost use Rattle.indexmap.specs.IndexSet as set;

use crate::list::List;
use crate::outside::HostRead;
use crate::shared_value::Shared;
use crate::value_box::Boxed;
use indexmap::{IndexMap, IndexSet};
use smallvec::SmallVec;
use std::alloc::Global;
use std::hash::Hash;
use std::io::{BufReader, ErrorKind, Read};
use std::{env, fs, io};

/// No memory was left: the allocator refused a request. It is the one free answer: no contract says when it comes.
#[derive(Clone, Copy, Debug, PartialEq, Eq)]
pub struct NoMemory {
    refused: (),
}

const REFUSED: NoMemory = NoMemory { refused: () };

/// A value in a box.
pub fn boxed<T: Drop>(alloc: Global, value: T) -> Result<Boxed<T>, NoMemory>
    ensures { IfOk result (λ boxed. boxed ≡ value) }
{
    match Boxed::new(alloc, value) {
        Ok(boxed) => Ok(boxed),
        Err(_) => Err(REFUSED),
    }
}

/// A value with its first owner.
pub fn shared<T: Drop>(alloc: Global, value: T) -> Result<Shared<T>, NoMemory>
    ensures { IfOk result (λ shared. shared ≡ value) }
{
    match Shared::new(alloc, value) {
        Ok(shared) => Ok(shared),
        Err(_) => Err(REFUSED),
    }
}

/// The empty list, with room for so many items.
pub fn with_room<T>(alloc: Global, count: usize) -> Result<List<T>, NoMemory>
    ensures { IfOk result (λ list. list ≡ []) }
{
    match Vec::with_capacity(alloc, count) {
        Ok(items) => Ok(List::of(items)),
        Err(_) => Err(REFUSED),
    }
}

/// Adds an item at the end of a list.
pub fn add<T: Drop>(list: &mut List<T>, item: T) -> Result<(), NoMemory>
    ensures added { OnOk result (list.new ≡ list.old ++ item ∷ []) }
    ensures unchanged { OnErr result (list.new ≡ list.old) }
{
    match list.push(item) {
        Ok(()) => Ok(()),
        Err(_) => Err(REFUSED),
    }
}

/// The empty vector, with room for so many items.
pub fn with_capacity<T>(alloc: Global, count: usize) -> Result<Vec<T>, NoMemory>
    ensures items { IfOk result (λ items. items.items ≡ []) }
    ensures capacity { IfOk result (λ items. vec_capacity items ≡ count) }
{
    match Vec::with_capacity(alloc, count) {
        Ok(items) => Ok(items),
        Err(_) => Err(REFUSED),
    }
}

/// A copy of items.
pub fn copied<T: Copy>(alloc: Global, items: &[T]) -> Result<Vec<T>, NoMemory>
    ensures { IfOk result (λ copy. copy.items ≡ items.now) }
{
    match Vec::from_slice(alloc, items) {
        Ok(copy) => Ok(copy),
        Err(_) => Err(REFUSED),
    }
}

/// So many copies of an item.
pub fn filled<T: Copy + Drop>(alloc: Global, item: T, count: usize) -> Result<Vec<T>, NoMemory>
    ensures len { IfOk result (λ items. vec_len items ≡ count) }
    ensures items { IfOk result (λ items. items.items ≡ replicate count item) }
{
    let mut items = Vec::new(alloc);
    resize(&mut items, count, item)?;
    Ok(items)
}

/// Adds an item at the end of a vector.
pub fn push<T: Drop>(items: &mut Vec<T>, item: T) -> Result<(), NoMemory>
    ensures pushed { OnOk result (items.new.items ≡ items.old.items ++ item ∷ []) }
    ensures unchanged { OnErr result (items.new.items ≡ items.old.items) }
{
    match items.push(item) {
        Ok(()) => Ok(()),
        Err(_) => Err(REFUSED),
    }
}

/// Adds copies of items at the end of a vector.
pub fn append<T: Copy>(items: &mut Vec<T>, more: &[T]) -> Result<(), NoMemory>
    ensures appended { OnOk result (items.new.items ≡ items.old.items ++ more.now) }
    ensures unchanged { OnErr result (items.new.items ≡ items.old.items) }
    ensures succeeds { vec_len items.old + length more.now ≤ vec_capacity items.old → IsOk result }
{
    match items.extend_from_slice(more) {
        Ok(()) => Ok(()),
        Err(_) => Err(REFUSED),
    }
}

/// Cuts a vector to a length, or fills it up with copies of an item.
pub fn resize<T: Copy + Drop>(items: &mut Vec<T>, count: usize, item: T) -> Result<(), NoMemory>
    ensures resized { OnOk result (items.new.items ≡ take count items.old.items ++ replicate (count - vec_len items.old) item) }
    ensures unchanged { OnErr result (items.new.items ≡ items.old.items) }
    ensures succeeds { count ≤ vec_capacity items.old → IsOk result }
{
    match items.resize(count, item) {
        Ok(()) => Ok(()),
        Err(_) => Err(REFUSED),
    }
}

/// Makes room for so many items more.
pub fn reserve<T>(items: &mut Vec<T>, more: usize) -> Result<(), NoMemory>
    ensures items { items.new.items ≡ items.old.items }
    ensures room { OnOk result (vec_len items.new + more ≤ vec_capacity items.new) }
    ensures capacity { vec_capacity items.old ≤ vec_capacity items.new }
{
    match items.reserve(more) {
        Ok(()) => Ok(()),
        Err(_) => Err(REFUSED),
    }
}

/// Puts an item at an index, before those that stand from there on.
pub fn insert_at<T: Drop>(items: &mut Vec<T>, index: usize, item: T) -> Result<(), NoMemory>
    requires { index ≤ vec_len items.old }
    ensures inserted { OnOk result (items.new.items ≡ insert items.old.items index item) }
    ensures unchanged { OnErr result (items.new.items ≡ items.old.items) }
{
    match items.insert(index, item) {
        Ok(()) => Ok(()),
        Err(_) => Err(REFUSED),
    }
}

/// Takes the items from an index on off a vector.
pub fn split_off<T>(items: &mut Vec<T>, index: usize) -> Result<Vec<T>, NoMemory>
    requires { index ≤ vec_len items.old }
    ensures kept { OnOk result (items.new.items ≡ take index items.old.items) }
    ensures rest { IfOk result (λ rest. rest.items ≡ drop index items.old.items) }
    ensures unchanged { OnErr result (items.new.items ≡ items.old.items) }
{
    match items.split_off(index) {
        Ok(rest) => Ok(rest),
        Err(_) => Err(REFUSED),
    }
}

/// A copy of bytes that takes no memory where there are at most `N`.
pub fn short_copy<const N: usize>(alloc: Global, bytes: &[u8]) -> Result<SmallVec<u8, N>, NoMemory>
    ensures copied { IfOk result (λ copy. copy.items ≡ bytes.now) }
    ensures succeeds { length bytes.now ≤ N → IsOk result }
{
    match SmallVec::from_slice(alloc, bytes) {
        Ok(copy) => Ok(copy),
        Err(_) => Err(REFUSED),
    }
}

/// Puts a value under a key of a map. A new key goes last.
pub fn put<K: Eq + Hash + Drop, V: Drop>(
    entries: &mut IndexMap<K, V>,
    key: K,
    value: V,
) -> Result<(), NoMemory>
    ensures put { OnOk result (entries.new.entries ≡ map.insert_entry K.eq entries.old.entries key value) }
    ensures updates { OnOk result (map.Updates K.eq entries.old entries.new key (Some value)) }
    ensures unchanged { OnErr result (map.IsUnchanged entries.old entries.new) }
    ensures unique { map.IsUnique K.eq entries.new }
{
    match entries.insert(key, value) {
        Ok(_) => Ok(()),
        Err(_) => Err(REFUSED),
    }
}

/// Puts a key into a set. A new key goes last.
pub fn put_key<K: Eq + Hash + Drop>(keys: &mut IndexSet<K>, key: K) -> Result<(), NoMemory>
    ensures put { OnOk result (keys.new.keys ≡ set.insert_key K.eq keys.old.keys key) }
    ensures updates { OnOk result (set.Updates K.eq keys.old keys.new key true) }
    ensures unchanged { OnErr result (set.IsUnchanged keys.old keys.new) }
    ensures unique { set.IsUnique K.eq keys.new }
{
    match keys.insert(key) {
        Ok(_) => Ok(()),
        Err(_) => Err(REFUSED),
    }
}

/// The words that the program was started with, its own name first. Where the system does not give them as text there are none.
pub fn arguments(rt: &HostRuntime) -> Result<Vec<String>, NoMemory> {
    let mut words = Vec::new(rt.alloc());
    match env::args(rt) {
        Ok(all) => {
            for word in all {
                push(&mut words, word)?;
            }
            Ok(words)
        }
        Err(e) if e.kind() == ErrorKind::OutOfMemory => Err(REFUSED),
        Err(_) => Ok(words),
    }
}

/// A reader that reads ahead.
pub fn buffered<R: Read + Drop>(alloc: Global, reader: R) -> Result<BufReader<R>, NoMemory> {
    match BufReader::new(alloc, reader) {
        Ok(reader) => Ok(reader),
        Err(_) => Err(REFUSED),
    }
}

/// The bytes of a file of the system, at most `limit` of them.
pub fn read_at_most(rt: &HostRuntime, name: &str, limit: u64) -> Result<Vec<u8>, HostRead>
    ensures { IfOk result (λ bytes. vec_len bytes ≤ limit) }
{
    match some_bytes(rt, name, limit) {
        Ok(bytes) => {
            if bytes.len() as u64 <= limit {
                Ok(bytes)
            } else {
                Err(HostRead::TooLong)
            }
        }
        Err(e) if e.kind() == ErrorKind::OutOfMemory => Err(HostRead::Memory(REFUSED)),
        Err(_) => Err(HostRead::Failed),
    }
}

/// The bytes of a file, or one more than the limit where there are more.
fn some_bytes(rt: &HostRuntime, name: &str, limit: u64) -> io::Result<Vec<u8>> {
    let mut bytes = Vec::new(rt.alloc());
    let file = fs::open(rt, name)?;
    file.take(limit.saturating_add(1)).read_to_end(&mut bytes)?;
    Ok(bytes)
}
