//! The memory of the machine: all its segments' bytes, and the rows that say where they stand.

ghost use Rattle.std.specs.Prelude.{◌≡◌, ◌+◌, ◌*◌, ◌≤◌, ◌^◌, All, length, slice_index};
ghost use Rattle.rv_isa.specs.Memory.{executable, readable, writable};
ghost use Rattle.rv_machine.specs.Rows.{AreSound, Begins, half_put, word_put};

use crate::rows::{Row, Stretch, row_with};

/// The flags of ELF's program header.
pub(crate) const EXECUTE: u8 = 1;

pub(crate) const WRITE: u8 = 2;

pub(crate) const READ: u8 = 4;

/// The half word at a place among bytes, the lowest byte first.
fn half_from(bytes: &[u8], place: usize) -> u16
    requires { place + 2 ≤ length bytes.now }
    ensures { result ≡ slice_index bytes.now place + 2 ^ 8 * slice_index bytes.now (place + 1) }
{
    bytes[place] as u16 + 256 * bytes[place + 1] as u16
}

/// The word at a place among bytes, the lowest byte first.
fn word_from(bytes: &[u8], place: usize) -> u32
    requires { place + 4 ≤ length bytes.now }
    ensures { result ≡ slice_index bytes.now place + 2 ^ 8 * slice_index bytes.now (place + 1)
        + 2 ^ 16 * slice_index bytes.now (place + 2) + 2 ^ 24 * slice_index bytes.now (place + 3) }
{
    bytes[place] as u32
        + 256 * bytes[place + 1] as u32
        + 65536 * bytes[place + 2] as u32
        + 16777216 * bytes[place + 3] as u32
}

/// Stores the low half word of a value at a place among bytes.
fn put_half(bytes: &mut [u8], place: usize, value: u32)
    requires { place + 2 ≤ length bytes.old }
    ensures { bytes.new ≡ half_put bytes.old place value }
{
    bytes[place] = (value % 256) as u8;
    bytes[place + 1] = (value / 256 % 256) as u8;
}

/// Stores a word at a place among bytes.
fn put_word(bytes: &mut [u8], place: usize, value: u32)
    requires { place + 4 ≤ length bytes.old }
    ensures { bytes.new ≡ word_put bytes.old place value }
{
    bytes[place] = (value % 256) as u8;
    bytes[place + 1] = (value / 256 % 256) as u8;
    bytes[place + 2] = (value / 65536 % 256) as u8;
    bytes[place + 3] = (value / 16777216) as u8;
}

/// The bytes of all segments, with a row for each.
#[derive(Drop)]
pub struct Memory {
    pub(crate) rows: Vec<Row>,
    pub(crate) bytes: Vec<u8>,
    // Where a word may begin: in the row where the last instruction was found, and for each register
    // in those where the last load and the last store at an address of its were found; or rows that
    // have no address.
    pub(crate) code: Row,
    pub(crate) loads: [Row; 32],
    pub(crate) stores: [Row; 32],
    ghost sound: { AreSound rows.items (length bytes.items) },
    ghost code_begins: { Begins rows.items (length bytes.items) executable code },
    ghost loads_begin: { All (Begins rows.items (length bytes.items) readable) loads },
    ghost stores_begin: { All (Begins rows.items (length bytes.items) writable) stores },
}

impl Memory {
    ghost use Rattle.std.specs.Prelude.{◌≡◌, ℕ, ◌+◌, ◌<◌, ◌≤◌, ◌^◌, false, true, length, IfSome, MatchOption, None, Some, if◌then◌else◌};
    ghost use Rattle.rv_isa.specs.Memory.{are_mapped, executable, half_at, is_mapped, readable, with_byte, with_half, with_word, word_at, writable};
    ghost use Rattle.rv_machine.specs.Rows.{IsFound, Serves, allows};
    ghost use Rattle.rv_machine.specs.View.{content_of, if_mapped, segments_in, IsKept};

    /// The place of a byte that may be used so, in whatever row it stands.
    fn place_of(&self, flag: u8, address: u64) -> Option<usize>
        ensures { MatchOption result
            (is_mapped (segments_in self.now) flag address ≡ false)
            (λ place. IsFound self.now.rows.items (length self.now.bytes.items) flag address 1 place) }
    {
        match row_with(&self.rows, address) {
            Some(row) => row.place_at(flag, address),
            None => None,
        }
    }

    /// The row that has all bytes from an address on, where there is one.
    fn covering(&self, flag: u8, address: u32, width: u32) -> Option<Row>
        requires { 0 < width }
        ensures { IfSome result (λ row. Serves self.now.rows.items (length self.now.bytes.items) row × (allows row flag ≡ true)
            × (row.at ≤ address) × (address + width ≤ row.at + row.size)) }
    {
        for row in &self.rows {
            if row.place(flag, address, width).is_some() {
                return Some(*row);
            }
        }
        None
    }

    /// The place of bytes that may be read, from an address of the register on, where the row that was
    /// found for it last has them.
    #[inline(always)]
    fn find_to_load(&self, register: u8, address: u32, width: u32) -> Option<usize>
        requires register { register < 32 }
        requires word { width ≤ 4 }
        ensures { IfSome result (λ place. IsFound self.now.rows.items (length self.now.bytes.items) readable address width place) }
    {
        self.loads[register as usize].place_within(address)
    }

    /// The same where any row has them, which is found by a walk over all.
    fn search_to_load(&mut self, register: u8, address: u32, width: u32) -> Option<usize>
        requires register { register < 32 }
        requires some { 0 < width }
        ensures kept { IsKept self.old self.new }
        ensures found { IfSome result (λ place. IsFound self.new.rows.items (length self.new.bytes.items) readable address width place) }
    {
        match self.covering(READ, address, width) {
            Some(row) => {
                self.loads[register as usize] = row.beginnings();
                row.place(READ, address, width)
            }
            None => None,
        }
    }

    /// The place of bytes that may be written, likewise.
    #[inline(always)]
    fn find_to_store(&self, register: u8, address: u32, width: u32) -> Option<usize>
        requires register { register < 32 }
        requires word { width ≤ 4 }
        ensures { IfSome result (λ place. IsFound self.now.rows.items (length self.now.bytes.items) writable address width place) }
    {
        self.stores[register as usize].place_within(address)
    }

    /// The same where any row has them, which is found by a walk over all.
    fn search_to_store(&mut self, register: u8, address: u32, width: u32) -> Option<usize>
        requires register { register < 32 }
        requires some { 0 < width }
        ensures kept { IsKept self.old self.new }
        ensures found { IfSome result (λ place. IsFound self.new.rows.items (length self.new.bytes.items) writable address width place) }
    {
        match self.covering(WRITE, address, width) {
            Some(row) => {
                self.stores[register as usize] = row.beginnings();
                row.place(WRITE, address, width)
            }
            None => None,
        }
    }

    /// The byte at an address, in whatever row it stands.
    fn byte_apart(&self, flag: u8, address: u64) -> Option<u8>
        ensures { result ≡ if_mapped self.now flag address 1 (content_of self.now address) }
    {
        match self.place_of(flag, address) {
            Some(place) => Some(self.bytes[place]),
            None => None,
        }
    }

    /// The half word at an address, each byte in whatever row it stands.
    fn half_apart(&self, flag: u8, address: u64) -> Option<u16>
        requires { address < 2 ^ 33 }
        ensures { result ≡ if_mapped self.now flag address 2 (half_at (content_of self.now) address) }
    {
        let low = self.byte_apart(flag, address)?;
        let high = self.byte_apart(flag, address + 1)?;
        Some(low as u16 + 256 * high as u16)
    }

    /// The word at an address, each byte in whatever row it stands.
    fn word_apart(&self, flag: u8, address: u64) -> Option<u32>
        requires { address < 2 ^ 32 }
        ensures { result ≡ if_mapped self.now flag address 4 (word_at (content_of self.now) address) }
    {
        let low = self.half_apart(flag, address)?;
        let high = self.half_apart(flag, address + 2)?;
        Some(low as u32 + 65536 * high as u32)
    }

    // What is not in the row that was found last is looked for apart, in one call, so that the quick way
    // keeps its values in registers.

    /// The byte at an address; `None` exactly where it may not be read.
    #[inline(always)]
    pub fn load_byte(&mut self, register: u8, address: u32) -> Option<u8>
        requires { register < 32 }
        ensures kept { IsKept self.old self.new }
        ensures value { result ≡ if_mapped self.old readable address 1 (content_of self.old address) }
    {
        match self.find_to_load(register, address, 1) {
            Some(place) => Some(self.bytes[place]),
            None => match self.load_byte_elsewhere(register, address) {
                Some(byte) => Some(byte),
                None => None,
            },
        }
    }

    /// The same from any row, or each byte from another.
    #[cold]
    #[inline(never)]
    fn load_byte_elsewhere(&mut self, register: u8, address: u32) -> Option<u8>
        requires { register < 32 }
        ensures kept { IsKept self.old self.new }
        ensures value { result ≡ if_mapped self.old readable address 1 (content_of self.old address) }
    {
        match self.search_to_load(register, address, 1) {
            Some(place) => Some(self.bytes[place]),
            None => self.byte_apart(READ, address as u64),
        }
    }

    /// The half word at an address; `None` exactly where one of its bytes may not be read.
    #[inline(always)]
    pub fn load_half(&mut self, register: u8, address: u32) -> Option<u16>
        requires { register < 32 }
        ensures kept { IsKept self.old self.new }
        ensures value { result ≡ if_mapped self.old readable address 2 (half_at (content_of self.old) address) }
    {
        match self.find_to_load(register, address, 2) {
            Some(place) => Some(half_from(&self.bytes, place)),
            None => match self.load_half_elsewhere(register, address) {
                Some(half) => Some(half),
                None => None,
            },
        }
    }

    /// The same from any row, or each byte from another.
    #[cold]
    #[inline(never)]
    fn load_half_elsewhere(&mut self, register: u8, address: u32) -> Option<u16>
        requires { register < 32 }
        ensures kept { IsKept self.old self.new }
        ensures value { result ≡ if_mapped self.old readable address 2 (half_at (content_of self.old) address) }
    {
        match self.search_to_load(register, address, 2) {
            Some(place) => Some(half_from(&self.bytes, place)),
            None => self.half_apart(READ, address as u64),
        }
    }

    /// The word at an address; `None` exactly where one of its bytes may not be read.
    #[inline(always)]
    pub fn load_word(&mut self, register: u8, address: u32) -> Option<u32>
        requires { register < 32 }
        ensures kept { IsKept self.old self.new }
        ensures value { result ≡ if_mapped self.old readable address 4 (word_at (content_of self.old) address) }
    {
        match self.find_to_load(register, address, 4) {
            Some(place) => Some(word_from(&self.bytes, place)),
            None => match self.load_word_elsewhere(register, address) {
                Some(word) => Some(word),
                None => None,
            },
        }
    }

    /// The same from any row, or each byte from another.
    #[cold]
    #[inline(never)]
    fn load_word_elsewhere(&mut self, register: u8, address: u32) -> Option<u32>
        requires { register < 32 }
        ensures kept { IsKept self.old self.new }
        ensures value { result ≡ if_mapped self.old readable address 4 (word_at (content_of self.old) address) }
    {
        match self.search_to_load(register, address, 4) {
            Some(place) => Some(word_from(&self.bytes, place)),
            None => self.word_apart(READ, address as u64),
        }
    }

    /// The bytes from an address on that stand in one row and may be used so, at most so many.
    pub fn stretch(&self, flag: u8, address: u64, count: u64) -> Option<Stretch>
        requires { 0 < count }
        ensures { MatchOption result
            (is_mapped (segments_in self.now) flag address ≡ false)
            (λ s. IsFound self.now.rows.items (length self.now.bytes.items) flag address s.count s.place × (0 < s.count) × (s.count ≤ count)) }
    {
        let row = row_with(&self.rows, address)?;
        let place = row.place_at(flag, address)?;
        let left = row.at as u64 + row.size as u64 - address;
        Some(Stretch {
            place,
            count: left.min(count),
        })
    }

    /// Whether all bytes from an address on may be used so.
    pub fn may_use(&self, flag: u8, address: u32, count: u32) -> bool
        ensures { result ≡ are_mapped (segments_in self.now) flag address count }
    {
        let mut next = address as u64;
        let mut left = count as u64;
        while left > 0 {
            match self.stretch(flag, next, left) {
                Some(stretch) => {
                    next += stretch.count;
                    left -= stretch.count;
                }
                None => return false,
            }
        }
        true
    }

    /// Stores the low byte of a value at an address, in whatever row it stands; `false`, and nothing is
    /// stored, exactly where it may not be.
    pub fn put(&mut self, address: u64, value: u32) -> bool
        ensures rows { self.new.rows ≡ self.old.rows }
        ensures mapped { result ≡ is_mapped (segments_in self.old) writable address }
        ensures content { content_of self.new ≡ (if result then with_byte (content_of self.old) address value else content_of self.old) }
    {
        match self.place_of(WRITE, address) {
            Some(place) => {
                self.bytes[place] = (value % 256) as u8;
                true
            }
            None => false,
        }
    }

    /// Stores the low half word of a value, each byte in whatever row it stands.
    #[cold]
    fn store_half_apart(&mut self, address: u32, value: u32) -> bool
        ensures rows { self.new.rows ≡ self.old.rows }
        ensures mapped { result ≡ are_mapped (segments_in self.old) writable address 2 }
        ensures content { content_of self.new ≡ (if result then with_half (content_of self.old) address value else content_of self.old) }
    {
        if !self.may_use(WRITE, address, 2) {
            return false;
        }
        let _ = self.put(address as u64, value);
        let _ = self.put(address as u64 + 1, value / 256);
        true
    }

    /// Stores a word, each byte in whatever row it stands.
    #[cold]
    fn store_word_apart(&mut self, address: u32, value: u32) -> bool
        ensures rows { self.new.rows ≡ self.old.rows }
        ensures mapped { result ≡ are_mapped (segments_in self.old) writable address 4 }
        ensures content { content_of self.new ≡ (if result then with_word (content_of self.old) address value else content_of self.old) }
    {
        if !self.may_use(WRITE, address, 4) {
            return false;
        }
        let _ = self.put(address as u64, value);
        let _ = self.put(address as u64 + 1, value / 256);
        let _ = self.put(address as u64 + 2, value / 65536);
        let _ = self.put(address as u64 + 3, value / 16777216);
        true
    }

    /// Stores the low byte of a value; `false`, and nothing is stored, exactly where it may not be.
    #[inline(always)]
    pub fn store_byte(&mut self, register: u8, address: u32, value: u32) -> bool
        requires { register < 32 }
        ensures rows { self.new.rows ≡ self.old.rows }
        ensures mapped { result ≡ are_mapped (segments_in self.old) writable address 1 }
        ensures content { content_of self.new ≡ (if result then with_byte (content_of self.old) address value else content_of self.old) }
    {
        match self.find_to_store(register, address, 1) {
            Some(place) => {
                self.bytes[place] = (value % 256) as u8;
                true
            }
            None => self.store_byte_elsewhere(register, address, value),
        }
    }

    /// The same into any row, or each byte into another.
    #[cold]
    #[inline(never)]
    fn store_byte_elsewhere(&mut self, register: u8, address: u32, value: u32) -> bool
        requires { register < 32 }
        ensures rows { self.new.rows ≡ self.old.rows }
        ensures mapped { result ≡ are_mapped (segments_in self.old) writable address 1 }
        ensures content { content_of self.new ≡ (if result then with_byte (content_of self.old) address value else content_of self.old) }
    {
        match self.search_to_store(register, address, 1) {
            Some(place) => {
                self.bytes[place] = (value % 256) as u8;
                true
            }
            None => self.put(address as u64, value),
        }
    }

    /// Stores the low half word of a value; `false`, and nothing is stored, exactly where one of its
    /// bytes may not be.
    #[inline(always)]
    pub fn store_half(&mut self, register: u8, address: u32, value: u32) -> bool
        requires { register < 32 }
        ensures rows { self.new.rows ≡ self.old.rows }
        ensures mapped { result ≡ are_mapped (segments_in self.old) writable address 2 }
        ensures content { content_of self.new ≡ (if result then with_half (content_of self.old) address value else content_of self.old) }
    {
        match self.find_to_store(register, address, 2) {
            Some(place) => {
                put_half(&mut self.bytes, place, value);
                true
            }
            None => self.store_half_elsewhere(register, address, value),
        }
    }

    /// The same into any row, or each byte into another.
    #[cold]
    #[inline(never)]
    fn store_half_elsewhere(&mut self, register: u8, address: u32, value: u32) -> bool
        requires { register < 32 }
        ensures rows { self.new.rows ≡ self.old.rows }
        ensures mapped { result ≡ are_mapped (segments_in self.old) writable address 2 }
        ensures content { content_of self.new ≡ (if result then with_half (content_of self.old) address value else content_of self.old) }
    {
        match self.search_to_store(register, address, 2) {
            Some(place) => {
                put_half(&mut self.bytes, place, value);
                true
            }
            None => self.store_half_apart(address, value),
        }
    }

    /// Stores a word; `false`, and nothing is stored, exactly where one of its bytes may not be.
    #[inline(always)]
    pub fn store_word(&mut self, register: u8, address: u32, value: u32) -> bool
        requires { register < 32 }
        ensures rows { self.new.rows ≡ self.old.rows }
        ensures mapped { result ≡ are_mapped (segments_in self.old) writable address 4 }
        ensures content { content_of self.new ≡ (if result then with_word (content_of self.old) address value else content_of self.old) }
    {
        match self.find_to_store(register, address, 4) {
            Some(place) => {
                put_word(&mut self.bytes, place, value);
                true
            }
            None => self.store_word_elsewhere(register, address, value),
        }
    }

    /// The same into any row, or each byte into another.
    #[cold]
    #[inline(never)]
    fn store_word_elsewhere(&mut self, register: u8, address: u32, value: u32) -> bool
        requires { register < 32 }
        ensures rows { self.new.rows ≡ self.old.rows }
        ensures mapped { result ≡ are_mapped (segments_in self.old) writable address 4 }
        ensures content { content_of self.new ≡ (if result then with_word (content_of self.old) address value else content_of self.old) }
    {
        match self.search_to_store(register, address, 4) {
            Some(place) => {
                put_word(&mut self.bytes, place, value);
                true
            }
            None => self.store_word_apart(address, value),
        }
    }

    /// The word of the instruction at an address, where the row of the last instruction has it.
    #[inline(always)]
    pub fn code_word(&self, pc: u32) -> Option<u32>
        ensures { IfSome result (λ word. Some word ≡ if_mapped self.now executable pc 4 (word_at (content_of self.now) pc)) }
    {
        match self.code.place_within(pc) {
            Some(place) => Some(word_from(&self.bytes, place)),
            None => None,
        }
    }

    /// The word of the instruction at an address, in whatever rows it stands; `None` exactly where one of
    /// its bytes may not be executed.
    pub fn fetch(&mut self, pc: u32) -> Option<u32>
        ensures kept { IsKept self.old self.new }
        ensures value { result ≡ if_mapped self.old executable pc 4 (word_at (content_of self.old) pc) }
    {
        if let Some(row) = self.covering(EXECUTE, pc, 4) {
            self.code = row.beginnings();
        }
        self.word_apart(EXECUTE, pc as u64)
    }

    /// Whether the word of an instruction at an address stays, since all of it stands in a row that may
    /// not be written.
    pub fn stays(&self, pc: u32) -> bool
        ensures { result ≡ true → (k : ℕ) → k < 4 → is_mapped (segments_in self.now) writable (pc + k) ≡ false }
    {
        match self.covering(EXECUTE, pc, 4) {
            Some(row) => !row.allows(WRITE),
            None => false,
        }
    }
}
