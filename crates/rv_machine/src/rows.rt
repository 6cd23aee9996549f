//! Where the segments stand among the bytes of the machine's memory.

ghost use Rattle.std.specs.Prelude.{◌≡◌, ◌+◌, ◌-◌, ◌<◌, ◌≤◌, ◌^◌, IfSome, MatchOption, false, true};
ghost use Rattle.rv_machine.specs.Rows.{Covers, allows, holds, place_in, row_at};

/// The addresses from `at` on, `size` of them, whose bytes stand from `start` on. `flags` has 1 for
/// execution, 2 for writing and 4 for reading.
#[derive(Clone, Copy)]
pub struct Row {
    pub at: u32,
    pub size: usize,
    pub start: usize,
    pub flags: u8,
}

impl Row {
    /// A row with no address.
    pub const NONE: Row = Row {
        at: 0,
        size: 0,
        start: 0,
        flags: 0,
    };

    /// Whether the row has the address.
    pub fn holds(&self, address: u64) -> bool
        ensures { result ≡ holds self.now address }
    {
        self.at as u64 <= address && address - (self.at as u64) < self.size as u64
    }

    /// The place of an address that the row has, where its bytes may be used so.
    pub fn place_at(&self, flag: u8, address: u64) -> Option<usize>
        requires held { holds self.now address ≡ true }
        requires room { self.now.start + self.now.size < 2 ^ 64 }
        ensures { MatchOption result
            (allows self.now flag ≡ false)
            (λ place. (allows self.now flag ≡ true) × (place ≡ place_in self.now address)) }
    {
        if self.allows(flag) {
            Some(self.start + (address - self.at as u64) as usize)
        } else {
            None
        }
    }

    /// Whether its bytes may be used so.
    pub fn allows(&self, flag: u8) -> bool
        ensures { result ≡ allows self.now flag }
    {
        self.flags & flag == flag
    }

    /// The places of the row at which a word may begin.
    pub fn beginnings(&self) -> Row
        ensures { result ≡ record self.now { size = self.now.size - 3 } }
    {
        Row {
            at: self.at,
            size: self.size.saturating_sub(3),
            start: self.start,
            flags: self.flags,
        }
    }

    /// The place of an address, where the row has it.
    #[inline(always)]
    pub fn place_within(&self, address: u32) -> Option<usize>
        requires end { self.now.at + self.now.size ≤ 2 ^ 32 }
        requires room { self.now.start + self.now.size < 2 ^ 64 }
        ensures { IfSome result (λ place. (holds self.now address ≡ true) × (place ≡ place_in self.now address)) }
    {
        let offset = address.wrapping_sub(self.at) as usize;
        if offset < self.size {
            Some(self.start + offset)
        } else {
            None
        }
    }

    /// The place of bytes from an address on, where the row has them all and they may be used so.
    #[inline(always)]
    pub fn place(&self, flag: u8, address: u32, width: u32) -> Option<usize>
        requires some { 0 < width }
        requires end { self.now.at + self.now.size ≤ 2 ^ 32 }
        requires room { self.now.start + self.now.size < 2 ^ 64 }
        ensures { IfSome result (λ place. Covers self.now flag address width place) }
    {
        let offset = address.wrapping_sub(self.at);
        if self.allows(flag) && offset as u64 + width as u64 <= self.size as u64 {
            Some(self.start + offset as usize)
        } else {
            None
        }
    }
}

/// Bytes that stand one after the other: the place of the first, and how many they are.
#[derive(Clone, Copy)]
pub struct Stretch {
    pub place: usize,
    pub count: u64,
}

/// The first row that has the address.
pub(crate) fn row_with(rows: &[Row], address: u64) -> Option<Row>
    ensures { result ≡ row_at rows.now address }
{
    for row in rows {
        if row.holds(address) {
            return Some(*row);
        }
    }
    None
}
