//! Arithmetic on pointers, and their comparison.

ghost use Rattle.std.specs.Prelude.{◌≡◌, ◌<◌, ◌==◌, ◌&&◌, pos, Ok, Err, if◌then◌else◌};
ghost use Rattle.block_memory.specs.Pointers.{are_equal, are_equal_in, difference, elements_between, is_inside, is_less, stepped, within};
ghost use Rattle.block_memory.specs.View.{memory_of};

use crate::store::Store;
use lay_base::UndefinedKind;
use memory_words::Ptr;

/// How many elements of a size lie between two offsets.
fn elements_between(from: u32, to: u32, size: u32) -> Result<i64, UndefinedKind>
    requires { 0 < size }
    ensures { result ≡ elements_between from to size }
{
    let distance = i64::from(to) - i64::from(from);
    let size = i64::from(size);
    if distance % size == 0 {
        Ok(distance / size)
    } else {
        Err(UndefinedKind::Range)
    }
}

/// How many elements of a size lie from the second pointer to the first.
pub fn difference(p: Ptr, q: Ptr, size: u32) -> Result<i64, UndefinedKind>
    requires { 0 < size }
    ensures { result ≡ difference p q size }
{
    match p {
        Ptr::Null => Err(UndefinedKind::Range),
        Ptr::Function(_) => Err(UndefinedKind::Range),
        Ptr::Block(b, at) => match q {
            Ptr::Null => Err(UndefinedKind::Range),
            Ptr::Function(_) => Err(UndefinedKind::Range),
            Ptr::Block(c, from) => {
                if b == c {
                    elements_between(from, at, size)
                } else {
                    Err(UndefinedKind::TwoBlocks)
                }
            }
        },
    }
}

impl Store {
    /// A pointer to an offset in a block, or to one past its end.
    fn within(&self, block: u64, at: i64) -> Result<Ptr, UndefinedKind>
        ensures { result ≡ within (memory_of self.now) block at }
    {
        if at < 0 || at > i64::from(self.size(block)) {
            Err(UndefinedKind::Range)
        } else {
            Ok(Ptr::Block(block, at as u32))
        }
    }

    /// So many bytes further on, or back.
    pub fn step(&self, p: Ptr, by: i64) -> Result<Ptr, UndefinedKind>
        ensures { result ≡ stepped (memory_of self.now) p by }
    {
        match p {
            Ptr::Null => {
                if by == 0 {
                    Ok(Ptr::Null)
                } else {
                    Err(UndefinedKind::Range)
                }
            }
            Ptr::Function(_) => Err(UndefinedKind::Range),
            Ptr::Block(block, at) => {
                let at = i64::from(at);
                if by > i64::from(self.size(block)) - at {
                    Err(UndefinedKind::Range)
                } else {
                    self.within(block, at + by)
                }
            }
        }
    }

    /// Whether one pointer is before another one in its block.
    pub fn is_less(&self, p: Ptr, q: Ptr) -> Result<bool, UndefinedKind>
        ensures { result ≡ is_less (memory_of self.now) p q }
    {
        match p {
            Ptr::Null => Err(UndefinedKind::Range),
            Ptr::Function(_) => Err(UndefinedKind::Range),
            Ptr::Block(b, at) => match q {
                Ptr::Null => Err(UndefinedKind::Range),
                Ptr::Function(_) => Err(UndefinedKind::Range),
                Ptr::Block(c, other) => {
                    if b != c {
                        Err(UndefinedKind::TwoBlocks)
                    } else if self.live(b) {
                        Ok(at < other)
                    } else {
                        Err(UndefinedKind::Dead)
                    }
                }
            },
        }
    }

    /// Whether a byte of a block lies at an offset.
    fn is_inside(&self, block: u64, at: u32) -> bool
        ensures { result ≡ is_inside (memory_of self.now) block at }
    {
        at < self.size(block)
    }

    /// Whether two places in blocks are one.
    fn are_equal_in(&self, b: u64, at: u32, c: u64, other: u32) -> Result<bool, UndefinedKind>
        ensures { result ≡ are_equal_in (memory_of self.now) b at c other }
    {
        let are_live = self.live(b) && self.live(c);
        let are_inside = self.is_inside(b, at) && self.is_inside(c, other);
        if !are_live {
            Err(UndefinedKind::Dead)
        } else if b == c {
            Ok(at == other)
        } else if are_inside {
            Ok(false)
        } else {
            Err(UndefinedKind::Edge)
        }
    }

    /// Whether two pointers are equal.
    pub fn are_equal(&self, p: Ptr, q: Ptr) -> Result<bool, UndefinedKind>
        ensures { result ≡ are_equal (memory_of self.now) p q }
    {
        match p {
            Ptr::Null => match q {
                Ptr::Null => Ok(true),
                Ptr::Block(_, _) => Ok(false),
                Ptr::Function(_) => Ok(false),
            },
            Ptr::Block(b, at) => match q {
                Ptr::Null => Ok(false),
                Ptr::Block(c, other) => self.are_equal_in(b, at, c, other),
                Ptr::Function(_) => Ok(false),
            },
            Ptr::Function(f) => match q {
                Ptr::Null => Ok(false),
                Ptr::Block(_, _) => Ok(false),
                Ptr::Function(g) => Ok(f == g),
            },
        }
    }
}
