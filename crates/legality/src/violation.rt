//! Violations of tests, and their order.

ghost use Rattle.std.specs.Prelude.{◌≡◌};
ghost use Rattle.c_typed.specs.RunCounts.Order.{is_less_or};
ghost use Rattle.legality.specs.Firsts.{former, row, stands_before};

use lay_base::Place;

/// The tests of a record T, in their order.
#[derive(Clone, Copy)]
pub enum Test {
    /// A conversion to `T *` from another type of pointers.
    Cstt,
    /// A conversion from `T *` to another type of pointers.
    Cstf,
    /// The address of a field, or of a part of one.
    Atkn,
    /// A `T *` as an argument of a function of the library.
    Libc,
    /// The name of a function whose type speaks of `T *`, other than as what is called.
    Ind,
    /// A `T *` as an argument of `memset`, `memcpy` or `memmove`.
    Mset,
    /// A field of T that holds a record, or a field elsewhere that holds a T.
    Nest,
    /// The size of T, or of what holds a T, other than in an allocation.
    Size,
    /// An object of type T, or an array of T in a type.
    Objt,
    /// An assignment of a whole T.
    Copy,
}

/// A test that a record violates, and where.
#[derive(Clone, Copy)]
pub struct Violation {
    pub test: Test,
    pub place: Place,
}

fn row(test: Test) -> u32
    ensures { result ≡ row test }
{
    match test {
        Test::Cstt => 0,
        Test::Cstf => 1,
        Test::Atkn => 2,
        Test::Libc => 3,
        Test::Ind => 4,
        Test::Mset => 5,
        Test::Nest => 6,
        Test::Size => 7,
        Test::Objt => 8,
        Test::Copy => 9,
    }
}

fn is_less_or(a: u32, b: u32, later: bool) -> bool
    ensures { result ≡ is_less_or a b later }
{
    a < b || (a == b && later)
}

fn stands_before(x: Violation, y: Violation) -> bool
    ensures { result ≡ stands_before x y }
{
    let at = is_less_or(x.place.at, y.place.at, row(x.test) < row(y.test));
    is_less_or(u32::from(x.place.file), u32::from(y.place.file), at)
}

/// The former of two, of which the first may be missing.
pub fn former(best: Option<Violation>, y: Violation) -> Option<Violation>
    ensures { result ≡ former best y }
{
    match best {
        None => Some(y),
        Some(x) => {
            if stands_before(y, x) {
                Some(y)
            } else {
                Some(x)
            }
        }
    }
}
