//! What the readers work with.

use c_cursor::{Failure, Typenames};
use std::alloc::Global;

/// Where a reader finds memory, the names that are types, and how deep the parts may be.
#[derive(Clone, Copy)]
pub struct Means<'a> {
    pub alloc: Global,
    pub types: &'a Typenames,
    pub inside: u16,
}

/// What is read, with its depth.
pub type Read<T> = Result<(T, u32), Failure>;

/// What is read so far, with one part more, its depth, and whether to go on.
pub type Next<T> = Result<(T, u32, bool), Failure>;

/// What a reader of one part more makes from the first, until it says not to go on.
macro_rules! all_by {
    ($next:ident($($by:ident),*), $tokens:ident; $first:expr, $rounds:expr) => {{
        let (mut all, mut d) = $first;
        let mut rounds = $rounds;
        'more: while rounds > 0 {
            let (more, e, on) = $next($($by,)* all, d, $tokens)?;
            all = more;
            d = e;
            rounds -= 1;
            if !on {
                return Ok((all, d));
            }
        }
        Err($tokens.stop())
    }};
}

pub(crate) use all_by;
