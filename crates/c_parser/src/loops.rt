//! The loops of the readers.

/// The list that a reader of one more makes from the first items, until it says not to go on.
macro_rules! all_by {
    ($next:ident, $by:ident, $tokens:ident, $first:expr, $depth:expr) => {{
        let mut all = $first;
        let mut d = $depth;
        let mut rounds = $tokens.len() as u64 + 1;
        'more: while rounds > 0 {
            let (more, e, on) = $next($by, all, d, $tokens)?;
            all = more;
            d = e;
            rounds -= 1;
            if !on {
                return Ok((all, d));
            }
        }
        Err($tokens.stop())
    }};
}

pub(crate) use all_by;
