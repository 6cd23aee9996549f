//! Lines that are put piece by piece, with no memory taken.

ghost use Rattle.std.specs.Prelude.{map};
ghost use Rattle.std.specs.List.{concat};
ghost use Rattle.refusals.specs.Puts.{Puts};
ghost use Rattle.refusals.specs.Table.{line, line_at};

use lay_base::{Sink, SinkFault};

/// Puts pieces one after the other, as one put of them all.
pub fn put_all<E: Sink>(err: &mut E, pieces: &[&[u8]]) -> Result<(), SinkFault>
    ensures { Puts (E.faults err.old) (E.faults err.new) (E.written err.old) (E.written err.new)
        (concat (map (λ piece. piece.now) pieces.now)) result }
{
    for &piece in pieces {
        err.put(piece)?;
    }
    Ok(())
}

/// Puts the pieces of a message as a line.
pub fn put_line<E: Sink>(err: &mut E, pieces: &[&[u8]]) -> Result<(), SinkFault>
    ensures { Puts (E.faults err.old) (E.faults err.new) (E.written err.old) (E.written err.new)
        (line (map (λ piece. piece.now) pieces.now)) result }
{
    err.put(b"layc: ")?;
    put_all(err, pieces)?;
    err.put(b"\n")
}

/// Puts the pieces of a message as a line after a place.
pub fn put_line_at<E: Sink>(err: &mut E, at: &[u8], pieces: &[&[u8]]) -> Result<(), SinkFault>
    ensures { Puts (E.faults err.old) (E.faults err.new) (E.written err.old) (E.written err.new)
        (line_at at.now (map (λ piece. piece.now) pieces.now)) result }
{
    put_all(err, &[b"layc: ", at, b": "])?;
    put_all(err, pieces)?;
    err.put(b"\n")
}
