//! From bytes to lines.

use crate::fault::RowFault;
use std::io::{self, Write};

/// How many bytes stand on a line in hexadecimal.
const WIDTH: usize = 16;

fn is_printed(byte: u8) -> bool {
    byte == b'\n' || (b' '..=b'~').contains(&byte)
}

fn put_text<W: Write>(output: &mut W, bytes: &[u8]) -> io::Result<()> {
    for line in bytes.split_inclusive(|byte| *byte == b'\n') {
        match line.strip_suffix(b"\n") {
            Some(_) => {
                output.write_all(b"|")?;
                output.write_all(line)?;
            }
            None => {
                output.write_all(b":")?;
                output.write_all(line)?;
                output.write_all(b"\n")?;
            }
        }
    }
    Ok(())
}

fn put_hex<W: Write>(output: &mut W, bytes: &[u8]) -> io::Result<()> {
    for line in bytes.chunks(WIDTH) {
        output.write_all(b"hex")?;
        for byte in line {
            write!(output, " {byte:02X}")?;
        }
        output.write_all(b"\n")?;
    }
    Ok(())
}

/// Writes why a block of lines is no row, and the block.
pub fn put_no_row<W: Write>(output: &mut W, fault: RowFault, block: &str) -> io::Result<()> {
    writeln!(output, "{fault}: {block}")
}

/// Writes lines that stand for bytes: of text where each of them is printed, else in hexadecimal.
pub fn put_lines<W: Write>(output: &mut W, bytes: &[u8]) -> io::Result<()> {
    if bytes.iter().all(|byte| is_printed(*byte)) {
        put_text(output, bytes)
    } else {
        put_hex(output, bytes)
    }
}
