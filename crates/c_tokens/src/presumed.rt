//! Presumed lines and file names.

/// What line markers make of a place (C99 6.10.4): its line, and the bytes from `from` up to `to`
/// of its file that are the name of the file it is from. An empty range means the file's own name.
#[derive(Clone, Copy, Debug, PartialEq, Eq)]
pub struct Presumed {
    pub from: u32,
    pub to: u32,
    pub line: u32,
}

/// What is presumed of the line of a place, and of the next line.
#[derive(Clone, Copy)]
pub struct Lines {
    pub here: Presumed,
    pub next: Presumed,
}
