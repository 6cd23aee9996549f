//! Lines that begin with `#`.

/// What a line that begins with `#` says of the lines after it.
#[derive(Clone, Copy)]
pub enum Directive {
    /// Nothing.
    Silent,
    /// The number of the next line, and the name of its file, where there is one.
    Renumbers(u32, Option<NameRange>),
}

/// The bytes after the `#`, from `from` up to `to`, that are a file's name.
#[derive(Clone, Copy)]
pub struct NameRange {
    pub from: u32,
    pub to: u32,
}
