//! The text of an answer as it grows: words and parentheses, with a space between any two of them.

use std::alloc::{AllocError, Global};
use std::fmt::Debug;

/// A text of words and parentheses. A fault of memory is kept to the end, so that what writes a part of it has no early return.
#[derive(Drop)]
pub struct Writer {
    text: Vec<u8>,
    fault: Option<AllocError>,
    has_places: bool,
    // Whether what follows stands with no space before it.
    is_joined: bool,
}

impl Writer {
    /// An empty text, without places.
    pub fn new(alloc: Global) -> Writer {
        Writer {
            text: Vec::new(alloc),
            fault: None,
            has_places: false,
            is_joined: false,
        }
    }

    /// From here on places are written.
    pub fn show_places(&mut self) {
        self.has_places = true;
    }

    /// The text, if there was memory for all of it.
    pub fn written(&self) -> Result<&[u8], AllocError> {
        match self.fault {
            None => Ok(self.text.as_slice()),
            Some(fault) => Err(fault),
        }
    }

    /// Adds a text with no space before it.
    pub fn add(&mut self, text: &[u8]) {
        if let Err(fault) = self.text.extend_from_slice(text) {
            self.fault = Some(fault);
        }
    }

    /// A space, but at the start of a line, after an opening parenthesis and after a place.
    fn gap(&mut self) {
        match self.text.last() {
            None | Some(b'(') | Some(b'\n') => {}
            Some(_) if self.is_joined => {}
            Some(_) => self.add(b" "),
        }
        self.is_joined = false;
    }

    /// Text as it is.
    pub fn bytes(&mut self, text: &[u8]) {
        self.gap();
        self.add(text);
    }

    /// A word.
    pub fn word(&mut self, text: &str) {
        self.bytes(text.as_bytes());
    }

    /// A number in decimal, or a variant by its name.
    pub fn value<D: Debug>(&mut self, value: &D) {
        let mut text = String::new(*self.text.allocator());
        match write!(text, "{value:?}") {
            Ok(()) => self.word(text.as_str()),
            Err(fault) => self.fault = Some(fault),
        }
    }

    /// A number in decimal.
    pub fn number(&mut self, value: u64) {
        self.value(&value);
    }

    /// Where places are written, the byte at which what follows stands, and a colon between the two.
    pub fn place(&mut self, at: u32) {
        if self.has_places {
            self.number(u64::from(at));
            self.add(b":");
            self.is_joined = true;
        }
    }

    /// `(`, and the first word after it.
    pub fn open(&mut self, head: &str) {
        self.word("(");
        self.add(head.as_bytes());
    }

    /// The same on a line of its own.
    pub fn open_line(&mut self, head: &str) {
        self.add(b"\n");
        self.open(head);
    }

    /// `)`, with no space before it.
    pub fn close(&mut self) {
        self.add(b")");
    }
}
