//! The faults of files, as text.

use lay_base::{File, Name, Place, keyword_text};
use lay_compile::{CheckFault, CompileFault, Gap, LexFault, ParseFault, Trouble};
use row_lines::Writer;

/// What the text of a place depends on.
#[derive(Clone, Copy)]
pub struct Spots<'a> {
    pub files: &'a [File],
    /// Bytes of which any may be named in place of another.
    pub places: &'a [u32],
}

/// A byte; or, where it is one of several that may be named, all of them.
fn put_byte(out: &mut Writer, places: &[u32], at: u32) {
    if !places.contains(&at) {
        return out.number(u64::from(at));
    }
    let mut before = "";
    for place in places {
        if !before.is_empty() {
            out.word(before);
        }
        out.number(u64::from(*place));
        before = "or";
    }
}

/// `at`, the name of the file, and the byte.
pub fn put_place(out: &mut Writer, spots: Spots<'_>, place: Place) {
    out.word("at");
    match spots.files.get(place.file as usize) {
        Some(file) => out.bytes(file.name.as_slice()),
        None => out.word("no file"),
    }
    put_byte(out, spots.places, place.at);
}

/// A fault that names something, with the place of it and where it stood first.
fn put_again(out: &mut Writer, word: &str, name: &Name, spots: Spots<'_>, places: [Place; 2]) {
    out.word(word);
    out.bytes(name.as_slice());
    put_place(out, spots, places[0]);
    out.word("first");
    put_place(out, spots, places[1]);
}

fn put_lexical(out: &mut Writer, spots: Spots<'_>, file: u16, fault: LexFault) {
    let (word, at) = match fault {
        LexFault::BadByte(at) => ("BadByte", at),
        LexFault::BadLiteral(at) => ("BadLiteral", at),
        LexFault::Unclosed(at) => ("Unclosed", at),
        LexFault::TooWide(at) => ("TooWide", at),
        LexFault::Memory(_) => return out.word("out of memory"),
    };
    out.word(word);
    put_place(out, spots, Place { file, at });
}

/// Where a file is no tree nothing is promised of the place, so it is left out.
fn put_syntactic(out: &mut Writer, spots: Spots<'_>, fault: ParseFault) {
    match fault {
        ParseFault::NoParse(_) => out.word("NoParse"),
        ParseFault::Unsupported(keyword, place) => {
            out.word("Unsupported");
            out.bytes(keyword_text(keyword));
            put_place(out, spots, place);
        }
        ParseFault::Memory(_) => out.word("out of memory"),
    }
}

fn put_of_types(out: &mut Writer, spots: Spots<'_>, fault: &CheckFault) {
    match fault {
        CheckFault::TooBig(place) => {
            out.word("TooBig");
            put_place(out, spots, *place);
        }
        CheckFault::IllTyped(rule, place) => {
            out.value(rule);
            put_place(out, spots, *place);
        }
        CheckFault::Undeclared(name, place) => {
            out.word("Undeclared");
            out.bytes(name.as_slice());
            put_place(out, spots, *place);
        }
        CheckFault::Redeclared(name, place, first) => {
            put_again(out, "Redeclared", name, spots, [*place, *first]);
        }
        CheckFault::Memory(_) => out.word("out of memory"),
    }
}

fn put_trouble(out: &mut Writer, word: &str, spots: Spots<'_>, trouble: &Trouble) {
    put_again(
        out,
        word,
        &trouble.name,
        spots,
        [trouble.place, trouble.first],
    );
}

fn put_gap(out: &mut Writer, spots: Spots<'_>, gap: &Gap) {
    match gap {
        Gap::TagClash(trouble) => put_trouble(out, "TagClash", spots, trouble),
        Gap::NameClash(trouble) => put_trouble(out, "NameClash", spots, trouble),
        Gap::Twice(trouble) => put_trouble(out, "Twice", spots, trouble),
        Gap::Missing(name) => {
            out.word("Missing");
            out.bytes(name.as_slice());
        }
        Gap::NoMain => out.word("NoMain"),
        Gap::Limit(passed) => {
            out.word("Limit");
            out.value(&passed.which);
            out.value(&passed.counted);
        }
        Gap::Memory(_) => out.word("out of memory"),
    }
}

/// Why files are no program.
pub fn put_fault(out: &mut Writer, spots: Spots<'_>, fault: &CompileFault) {
    match fault {
        CompileFault::Lexical(file, fault) => put_lexical(out, spots, *file, *fault),
        CompileFault::Syntax(fault) => put_syntactic(out, spots, *fault),
        CompileFault::Types(fault) => put_of_types(out, spots, fault),
        CompileFault::Joining(gap) => put_gap(out, spots, gap),
        CompileFault::Memory(_) => out.word("out of memory"),
    }
}
