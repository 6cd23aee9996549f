//! The tags of a file as text, by each look-up.

use c_scopes::Tags;
use c_tokens::{Token, TokenKind};
use row_lines::Writer;

/// What stands in place of a tag at a byte where no structure begins.
const NO_TAG: &[u8] = b"@";

/// The last byte before an end at which a tag is not known.
fn last_unknown(tags: &Tags, name: &[u8], end: u32) -> Option<u32> {
    let mut last = None;
    for at in 0..end {
        if tags.tag_at(name, at).is_some() {
            break;
        }
        last = Some(at);
    }
    last
}

/// The number of a structure, where there is one.
fn put_number(out: &mut Writer, number: Option<usize>) {
    match number {
        Some(number) => out.value(&number),
        None => out.word("none"),
    }
}

/// A tag, where this is its first place: that place, the byte from which on it is known, and the number of its structure.
fn put_tag(out: &mut Writer, tags: &Tags, name: &[u8], at: u32, end: u32) {
    if tags.place_of_tag(name) != Some(at) {
        return;
    }
    let Some(from) = last_unknown(tags, name, end) else {
        return out.word("known before the first byte");
    };
    out.open(match tags.tag_at(name, from.saturating_add(1)) {
        Some(true) => "enum",
        Some(false) => "struct",
        None => "unknown",
    });
    out.bytes(name);
    out.number(u64::from(at));
    out.number(u64::from(from));
    put_number(out, tags.number_of(name));
    out.close();
}

/// The tag of a token, where it is one.
fn put_token(out: &mut Writer, tags: &Tags, text: &[u8], token: &Token, end: u32) {
    if token.kind != TokenKind::Name {
        return;
    }
    if let Some(name) = text.get(token.from as usize..token.to as usize) {
        put_tag(out, tags, name, token.from, end);
    }
}

/// The tag that a structure without one has, if a structure begins at a byte.
fn put_untagged(out: &mut Writer, tags: &Tags, at: u32, end: u32) {
    let name = tags.untagged(at);
    if name == NO_TAG {
        return;
    }
    out.open("untagged");
    out.number(u64::from(at));
    out.bytes(name);
    out.close();
    put_tag(out, tags, name, at, end);
}

/// A byte at which a definition ends.
fn put_end(out: &mut Writer, tags: &Tags, at: u32) {
    let before = tags.ended(at);
    if tags.ended(at.saturating_add(1)) > before {
        out.open("end");
        out.number(u64::from(at));
        out.value(&before);
        out.close();
    }
}

/// How many tags, definitions and numbered structures there are.
fn put_counts(out: &mut Writer, tags: &Tags) {
    out.value(&tags.tags());
    out.value(&tags.definitions());
    out.value(&tags.structures());
}

/// The tags that are names; then, byte by byte, those of structures without one and the ends of definitions; and how many there are.
pub fn put_tags(out: &mut Writer, tags: &Tags, text: &[u8], tokens: &[Token]) {
    let end = u32::try_from(text.len()).unwrap_or(u32::MAX);
    for token in tokens {
        put_token(out, tags, text, token, end);
    }
    for at in 0..end {
        put_untagged(out, tags, at, end);
        put_end(out, tags, at);
    }
    put_counts(out, tags);
}
