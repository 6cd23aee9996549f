//! The tags of structures that have none.

ghost use Rattle.std.specs.Prelude.{◌≡◌, ◌<◌, ◌≤◌, ◌+◌, ◌-◌, ◌^◌, ◌++◌, ℕ, List, nat_eq, ◌∷◌, All, IfOk, OnOk, length, if◌then◌else◌};
ghost use Rattle.c_tokens.specs.Lexes.{Lexes};
ghost use Rattle.c_tokens.specs.TokenPlaces.{IsPlaceIn};
ghost use Rattle.c_erasure.specs.Files.{AreAscending};
ghost use Rattle.c_erasure.specs.Untagged.{AreTags, Line, name_in, place_of_struct, tag_text};
ghost use Rattle.indexmap.specs.IndexMap.{insert_entry};
ghost use Rattle.c_scopes.specs.SyntaxTags.Untagged.{untagged_by};
ghost use Rattle.c_file_tags.specs.UntaggedStructs.Untagged.{counted_at, is_line, structs_of};

use c_lexer::{PresumedLines, tokens_have_places, tokens_have_texts};
use c_scopes::Untagged;
use c_tokens::{Presumed, Token, TokenKind};
use indexmap::IndexMap;
use itoa::Buffer;
use lay_base::{File, Keyword, Name, NoMemory, append, copied, push, put};
use std::alloc::Global;

fn add_place(places: &mut Vec<u32>, token: Token) -> Result<(), NoMemory>
    ensures { OnOk result (places.new.items ≡ places.old.items ++ place_of_struct token.kind token.from) }
{
    if let TokenKind::Keyword(Keyword::Struct) = token.kind {
        push(places, token.from)?;
    }
    Ok(())
}

/// Where the keyword `struct` stands.
fn places_of_structs(alloc: Global, tokens: &[Token]) -> Result<Vec<u32>, NoMemory>
    ensures { IfOk result (λ places. places.items ≡ structs_of tokens.now) }
{
    let mut places = Vec::new(alloc);
    for token in tokens {
        add_place(&mut places, *token)?;
    }
    Ok(places)
}

/// The name that is presumed of a place: the file's own where no marker gives one.
#[tactic(auto, using(std::proofs::lemmas::List::take_min, std::proofs::lemmas::List::drop_min))]
fn presumed_name<'a>(file: &'a File, presumed: Presumed) -> &'a [u8]
    ensures { result.now ≡ name_in file.now.name file.now.bytes presumed }
{
    if presumed.to <= presumed.from {
        return file.name.as_slice();
    }
    let bytes = file.bytes.as_slice();
    let from = (presumed.from as usize).min(bytes.len());
    let (_, after) = bytes.split_at(from);
    let size = ((presumed.to - presumed.from) as usize).min(after.len());
    let (name, _) = after.split_at(size);
    name
}

fn tag_bytes(alloc: Global, name: &[u8], line: u32, number: usize) -> Result<Vec<u8>, NoMemory>
    ensures { IfOk result (λ tag. tag.items ≡ tag_text (name.now, line) number) }
{
    let mut buffer = Buffer::new();
    let mut tag = copied(alloc, b"@")?;
    append(&mut tag, name)?;
    append(&mut tag, b":")?;
    append(&mut tag, buffer.format(line).as_bytes())?;
    append(&mut tag, b":")?;
    append(&mut tag, buffer.format(number).as_bytes())?;
    Ok(tag)
}

/// How many places are on each line: of that line there is one more.
fn count_one(
    counts: &mut IndexMap<(Vec<u8>, u32), usize>,
    alloc: Global,
    name: &[u8],
    line: u32,
) -> Result<usize, NoMemory>
    requires { counted_at counts.old.entries (name.now, line) < 2 ^ 64 - 1 }
    ensures number { IfOk result (λ n. n ≡ counted_at counts.old.entries (name.now, line) + 1) }
    ensures counted { OnOk result ((q : Line) →
        counted_at counts.new.entries q ≡ counted_at counts.old.entries q + (if is_line q (name.now, line) then 1 else 0)) }
{
    let key = (copied(alloc, name)?, line);
    let known = counts.get(&key).copied().unwrap_or(0);
    let number = known + 1;
    put(counts, key, number)?;
    Ok(number)
}

fn add_tag(
    tags: &mut IndexMap<u32, Name>,
    alloc: Global,
    at: u32,
    name: &[u8],
    line: u32,
    number: usize,
) -> Result<(), NoMemory>
    ensures { OnOk result (tags.new.entries ≡ insert_entry nat_eq tags.old.entries at (tag_text (name.now, line) number)) }
{
    let tag = tag_bytes(alloc, name, line, number)?;
    put(tags, at, Name::of(tag))
}

/// The tags of the structures that begin at these bytes.
fn untagged_at(alloc: Global, file: &File, places: &[u32]) -> Result<Untagged, NoMemory>
    requires short { length file.now.bytes ≤ 4194304 }
    requires order { AreAscending places.now }
    requires tokens { All (IsPlaceIn file.now.bytes) places.now }
    ensures are { IfOk result (λ untagged. AreTags file.now.name file.now.bytes places.now (untagged_by untagged)) }
    ensures begin { IfOk result (λ untagged. (at : ℕ) → (rest : List ℕ) × (untagged_by untagged at ≡ 64 ∷ rest)) }
{
    let mut tags = IndexMap::new(alloc);
    let mut counts = IndexMap::new(alloc);
    let mut lines = PresumedLines::new(file.bytes.as_slice());
    for at in places {
        let presumed = lines.presumed_at(*at);
        let name = presumed_name(file, presumed);
        let number = count_one(&mut counts, alloc, name, presumed.line)?;
        add_tag(&mut tags, alloc, *at, name, presumed.line, number)?;
    }
    let untagged = Untagged::of(tags);
    Ok(untagged)
}

/// The tags of the structures of a file with these tokens.
pub fn untagged_of(alloc: Global, tokens: &[Token], file: &File) -> Result<Untagged, NoMemory>
    requires short { length file.now.bytes ≤ 4194304 }
    requires tokens { Lexes file.now.bytes tokens.now }
    ensures are { IfOk result (λ untagged. AreTags file.now.name file.now.bytes (structs_of tokens.now) (untagged_by untagged)) }
    ensures begin { IfOk result (λ untagged. (at : ℕ) → (rest : List ℕ) × (untagged_by untagged at ≡ 64 ∷ rest)) }
{
    tokens_have_texts();
    tokens_have_places();
    let places = places_of_structs(alloc, tokens)?;
    untagged_at(alloc, file, &places)
}
