//! The keywords that name a type, and in which way specifiers name one (C99 6.7.2).

ghost use Rattle.std.specs.Prelude.{◌≡◌, ◌+◌, ◌-◌, ◌<◌, ◌≤◌, ◌^◌, drop, map};
ghost use Rattle.c_ast.specs.Views.{specifier_of, specifiers_of};
ghost use Rattle.c_erasure.specs.Checking.Declaring.{base_kind as base_of, base_of_words};
ghost use Rattle.c_erasure.specs.Specifiers.{found_in, named_by, no_words, same_words, table, types_among, with_word as word_added, words_of as words_in};
ghost use Rattle.c_nodes.specs.DeclaratorTypes.WordViews.{base_view, other_added, others_in, specifier_added, words_counted, words_view};

use c_ast::{Specifier, SpecifierKeyword};
use c_types::IntKind;

/// How specifiers name a type.
#[derive(Clone, Copy)]
pub enum Base {
    Void,
    Int(IntKind),
    /// By one specifier that is no keyword of a type.
    One,
    /// They name none.
    Missing,
}

/// How often each keyword that names a type stands among specifiers.
#[derive(Clone, Copy)]
struct Words {
    void: u64,
    char: u64,
    short: u64,
    int: u64,
    long: u64,
    signed: u64,
    unsigned: u64,
}

/// How many specifiers are no keywords.
#[derive(Clone, Copy)]
enum Others {
    None,
    One,
    Several,
}

/// One keyword more.
fn with_word(word: SpecifierKeyword, w: Words) -> Words
    requires { words_counted w < 2 ^ 64 - 1 }
    ensures added { words_view result ≡ word_added word (words_view w) }
    ensures counted { words_counted result ≤ words_counted w + 1 }
{
    let mut w = w;
    match word {
        SpecifierKeyword::Void => w.void += 1,
        SpecifierKeyword::Char => w.char += 1,
        SpecifierKeyword::Short => w.short += 1,
        SpecifierKeyword::Int => w.int += 1,
        SpecifierKeyword::Long => w.long += 1,
        SpecifierKeyword::Signed => w.signed += 1,
        SpecifierKeyword::Unsigned => w.unsigned += 1,
        _ => {}
    }
    w
}

/// A specifier before others.
fn with_specifier(specifier: &Specifier, w: Words) -> Words
    requires { words_counted w < 2 ^ 64 - 1 }
    ensures added { words_view result ≡ specifier_added (specifier_of specifier.now) (words_view w) }
    ensures counted { words_counted result ≤ words_counted w + 1 }
{
    match specifier {
        Specifier::Keyword(word, _) => with_word(*word, w),
        _ => w,
    }
}

/// The keywords among specifiers.
#[tactic(auto, using(crate::proofs::DeclaratorTypes::Counting::words_step))]
fn words_of(all: &[Specifier]) -> Words
    ensures { words_view result ≡ words_in (specifiers_of (map specifier_of all.now)) }
{
    let mut words = Words {
        void: 0,
        char: 0,
        short: 0,
        int: 0,
        long: 0,
        signed: 0,
        unsigned: 0,
    };
    for i in (0..all.len()).rev() {
        words = with_specifier(&all[i], words);
    }
    words
}

/// A specifier before others.
fn with_other(specifier: &Specifier, others: Others) -> Others
    ensures { result ≡ other_added (specifier_of specifier.now) others }
{
    match specifier {
        Specifier::Keyword(_, _) => others,
        _ => match others {
            Others::None => Others::One,
            _ => Others::Several,
        },
    }
}

/// How many specifiers are no keywords.
#[tactic(auto, using(crate::proofs::DeclaratorTypes::Counting::others_step))]
fn others_of(all: &[Specifier]) -> Others
    ensures { result ≡ others_in (types_among (specifiers_of (map specifier_of all.now))) }
{
    let mut others = Others::None;
    for i in (0..all.len()).rev() {
        others = with_other(&all[i], others);
    }
    others
}

impl Words {
    /// Whether there are none.
    fn are_none(self) -> bool
        ensures { result ≡ same_words (words_view self) no_words }
    {
        self.void == 0
            && self.char == 0
            && self.short == 0
            && self.int == 0
            && self.long == 0
            && self.signed == 0
            && self.unsigned == 0
    }

    /// Whether each keyword stands so often.
    fn are(
        self,
        void: u64,
        char: u64,
        short: u64,
        int: u64,
        long: u64,
        signed: u64,
        unsigned: u64,
    ) -> bool
        ensures { result ≡ same_words
            (record { void = void; char = char; short = short; int = int; long = long; signed = signed; unsigned = unsigned }) (words_view self) }
    {
        void == self.void
            && char == self.char
            && short == self.short
            && int == self.int
            && long == self.long
            && signed == self.signed
            && unsigned == self.unsigned
    }
}

/// The type that keywords alone name.
fn named_by(w: Words) -> Base
    ensures { base_view result ≡ base_of_words (named_by (words_view w)) }
{
    if w.are(1, 0, 0, 0, 0, 0, 0) {
        Base::Void
    } else if w.are(0, 1, 0, 0, 0, 0, 0) {
        Base::Int(IntKind::Char)
    } else if w.are(0, 1, 0, 0, 0, 1, 0) {
        Base::Int(IntKind::SChar)
    } else if w.are(0, 1, 0, 0, 0, 0, 1) {
        Base::Int(IntKind::UChar)
    } else {
        short_by(w)
    }
}

/// The same, from the rows of `short` on.
fn short_by(w: Words) -> Base
    ensures { base_view result ≡ base_of_words (found_in (drop 4 table) (words_view w)) }
{
    if w.are(0, 0, 1, 0, 0, 0, 0)
        || w.are(0, 0, 1, 0, 0, 1, 0)
        || w.are(0, 0, 1, 1, 0, 0, 0)
        || w.are(0, 0, 1, 1, 0, 1, 0)
    {
        Base::Int(IntKind::Short)
    } else if w.are(0, 0, 1, 0, 0, 0, 1) || w.are(0, 0, 1, 1, 0, 0, 1) {
        Base::Int(IntKind::UShort)
    } else {
        int_by(w)
    }
}

/// The same, from the rows of `int` on.
fn int_by(w: Words) -> Base
    ensures { base_view result ≡ base_of_words (found_in (drop 10 table) (words_view w)) }
{
    if w.are(0, 0, 0, 1, 0, 0, 0) || w.are(0, 0, 0, 0, 0, 1, 0) || w.are(0, 0, 0, 1, 0, 1, 0) {
        Base::Int(IntKind::Int)
    } else if w.are(0, 0, 0, 0, 0, 0, 1) || w.are(0, 0, 0, 1, 0, 0, 1) {
        Base::Int(IntKind::UInt)
    } else {
        long_by(w)
    }
}

/// The same, from the rows of `long` on.
fn long_by(w: Words) -> Base
    ensures { base_view result ≡ base_of_words (found_in (drop 15 table) (words_view w)) }
{
    if w.are(0, 0, 0, 0, 1, 0, 0)
        || w.are(0, 0, 0, 0, 1, 1, 0)
        || w.are(0, 0, 0, 1, 1, 0, 0)
        || w.are(0, 0, 0, 1, 1, 1, 0)
    {
        Base::Int(IntKind::Long)
    } else if w.are(0, 0, 0, 0, 1, 0, 1) || w.are(0, 0, 0, 1, 1, 0, 1) {
        Base::Int(IntKind::ULong)
    } else {
        Base::Missing
    }
}

/// How specifiers name a type.
#[tactic(auto, using(crate::proofs::DeclaratorTypes::Counting::by_keywords, crate::proofs::DeclaratorTypes::Counting::by_one_other, crate::proofs::DeclaratorTypes::Counting::by_others))]
pub fn base_kind(all: &[Specifier]) -> Base
    ensures { base_view result ≡ base_of (specifiers_of (map specifier_of all.now)) }
{
    let words = words_of(all);
    match others_of(all) {
        Others::None => named_by(words),
        Others::One => {
            if words.are_none() {
                Base::One
            } else {
                Base::Missing
            }
        }
        Others::Several => Base::Missing,
    }
}
