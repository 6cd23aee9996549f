//! The spelling of keywords.

ghost use Rattle.std.specs.Prelude.{◌≡◌, ◌+◌, ◌<◌, [], map, length, get_or};
ghost use Rattle.lay_base.specs.KeywordScan.{begins_with_underscore, found_in, keyword_of, left_out_of, number_from};
ghost use Rattle.lay_base.specs.Keywords.{keyword_text};
ghost use Rattle.lay_base.specs.declared.faults.Keyword.TheVariants as K;

use crate::faults::Keyword;

/// The keywords that the language has, with their spelling.
static KEPT: [(&[u8], Keyword); 27] = [
    (b"auto", Keyword::Auto),
    (b"break", Keyword::Break),
    (b"case", Keyword::Case),
    (b"char", Keyword::Char),
    (b"const", Keyword::Const),
    (b"continue", Keyword::Continue),
    (b"default", Keyword::Default),
    (b"do", Keyword::Do),
    (b"else", Keyword::Else),
    (b"enum", Keyword::Enum),
    (b"extern", Keyword::Extern),
    (b"for", Keyword::For),
    (b"if", Keyword::If),
    (b"int", Keyword::Int),
    (b"long", Keyword::Long),
    (b"register", Keyword::Register),
    (b"return", Keyword::Return),
    (b"short", Keyword::Short),
    (b"signed", Keyword::Signed),
    (b"sizeof", Keyword::Sizeof),
    (b"static", Keyword::Static),
    (b"struct", Keyword::Struct),
    (b"switch", Keyword::Switch),
    (b"typedef", Keyword::Typedef),
    (b"unsigned", Keyword::Unsigned),
    (b"void", Keyword::Void),
    (b"while", Keyword::While),
];

/// The spelling of the keywords that it leaves out, by their numbers: those that begin with no underscore, the others of C99, of C11 and of GCC, and
/// some beside these.
static LEFT_OUT: [&[u8]; 88] = [
    b"double",
    b"float",
    b"goto",
    b"inline",
    b"restrict",
    b"union",
    b"volatile",
    b"asm",
    b"typeof",
    b"_Bool",
    b"_Complex",
    b"_Imaginary",
    b"_Alignas",
    b"_Alignof",
    b"_Atomic",
    b"_Generic",
    b"_Noreturn",
    b"_Static_assert",
    b"_Thread_local",
    b"__alignof",
    b"__alignof__",
    b"__asm",
    b"__asm__",
    b"__attribute",
    b"__attribute__",
    b"__auto_type",
    b"__complex",
    b"__complex__",
    b"__const",
    b"__const__",
    b"__extension__",
    b"__imag",
    b"__imag__",
    b"__inline",
    b"__inline__",
    b"__int128",
    b"__int128__",
    b"__label__",
    b"__null",
    b"__real",
    b"__real__",
    b"__restrict",
    b"__restrict__",
    b"__signed",
    b"__signed__",
    b"__thread",
    b"__typeof",
    b"__typeof__",
    b"__volatile",
    b"__volatile__",
    b"__transaction_atomic",
    b"__transaction_cancel",
    b"__transaction_relaxed",
    b"__GIMPLE",
    b"__PHI",
    b"__RTL",
    b"__builtin_assoc_barrier",
    b"__builtin_call_with_static_chain",
    b"__builtin_choose_expr",
    b"__builtin_complex",
    b"__builtin_convertvector",
    b"__builtin_has_attribute",
    b"__builtin_offsetof",
    b"__builtin_shuffle",
    b"__builtin_shufflevector",
    b"__builtin_tgmath",
    b"__builtin_types_compatible_p",
    b"__builtin_va_arg",
    b"_Accum",
    b"_Decimal32",
    b"_Decimal64",
    b"_Decimal128",
    b"_Float16",
    b"_Float32",
    b"_Float32x",
    b"_Float64",
    b"_Float64x",
    b"_Float128",
    b"_Float128x",
    b"_Fract",
    b"_Sat",
    b"__builtin_va_list",
    b"__float80",
    b"__float128",
    b"__int128_t",
    b"__uint128_t",
    b"_BitInt",
    b"_Pragma",
];

/// The first of them, which begin with no underscore.
static LEFT_OUT_PLAIN: [&[u8]; 9] = [
    b"double",
    b"float",
    b"goto",
    b"inline",
    b"restrict",
    b"union",
    b"volatile",
    b"asm",
    b"typeof",
];

#[tactic(auto, unfolding(crate::specs::KeywordScan::found_in))]
fn found_in(rows: &[(&[u8], Keyword)], word: &[u8]) -> Option<Keyword>
    ensures { result ≡ found_in (map (λ row. (row.0.now, row.1)) rows.now) word.now }
{
    for row in rows {
        if row.0 == word {
            return Some(row.1);
        }
    }
    None
}

#[tactic(auto, unfolding(crate::specs::KeywordScan::number_from))]
fn number_of(texts: &[&[u8]], word: &[u8]) -> Option<Keyword>
    requires { length texts.now < 256 }
    ensures { result ≡ number_from 0 (map (λ text. text.now) texts.now) word.now }
{
    for (number, text) in texts.iter().enumerate() {
        if *text == word {
            return Some(Keyword::LeftOut(number as u8));
        }
    }
    None
}

fn begins_with_underscore(word: &[u8]) -> bool
    ensures { result ≡ begins_with_underscore word.now }
{
    match word {
        [first, ..] => *first == b'_',
        [] => false,
    }
}

fn left_out_of(word: &[u8]) -> Option<Keyword>
    ensures { result ≡ left_out_of word.now }
{
    if begins_with_underscore(word) {
        number_of(LEFT_OUT.as_slice(), word)
    } else {
        number_of(LEFT_OUT_PLAIN.as_slice(), word)
    }
}

/// The keyword that a word is.
#[tactic(auto, unfolding(crate::specs::KeywordScan::keyword_of))]
pub fn keyword_of(word: &[u8]) -> Option<Keyword>
    ensures { result ≡ keyword_of word.now }
{
    match found_in(KEPT.as_slice(), word) {
        Some(keyword) => Some(keyword),
        None => left_out_of(word),
    }
}

/// The text of that number, which is empty where there are fewer.
#[tactic(auto, using(crate::proofs::Spellings::text_there, crate::proofs::Spellings::text_past))]
fn text_at(texts: &'static [&'static [u8]], number: u8) -> &'static [u8]
    ensures { result.now ≡ get_or (map (λ text. text.now) texts.now) number [] }
{
    if (number as usize) < texts.len() {
        texts[number as usize]
    } else {
        b""
    }
}

/// The spelling of a keyword that the language leaves out.
fn left_out_text(number: u8) -> &'static [u8]
    ensures { result.now ≡ keyword_text (K.LeftOut number) }
{
    text_at(LEFT_OUT.as_slice(), number)
}

/// The spelling of a keyword.
pub fn keyword_text(keyword: Keyword) -> &'static [u8]
    ensures { result.now ≡ keyword_text keyword }
{
    match keyword {
        Keyword::Auto => b"auto",
        Keyword::Break => b"break",
        Keyword::Case => b"case",
        Keyword::Char => b"char",
        Keyword::Const => b"const",
        Keyword::Continue => b"continue",
        Keyword::Default => b"default",
        Keyword::Do => b"do",
        Keyword::Else => b"else",
        Keyword::Enum => b"enum",
        Keyword::Extern => b"extern",
        Keyword::For => b"for",
        Keyword::If => b"if",
        Keyword::Int => b"int",
        Keyword::Long => b"long",
        Keyword::Register => b"register",
        Keyword::Return => b"return",
        Keyword::Short => b"short",
        Keyword::Signed => b"signed",
        Keyword::Sizeof => b"sizeof",
        Keyword::Static => b"static",
        Keyword::Struct => b"struct",
        Keyword::Switch => b"switch",
        Keyword::Typedef => b"typedef",
        Keyword::Unsigned => b"unsigned",
        Keyword::Void => b"void",
        Keyword::While => b"while",
        Keyword::LeftOut(number) => left_out_text(number),
    }
}
