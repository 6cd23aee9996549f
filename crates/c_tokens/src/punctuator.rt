//! Punctuators.

/// A punctuator (C99 6.4.6), without the digraphs and those of the preprocessor.
#[derive(Clone, Copy, Debug, PartialEq, Eq)]
pub enum Punctuator {
    /// `[`
    OpenSquare,
    /// `]`
    CloseSquare,
    /// `(`
    Open,
    /// `)`
    Close,
    /// `{`
    OpenBrace,
    /// `}`
    CloseBrace,
    /// `...`
    Dots,
    /// `.`
    Dot,
    /// `->`
    Arrow,
    /// `--`
    MinusMinus,
    /// `-=`
    MinusEqual,
    /// `-`
    Minus,
    /// `++`
    PlusPlus,
    /// `+=`
    PlusEqual,
    /// `+`
    Plus,
    /// `&&`
    AndAnd,
    /// `&=`
    AndEqual,
    /// `&`
    And,
    /// `*=`
    StarEqual,
    /// `*`
    Star,
    /// `~`
    Tilde,
    /// `!=`
    NotEqual,
    /// `!`
    Not,
    /// `/=`
    SlashEqual,
    /// `/`
    Slash,
    /// `%=`
    PercentEqual,
    /// `%`
    Percent,
    /// `<<=`
    ShiftLeftEqual,
    /// `<<`
    ShiftLeft,
    /// `<=`
    LessEqual,
    /// `<`
    Less,
    /// `>>=`
    ShiftRightEqual,
    /// `>>`
    ShiftRight,
    /// `>=`
    GreaterEqual,
    /// `>`
    Greater,
    /// `==`
    EqualEqual,
    /// `=`
    Equal,
    /// `^=`
    CaretEqual,
    /// `^`
    Caret,
    /// `||`
    BarBar,
    /// `|=`
    BarEqual,
    /// `|`
    Bar,
    /// `?`
    Question,
    /// `:`
    Colon,
    /// `;`
    Semicolon,
    /// `,`
    Comma,
}
