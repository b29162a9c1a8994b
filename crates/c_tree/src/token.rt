//! Reserved words and punctuators.
use ido_ints::Binary;

/// A reserved word.
#[derive(Clone, Copy, PartialEq, Eq, Debug)]
pub enum Keyword {
    Mutex,
    Persistent,
    Thread,
    Lock,
    Unlock,
    Void,
    Char,
    Short,
    Int,
    Long,
    Signed,
    Unsigned,
    If,
    Else,
    While,
    Do,
    For,
    Return,
    /// Of the full language alone.
    Ref,
    /// Of the full language alone.
    Null,
}

/// A punctuator.
#[derive(Clone, Copy, PartialEq, Eq, Debug)]
pub enum Punctuator {
    /// `(`
    OpenParenthesis,
    /// `)`
    CloseParenthesis,
    /// `[`
    OpenBracket,
    /// `]`
    CloseBracket,
    /// `{`
    OpenBrace,
    /// `}`
    CloseBrace,
    /// `;`
    Semicolon,
    /// `,`
    Comma,
    /// `?`
    Question,
    /// `:`
    Colon,
    /// `~`
    Complement,
    /// `!`
    Not,
    /// An operator with two operands; `+` and `-` are also operators with one.
    Binary(Binary),
    /// `*` of the full language: it also begins the element of a reference.
    Star,
    /// `&` of the full language: it also begins the address of an element.
    Ampersand,
    /// `=`
    Assign,
    /// An operator with `=` after it: one of `+= -= *= /= %= &= |= ^= <<= >>=`.
    Update(Binary),
    /// `++`
    Increment,
    /// `--`
    Decrement,
}
