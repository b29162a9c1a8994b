//! What stands at the front of a text.
ghost use Rattle.std.specs.Prelude.{◌≡◌, ◌≤◌, length, map, nat_eq, not, ◌==◌, IfSome};
ghost use Rattle.std.specs.List.{prefix_len, starts_with};
ghost use Rattle.ido_base.specs.Places.{line_feed};
ghost use Rattle.c_tree.specs.LexicalScan.{is_word_byte, reserved, punctuators, through_comment, line_comment, closed_comment};
ghost use Rattle.c_tree.specs.LexicalScan.{word_prefix, number_prefix, punctuator_prefix, prefix_from, prefix};
ghost use Rattle.c_reader.specs.links.Prefixes.{prefix_of, keyword_in, punctuator_in};

use crate::byte::{is_blank, is_decimal, is_letter, is_word_byte};
use crate::number::number_of;
use crate::token::Lexeme;
use c_tree::rule::Rule;
use c_tree::token::{Keyword, Punctuator};
use ido_ints::Binary;

/// What stands at the front of a text.
#[derive(Clone, Copy, Drop)]
pub enum Prefix<'a> {
    /// Bytes between tokens, as many as the number says.
    Blank(usize),
    /// A token of so many bytes.
    Lexed(Lexeme<'a>, usize),
    /// A rule is broken here.
    Broken(Rule),
    /// Nothing.
    End,
}

/// The reserved words.
static RESERVED: [(&[u8], Keyword); 18] = [
    (b"mutex", Keyword::Mutex),
    (b"persistent", Keyword::Persistent),
    (b"thread", Keyword::Thread),
    (b"lock", Keyword::Lock),
    (b"unlock", Keyword::Unlock),
    (b"void", Keyword::Void),
    (b"char", Keyword::Char),
    (b"short", Keyword::Short),
    (b"int", Keyword::Int),
    (b"long", Keyword::Long),
    (b"signed", Keyword::Signed),
    (b"unsigned", Keyword::Unsigned),
    (b"if", Keyword::If),
    (b"else", Keyword::Else),
    (b"while", Keyword::While),
    (b"do", Keyword::Do),
    (b"for", Keyword::For),
    (b"return", Keyword::Return),
];

/// The punctuators, a longer one before each of its prefixes.
static PUNCTUATORS: [(&[u8], Punctuator); 43] = [
    (b"<<=", Punctuator::Update(Binary::ShiftLeft)),
    (b">>=", Punctuator::Update(Binary::ShiftRight)),
    (b"<<", Punctuator::Binary(Binary::ShiftLeft)),
    (b">>", Punctuator::Binary(Binary::ShiftRight)),
    (b"<=", Punctuator::Binary(Binary::LessEqual)),
    (b">=", Punctuator::Binary(Binary::GreaterEqual)),
    (b"==", Punctuator::Binary(Binary::Equal)),
    (b"!=", Punctuator::Binary(Binary::NotEqual)),
    (b"&&", Punctuator::Binary(Binary::LogicalAnd)),
    (b"||", Punctuator::Binary(Binary::LogicalOr)),
    (b"++", Punctuator::Increment),
    (b"--", Punctuator::Decrement),
    (b"+=", Punctuator::Update(Binary::Add)),
    (b"-=", Punctuator::Update(Binary::Sub)),
    (b"*=", Punctuator::Update(Binary::Mul)),
    (b"/=", Punctuator::Update(Binary::Div)),
    (b"%=", Punctuator::Update(Binary::Rem)),
    (b"&=", Punctuator::Update(Binary::And)),
    (b"|=", Punctuator::Update(Binary::Or)),
    (b"^=", Punctuator::Update(Binary::Xor)),
    (b"(", Punctuator::OpenParenthesis),
    (b")", Punctuator::CloseParenthesis),
    (b"[", Punctuator::OpenBracket),
    (b"]", Punctuator::CloseBracket),
    (b"{", Punctuator::OpenBrace),
    (b"}", Punctuator::CloseBrace),
    (b";", Punctuator::Semicolon),
    (b",", Punctuator::Comma),
    (b"?", Punctuator::Question),
    (b":", Punctuator::Colon),
    (b"=", Punctuator::Assign),
    (b"+", Punctuator::Binary(Binary::Add)),
    (b"-", Punctuator::Binary(Binary::Sub)),
    (b"*", Punctuator::Binary(Binary::Mul)),
    (b"/", Punctuator::Binary(Binary::Div)),
    (b"%", Punctuator::Binary(Binary::Rem)),
    (b"&", Punctuator::Binary(Binary::And)),
    (b"|", Punctuator::Binary(Binary::Or)),
    (b"^", Punctuator::Binary(Binary::Xor)),
    (b"~", Punctuator::Complement),
    (b"!", Punctuator::Not),
    (b"<", Punctuator::Binary(Binary::Less)),
    (b">", Punctuator::Binary(Binary::Greater)),
];

/// The reserved word that these bytes are, of those listed.
pub fn keyword_among(entries: &[(&[u8], Keyword)], word: &[u8]) -> Option<Keyword>
    ensures { result ≡ keyword_in (map (λ e. (e.0.now, e.1)) entries.now) word.now }
{
    for (bytes, keyword) in entries {
        if *bytes == word {
            return Some(*keyword);
        }
    }
    None
}

/// The reserved word that these bytes are.
fn keyword(word: &[u8]) -> Option<Keyword>
    ensures { result ≡ keyword_in reserved word.now }
{
    keyword_among(&RESERVED, word)
}

/// Whether these bytes stand at the front: the first one is looked at alone, since most often it is another.
#[inline(always)]
fn begins_with(text: &[u8], bytes: &[u8]) -> bool
    ensures { result ≡ starts_with nat_eq text.now bytes.now }
{
    match (text, bytes) {
        (_, []) => true,
        ([], _) => false,
        ([first, ..], [wanted, ..]) => first == wanted && text.starts_with(bytes),
    }
}

/// The first punctuator of those listed that stands at the front, and how many bytes it has.
fn punctuator_among(entries: &[(&[u8], Punctuator)], text: &[u8]) -> Option<(Punctuator, usize)>
    ensures { result ≡ punctuator_in (map (λ e. (e.0.now, e.1)) entries.now) text.now }
{
    for (bytes, punctuator) in entries {
        if begins_with(text, *bytes) {
            return Some((*punctuator, bytes.len()));
        }
    }
    None
}

/// The longest punctuator that stands at the front, and how many bytes it has. Those that begin no longer
/// one, and frequent operators before a blank, need no table.
fn punctuator(text: &[u8]) -> Option<(Punctuator, usize)>
    ensures { result ≡ punctuator_in punctuators text.now }
{
    match text {
        [b'(', ..] => Some((Punctuator::OpenParenthesis, 1)),
        [b')', ..] => Some((Punctuator::CloseParenthesis, 1)),
        [b'[', ..] => Some((Punctuator::OpenBracket, 1)),
        [b']', ..] => Some((Punctuator::CloseBracket, 1)),
        [b'{', ..] => Some((Punctuator::OpenBrace, 1)),
        [b'}', ..] => Some((Punctuator::CloseBrace, 1)),
        [b';', ..] => Some((Punctuator::Semicolon, 1)),
        [b',', ..] => Some((Punctuator::Comma, 1)),
        [b'?', ..] => Some((Punctuator::Question, 1)),
        [b':', ..] => Some((Punctuator::Colon, 1)),
        [b'~', ..] => Some((Punctuator::Complement, 1)),
        [b'=', b' ', ..] => Some((Punctuator::Assign, 1)),
        [b'+', b' ', ..] => Some((Punctuator::Binary(Binary::Add), 1)),
        [b'-', b' ', ..] => Some((Punctuator::Binary(Binary::Sub), 1)),
        [b'*', b' ', ..] => Some((Punctuator::Binary(Binary::Mul), 1)),
        [b'<', b' ', ..] => Some((Punctuator::Binary(Binary::Less), 1)),
        [b'>', b' ', ..] => Some((Punctuator::Binary(Binary::Greater), 1)),
        _ => punctuator_among(&PUNCTUATORS, text),
    }
}

/// How many bytes stand before the first `*/`, and those two; none where there is none.
fn through_comment(text: &[u8]) -> Option<usize>
    ensures value { result ≡ through_comment text.now }
    ensures bound { IfSome result (λ n. n ≤ length text.now) }
{
    let mut after_star = false;
    for (i, byte) in text.iter().enumerate() {
        if after_star && *byte == b'/' {
            return Some(i + 1);
        }
        after_star = *byte == b'*';
    }
    None
}

/// How many bytes stand before the first LF.
fn length_of_line(text: &[u8]) -> usize
    ensures value { result ≡ prefix_len (λ c. not (c == line_feed)) text.now }
    ensures bound { result ≤ length text.now }
{
    text.iter().take_while(|c| **c != b'\n').count()
}

/// A comment up to the end of its line.
fn line_comment<'a>(text: &[u8]) -> Prefix<'a>
    ensures { prefix_of result ≡ line_comment text.now }
{
    Prefix::Blank(length_of_line(text))
}

/// A comment that an end closes; without it, its `/` begins no token.
fn closed_comment<'a>(text: &[u8]) -> Prefix<'a>
    requires { 2 ≤ length text.now }
    ensures { prefix_of result ≡ closed_comment text.now }
{
    match through_comment(&text[2..]) {
        Some(bytes) => Prefix::Blank(bytes + 2),
        None => Prefix::Broken(Rule::Byte),
    }
}

/// How many word bytes stand at the front.
fn word_prefix_len(text: &[u8]) -> usize
    ensures value { result ≡ prefix_len is_word_byte text.now }
    ensures bound { result ≤ length text.now }
{
    text.iter().take_while(|c| is_word_byte(**c)).count()
}

/// The word at the front.
fn word_prefix<'a>(text: &'a [u8]) -> Prefix<'a>
    ensures { prefix_of result ≡ word_prefix text.entry.now }
{
    let length = word_prefix_len(text);
    let word = &text[..length];
    match keyword(word) {
        Some(keyword) => Prefix::Lexed(Lexeme::Keyword(keyword), length),
        None => Prefix::Lexed(Lexeme::Name(word), length),
    }
}

/// The number at the front: it has all the letters and digits that follow.
fn number_prefix<'a>(text: &[u8]) -> Prefix<'a>
    ensures { prefix_of result ≡ number_prefix text.now }
{
    let length = word_prefix_len(text);
    match number_of(&text[..length]) {
        Some(literal) => Prefix::Lexed(Lexeme::Number(literal), length),
        None => Prefix::Broken(Rule::Number),
    }
}

/// The punctuator at the front.
fn punctuator_prefix<'a>(text: &[u8]) -> Prefix<'a>
    ensures { prefix_of result ≡ punctuator_prefix text.now }
{
    match punctuator(text) {
        Some((punctuator, length)) => Prefix::Lexed(Lexeme::Punctuator(punctuator), length),
        None => Prefix::Broken(Rule::Byte),
    }
}

/// What stands at the front of a text with this first byte.
fn prefix_from<'a>(first: u8, text: &'a [u8]) -> Prefix<'a>
    ensures { prefix_of result ≡ prefix_from first text.entry.now }
{
    if is_blank(first) {
        Prefix::Blank(1)
    } else if begins_with(text, b"//") {
        line_comment(text)
    } else if begins_with(text, b"/*") {
        closed_comment(text)
    } else if is_letter(first) {
        word_prefix(text)
    } else if is_decimal(first) {
        number_prefix(text)
    } else {
        punctuator_prefix(text)
    }
}

/// What stands at the front of a text.
pub fn read_prefix<'a>(text: &'a [u8]) -> Prefix<'a>
    ensures { prefix_of result ≡ prefix text.entry.now }
{
    match text {
        [] => Prefix::End,
        [first, ..] => prefix_from(*first, text),
    }
}
