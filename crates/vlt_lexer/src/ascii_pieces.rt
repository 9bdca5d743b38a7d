//! The piece at the front of a text, where its ASCII bytes alone tell it: most pieces of most texts.

ghost use Rattle.std.specs.Prelude.{◌≡◌, ◌≢◌, ◌<◌, ◌≤◌, ◌-◌, ℕ, false, List, ◌∷◌, length, take, drop, Some, IfSome};
ghost use Rattle.std.specs.Str.{chars};
ghost use Rattle.vlt_lexer.specs.AsciiPieces.{class_of, classes_from, is_ascii_more, key_of, starts_with, word_with_key};
ghost use Rattle.vlt_lexer.specs.Steps.{run, past_run, sign_of, keyword_of, kind_of, IsFound, IsShorter};
ghost use Rattle.vlt_lexer.specs.Reading.{Reads};
ghost use Rattle.vlt_tokens.specs.Lexemes.{Lexeme};

use crate::scan::Piece;
use vlt_tokens::{Mark, TokenKind, Word};

/// What a byte is in a text.
#[derive(Clone, Copy, Debug, PartialEq, Eq)]
pub enum ByteClass {
    Blank,
    /// A letter of ASCII or `_`, which begins names and continues them.
    Letter,
    /// A digit, which continues names.
    Digit,
    /// Another ASCII character.
    Other,
    /// A part of a character that isn't ASCII.
    NonAscii,
}

// Short names for the table of classes.
const B: ByteClass = ByteClass::Blank;

const L: ByteClass = ByteClass::Letter;

const D: ByteClass = ByteClass::Digit;

const O: ByteClass = ByteClass::Other;

const N: ByteClass = ByteClass::NonAscii;

/// The class of each byte.
fn classes() -> &'static [ByteClass]
    ensures { result.now ≡ classes_from 256 0 }
{
    &[
        O, O, O, O, O, O, O, O, O, B, B, O, O, B, O, O, O, O, O, O, O, O, O, O, O, O, O, O, O, O,
        O, O, B, O, O, O, O, O, O, O, O, O, O, O, O, O, O, O, D, D, D, D, D, D, D, D, D, D, O, O,
        O, O, O, O, O, L, L, L, L, L, L, L, L, L, L, L, L, L, L, L, L, L, L, L, L, L, L, L, L, L,
        L, O, O, O, O, L, O, L, L, L, L, L, L, L, L, L, L, L, L, L, L, L, L, L, L, L, L, L, L, L,
        L, L, L, O, O, O, O, O, N, N, N, N, N, N, N, N, N, N, N, N, N, N, N, N, N, N, N, N, N, N,
        N, N, N, N, N, N, N, N, N, N, N, N, N, N, N, N, N, N, N, N, N, N, N, N, N, N, N, N, N, N,
        N, N, N, N, N, N, N, N, N, N, N, N, N, N, N, N, N, N, N, N, N, N, N, N, N, N, N, N, N, N,
        N, N, N, N, N, N, N, N, N, N, N, N, N, N, N, N, N, N, N, N, N, N, N, N, N, N, N, N, N, N,
        N, N, N, N, N, N, N, N, N, N, N, N, N, N, N, N,
    ]
}

/// The class of a byte.
fn byte_class(c: u8) -> ByteClass
    ensures { result ≡ class_of c }
{
    classes()[c as usize]
}

/// How many letters and digits stand at the front, and the key of the name that they are.
fn ascii_name(bytes: &[u8]) -> (usize, u64)
    ensures within { result.0 ≤ length bytes.now }
    ensures front { take result.0 bytes.now ≡ run is_ascii_more bytes.now }
    ensures rest { drop result.0 bytes.now ≡ past_run is_ascii_more bytes.now }
    ensures key { result.1 ≡ key_of (run is_ascii_more bytes.now) }
{
    let mut i = 0;
    let mut key = 0u64;
    while i < bytes.len() {
        let c = bytes[i];
        match byte_class(c) {
            ByteClass::Letter | ByteClass::Digit => {
                key = key.wrapping_mul(256).wrapping_add(u64::from(c));
                i += 1;
            }
            _ => break,
        }
    }
    (i, key)
}

/// The keyword with this key: its bytes, as one number.
fn keyword_with_key(key: u64) -> Option<Word>
    ensures { result ≡ word_with_key key }
{
    match key {
        0x6162_7374_7261_6374 => Some(Word::Abstract),
        0x0061_646f_7074 => Some(Word::Adopt),
        0x6173 => Some(Word::As),
        0x6265_636f_6d65 => Some(Word::Become),
        0x626f_6f6c => Some(Word::Bool),
        0x0062_7265_616b => Some(Word::Break),
        0x6361_7365 => Some(Word::Case),
        0x636f_6e74_696e_7565 => Some(Word::Continue),
        0x656c_7365 => Some(Word::Else),
        0x6578_7465_726e => Some(Word::Extern),
        0x0066_616c_7365 => Some(Word::False),
        0x0066_6f63_7573 => Some(Word::Focus),
        0x6966 => Some(Word::If),
        0x0069_6e70_7574 => Some(Word::Input),
        0x0069_6e74 => Some(Word::Int),
        0x696e_746f => Some(Word::Into),
        0x6d6f_7265 => Some(Word::More),
        0x006e_6577 => Some(Word::New),
        0x6f70_656e => Some(Word::Open),
        0x0070_7269_6e74 => Some(Word::Print),
        0x0072_656c_6561_7365 => Some(Word::Release),
        0x7265_7475_726e => Some(Word::Return),
        0x7374_6174_6573_6574 => Some(Word::Stateset),
        0x7374_7275_6374 => Some(Word::Struct),
        0x7377_6170 => Some(Word::Swap),
        0x7377_6974_6368 => Some(Word::Switch),
        0x0074_7261_636b_6564 => Some(Word::Tracked),
        0x7472_7565 => Some(Word::True),
        0x0076_6172_6961_6e74 => Some(Word::Variant),
        0x766f_6964 => Some(Word::Void),
        0x0077_6869_6c65 => Some(Word::While),
        _ => None,
    }
}

/// The sign that this character is, if no longer sign begins with it.
#[tactic(auto, unfolding(crate::specs::Steps::sign_of))]
fn single_sign(c: u8) -> Option<Mark>
    ensures sign { IfSome result (λ m.
        (cs : List ℕ) → sign_of (c ∷ cs) ≡ Some (m, cs)) }
    ensures plain { IfSome result (λ _. c ≢ 47) }
{
    match c {
        b'{' => Some(Mark::OpenBrace),
        b'}' => Some(Mark::CloseBrace),
        b'(' => Some(Mark::OpenParen),
        b')' => Some(Mark::CloseParen),
        b'[' => Some(Mark::OpenBracket),
        b']' => Some(Mark::CloseBracket),
        b',' => Some(Mark::Comma),
        b';' => Some(Mark::Semicolon),
        b':' => Some(Mark::Colon),
        b'.' => Some(Mark::Dot),
        b'@' => Some(Mark::At),
        b'+' => Some(Mark::Plus),
        b'*' => Some(Mark::Star),
        b'%' => Some(Mark::Percent),
        b'^' => Some(Mark::Xor),
        _ => None,
    }
}

/// If another character makes this sign longer: that character, this sign and the longer one.
#[tactic(auto, unfolding(crate::specs::Steps::sign_of))]
fn sign_pair(c: u8) -> Option<(u8, Mark, Mark)>
    ensures longer { IfSome result (λ r.
        (cs : List ℕ) → sign_of (c ∷ r.0 ∷ cs) ≡ Some (r.2, cs)) }
    ensures alone { IfSome result (λ r.
        (cs : List ℕ) → starts_with r.0 cs ≡ false → sign_of (c ∷ cs) ≡ Some (r.1, cs)) }
    ensures plain { IfSome result (λ r. (c ≢ 47) × (r.0 < 128)) }
{
    match c {
        b'<' => Some((b'=', Mark::Less, Mark::LessEqual)),
        b'>' => Some((b'=', Mark::Greater, Mark::GreaterEqual)),
        b'=' => Some((b'=', Mark::Assign, Mark::Equal)),
        b'!' => Some((b'=', Mark::Not, Mark::NotEqual)),
        b'-' => Some((b'>', Mark::Minus, Mark::Arrow)),
        b'&' => Some((b'&', Mark::And, Mark::AndAnd)),
        b'|' => Some((b'|', Mark::Or, Mark::OrOr)),
        _ => None,
    }
}

/// A keyword, or a name if none is spelled so. The key is that of the name.
fn kind_by_key(name: &[u8], key: u64) -> TokenKind
    requires letters { run is_ascii_more name.now ≡ name.now }
    requires key { key ≡ key_of name.now }
    ensures { result ≡ kind_of (keyword_of name.now) }
{
    // No keyword is longer, and names that aren't have keys of their own.
    if name.len() > 8 {
        return TokenKind::Name;
    }
    match keyword_with_key(key) {
        Some(word) => TokenKind::Keyword(word),
        None => TokenKind::Name,
    }
}

/// The piece at the front of the text, if ASCII bytes alone tell it.
#[inline(always)]
pub fn ascii_piece(text: &str) -> Option<Piece<'_>>
    ensures found { IfSome result (λ piece. IsFound (chars text.now) (Some piece)) }
    ensures shorter { IfSome result (λ piece. IsShorter (length text.now) (Some piece)) }
{
    let bytes = text.as_bytes();
    let first = *bytes.first()?;
    match byte_class(first) {
        ByteClass::Blank => Some(Piece::Gap(&text[1..])),
        ByteClass::Letter => {
            let (len, key) = ascii_name(bytes);
            if len < bytes.len() && bytes[len] >= 128 {
                return None;
            }
            Some(Piece::Token(kind_by_key(&bytes[..len], key), &text[len..]))
        }
        ByteClass::Other => {
            if let Some(mark) = single_sign(first) {
                return Some(Piece::Token(TokenKind::Sign(mark), &text[1..]));
            }
            let (second, alone, longer) = sign_pair(first)?;
            if bytes.len() > 1 && bytes[1] == second {
                return Some(Piece::Token(TokenKind::Sign(longer), &text[2..]));
            }
            Some(Piece::Token(TokenKind::Sign(alone), &text[1..]))
        }
        ByteClass::Digit | ByteClass::NonAscii => None,
    }
}

/// The text after the blanks at its front.
#[inline(always)]
pub fn past_blanks(text: &str) -> &str
    ensures reads { (total : ℕ) (ls : List Lexeme) (last : List ℕ) →
        Reads total (chars result.now) ls last → Reads total (chars text.now) ls last }
    ensures rest { result.now ≡ drop (length text.now - length result.now) text.now }
    ensures no_longer { length result.now ≤ length text.now }
{
    let bytes = text.as_bytes();
    let mut i = 0;
    while i < bytes.len() && byte_class(bytes[i]) == ByteClass::Blank {
        i += 1;
    }
    &text[i..]
}
