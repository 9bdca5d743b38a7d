//! Takes one piece off the front of a text.

ghost use Rattle.std.specs.Prelude.{◌≡◌, ◌≤◌, ◌<◌, ◌+◌, ◌*◌, ◌-◌, ◌++◌, ◌∷◌, ℕ, List, [], filter, length, slice_get, true, MatchOption, Some, None, IfSome, IfOk, IfErr, encode_utf8};
ghost use Rattle.std.specs.Str.{chars};
ghost use Rattle.vlt_tokens.specs.Characters.{is_blank, is_digit, is_name_start, is_name_more, value_of, after_line, following, after_close};
ghost use Rattle.vlt_lexer.specs.Steps.{is_in, run, past_run, past_name, item_with_text, first_beginning, may_begin, keyword_of, sign_of, kind_of, IsNoComment, Holds, IsFound, IsShorter};
ghost use Rattle.vlt_tokens.specs.Spelling.{word_text, sign_text};
ghost use Rattle.vlt_tokens.specs.declared.token.TheConstants.Word as words;
ghost use Rattle.vlt_tokens.specs.declared.token.TheConstants.Mark as signs;
ghost use Rattle.vlt_lexer.specs.Reading.{IsGap, IsStuck};

use crate::ascii_pieces::ascii_piece;
use vlt_tokens::{Mark, TokenKind, Word};

/// A class of characters of which a run is taken.
#[derive(Clone, Copy, Debug, PartialEq, Eq)]
pub enum Class {
    Digit,
    NameMore,
}

/// Why nothing can be read.
#[derive(Clone, Copy, Debug, PartialEq, Eq)]
pub enum Stuck {
    BadByte,
    NumberTooLarge,
    OpenComment,
}

/// What stands at the front of a text, and the text after it.
#[derive(Clone, Copy, Debug)]
pub enum Piece<'a> {
    /// A blank or a comment.
    Gap(&'a str),
    Token(TokenKind, &'a str),
}

impl Class {
    fn has(self, c: char) -> bool
        ensures { result ≡ is_in self c }
    {
        match self {
            Class::Digit => c.is_ascii_digit(),
            Class::NameMore => continues_name(c),
        }
    }
}

fn is_blank(c: char) -> bool
    ensures { result ≡ is_blank c }
{
    matches!(c, ' ' | '\t' | '\n' | '\r')
}

// Of an ASCII character both are known without a look into the tables of Unicode.
fn starts_name(c: char) -> bool
    ensures { result ≡ is_name_start c }
{
    if c.is_ascii() {
        c.is_ascii_alphabetic() || c == '_'
    } else {
        unicode_ident::is_xid_start(c)
    }
}

fn continues_name(c: char) -> bool
    ensures { result ≡ is_name_more c }
{
    if c.is_ascii() {
        c.is_ascii_alphanumeric() || c == '_'
    } else {
        unicode_ident::is_xid_continue(c)
    }
}

/// The first character, and the text after it.
fn first(text: &str) -> Option<(char, &str)>
    ensures split { MatchOption result ((text.now ≡ []) ×
        (chars text.now ≡ [])) (λ x. (chars text.now ≡ x.0 ∷ chars x.1.now) ×
        (text.now ≡ encode_utf8 x.0 ++ x.1.now)) }
    ensures shorter { IfSome result (λ x. length x.1.now < length text.now) }
{
    let mut chars = text.chars();
    let c = chars.next()?;
    Some((c, chars.as_str()))
}

/// The text after the run of the class at its front.
fn past(class: Class, text: &str) -> &str
    ensures rest { chars result.now ≡ past_run (is_in class) (chars text.now) }
    ensures no_longer { length result.now ≤ length text.now }
{
    let mut rest = text;
    while let Some((c, after)) = first(rest) {
        if !class.has(c) {
            break;
        }
        rest = after;
    }
    rest
}

/// The text after a name that begins with this character, which stands before the text, if one does.
fn past_name_from(c: char, after: &str) -> Option<&str>
    ensures rest { MatchOption result (past_name (c ∷ chars after.now) ≡ None)
        (λ rest. past_name (c ∷ chars after.now) ≡ Some (chars rest.now)) }
    ensures shorter { IfSome result (λ rest. length rest.now ≤ length after.now) }
{
    if starts_name(c) {
        Some(past(Class::NameMore, after))
    } else {
        None
    }
}

/// The text after the name at its front, if it begins with one.
fn past_name(text: &str) -> Option<&str>
    ensures rest { MatchOption result (past_name (chars text.now) ≡ None)
        (λ rest. past_name (chars text.now) ≡ Some (chars rest.now)) }
    ensures shorter { IfSome result (λ rest. length rest.now < length text.now) }
{
    let (c, after) = first(text)?;
    past_name_from(c, after)
}

/// The text after the line at its front.
fn past_line(text: &str) -> &str
    ensures rest { chars result.now ≡ after_line (chars text.now) }
    ensures no_longer { length result.now ≤ length text.now }
{
    let mut rest = text;
    while let Some((c, after)) = first(rest) {
        if c == '\n' {
            return after;
        }
        rest = after;
    }
    rest
}

/// The text after these ASCII characters, if it begins with them.
fn following<'a>(text: &'a str, front: &[u8]) -> Option<&'a str>
    ensures rest { MatchOption result (following front.now (chars text.now) ≡ None)
        (λ rest. following front.now (chars text.now) ≡ Some (chars rest.now)) }
    ensures taken { IfSome result (λ rest.
        length rest.now + length front.now ≤ length text.now) }
{
    let mut rest = text;
    for &want in front {
        let (c, after) = first(rest)?;
        if c != char::from(want) {
            return None;
        }
        rest = after;
    }
    Some(rest)
}

/// The text after the first `*/`.
fn past_close(text: &str) -> Option<&str>
    ensures rest { MatchOption result (after_close (chars text.now) ≡ None)
        (λ rest. after_close (chars text.now) ≡ Some (chars rest.now)) }
    ensures no_longer { IfSome result (λ rest. length rest.now ≤ length text.now) }
{
    let mut rest = text;
    while let Some((_, after)) = first(rest) {
        if let Some(closed) = following(rest, b"*/") {
            return Some(closed);
        }
        rest = after;
    }
    None
}

/// A number with one more digit, while it is in range.
fn with_digit(value: Option<i64>, digit: char) -> Option<i64>
    requires { is_digit digit ≡ true }
    ensures { (n : ℕ) → Holds value n → Holds result (n * 10 + (digit - 48)) }
{
    let digit = i64::from(digit as u32 - '0' as u32);
    value?.checked_mul(10)?.checked_add(digit)
}

/// The number that the text begins with, if it is in range, and the text after its digits.
fn number(text: &str) -> (Option<i64>, &str)
    ensures value { Holds result.0 (value_of (run is_digit (chars text.now))) }
    ensures rest { chars result.1.now ≡ past_run is_digit (chars text.now) }
    ensures no_longer { length result.1.now ≤ length text.now }
{
    let mut value = Some(0);
    let mut rest = text;
    while let Some((c, after)) = first(rest) {
        if !Class::Digit.has(c) {
            break;
        }
        value = with_digit(value, c);
        rest = after;
    }
    (value, rest)
}

/// The first of the keywords that is spelled so.
fn first_spelled(words: &[Word], name: &[u8]) -> Option<Word>
    ensures { result ≡ item_with_text word_text words.now name.now }
{
    for &word in words {
        if word.text().as_bytes() == name {
            return Some(word);
        }
    }
    None
}

/// The first of the signs that begins the text, and the text after it.
fn first_begun<'a>(marks: &[Mark], text: &'a str) -> Option<(Mark, &'a str)>
    ensures sign { MatchOption result
        (first_beginning sign_text marks.now (chars text.now) ≡ None)
        (λ x. first_beginning sign_text marks.now (chars text.now) ≡ Some (x.0, chars x.1.now)) }
    ensures shorter { IfSome result (λ x. length x.1.now < length text.now) }
{
    for &mark in marks {
        if let Some(after) = following(text, mark.text().as_bytes()) {
            return Some((mark, after));
        }
    }
    None
}

/// The keywords that begin with this character.
fn words_from(first: u8) -> &'static [Word]
    ensures { result.now ≡ filter (λ w. may_begin first (word_text w)) words.ALL }
{
    match first {
        b'a' => &[Word::Abstract, Word::Adopt, Word::As],
        b'b' => &[Word::Become, Word::Bool, Word::Break],
        b'c' => &[Word::Case, Word::Continue],
        b'e' => &[Word::Else, Word::Extern],
        b'f' => &[Word::False, Word::Focus],
        b'i' => &[Word::If, Word::Input, Word::Int, Word::Into],
        b'm' => &[Word::More],
        b'n' => &[Word::New],
        b'o' => &[Word::Open],
        b'p' => &[Word::Print],
        b'r' => &[Word::Release, Word::Return],
        b's' => &[Word::Stateset, Word::Struct, Word::Swap, Word::Switch],
        b't' => &[Word::Tracked, Word::True],
        b'v' => &[Word::Variant, Word::Void],
        b'w' => &[Word::While],
        _ => &[],
    }
}

/// The keyword that is spelled so, by its first character.
#[tactic(auto, unfolding(crate::specs::Steps::keyword_of))]
fn keyword(first: u8, name: &[u8]) -> Option<Word>
    requires { Some first ≡ slice_get name.now 0 }
    ensures { result ≡ keyword_of name.now }
{
    first_spelled(words_from(first), name)
}

/// A keyword, or a name where none is spelled so.
#[tactic(auto, unfolding(crate::specs::Steps::keyword_of))]
fn keyword_or_name(name: &[u8]) -> TokenKind
    ensures { result ≡ kind_of (keyword_of name.now) }
{
    match name.first() {
        Some(first) => keyword(*first, name).map_or(TokenKind::Name, TokenKind::Keyword),
        None => TokenKind::Name,
    }
}

/// The signs that begin with this character, the longer ones first.
fn marks_from(first: char) -> &'static [Mark]
    ensures { result.now ≡ filter (λ m. may_begin first (sign_text m)) signs.ALL }
{
    match first {
        '{' => &[Mark::OpenBrace],
        '}' => &[Mark::CloseBrace],
        '(' => &[Mark::OpenParen],
        ')' => &[Mark::CloseParen],
        '[' => &[Mark::OpenBracket],
        ']' => &[Mark::CloseBracket],
        '<' => &[Mark::LessEqual, Mark::Less],
        '>' => &[Mark::GreaterEqual, Mark::Greater],
        ',' => &[Mark::Comma],
        ';' => &[Mark::Semicolon],
        ':' => &[Mark::Colon],
        '.' => &[Mark::Dot],
        '@' => &[Mark::At],
        '-' => &[Mark::Arrow, Mark::Minus],
        '=' => &[Mark::Equal, Mark::Assign],
        '+' => &[Mark::Plus],
        '*' => &[Mark::Star],
        '/' => &[Mark::Slash],
        '%' => &[Mark::Percent],
        '!' => &[Mark::NotEqual, Mark::Not],
        '&' => &[Mark::AndAnd, Mark::And],
        '|' => &[Mark::OrOr, Mark::Or],
        '^' => &[Mark::Xor],
        _ => &[],
    }
}

/// The longest sign at the front of the text, which begins with this character, and the text after it.
#[tactic(auto, unfolding(crate::specs::Steps::sign_of))]
fn sign(first: char, text: &str) -> Option<(Mark, &str)>
    requires { (cs : List ℕ) × (chars text.now ≡ first ∷ cs) }
    ensures sign { MatchOption result (sign_of (chars text.now) ≡ None)
        (λ x. sign_of (chars text.now) ≡ Some (x.0, chars x.1.now)) }
    ensures shorter { IfSome result (λ x. length x.1.now < length text.now) }
{
    first_begun(marks_from(first), text)
}

/// The text after the comment at its front, if it begins with one.
fn past_comment(text: &str) -> Result<Option<&str>, Stuck>
    ensures gap { IfOk result (λ found. MatchOption found (IsNoComment (chars text.now))
        (λ rest. IsGap (chars text.now) (chars rest.now))) }
    ensures open { IfErr result (λ stuck. IsStuck stuck (chars text.now)) }
    ensures shorter { IfOk result (λ found. IfSome found
        (λ rest. length rest.now < length text.now)) }
{
    if let Some(inside) = following(text, b"//") {
        return Ok(Some(past_line(inside)));
    }
    let Some(inside) = following(text, b"/*") else {
        return Ok(None);
    };
    match past_close(inside) {
        Some(rest) => Ok(Some(rest)),
        None => Err(Stuck::OpenComment),
    }
}

/// The number at the front of the text, which begins with a digit.
fn number_token(text: &str) -> Result<Piece<'_>, Stuck>
    requires { (c : ℕ) × (cs : List ℕ) × (chars text.now ≡ c ∷ cs) ×
        (is_digit c ≡ true) }
    ensures found { IfOk result (λ piece. IsFound (chars text.now) (Some piece)) }
    ensures stuck { IfErr result (λ stuck. IsStuck stuck (chars text.now)) }
    ensures shorter { IfOk result (λ piece. IsShorter (length text.now) (Some piece)) }
{
    match number(text) {
        (Some(n), rest) => Ok(Piece::Token(TokenKind::Number(n), rest)),
        (None, _) => Err(Stuck::NumberTooLarge),
    }
}

/// Takes one piece off the front of a text, character after character.
fn piece_by_characters(text: &str) -> Result<Option<Piece<'_>>, Stuck>
    ensures found { IfOk result (λ found. IsFound (chars text.now) found) }
    ensures stuck { IfErr result (λ stuck. IsStuck stuck (chars text.now)) }
    ensures shorter { IfOk result (λ found. IsShorter (length text.now) found) }
{
    let Some((c, after)) = first(text) else {
        return Ok(None);
    };
    if is_blank(c) {
        return Ok(Some(Piece::Gap(after)));
    }
    if c == '/'
        && let Some(rest) = past_comment(text)?
    {
        return Ok(Some(Piece::Gap(rest)));
    }
    if let Some(rest) = past_name_from(c, after) {
        let name = &text.as_bytes()[..text.len() - rest.len()];
        return Ok(Some(Piece::Token(keyword_or_name(name), rest)));
    }
    if Class::Digit.has(c) {
        return Ok(Some(number_token(text)?));
    }
    if c == '\'' {
        return match past_name(after) {
            Some(rest) => Ok(Some(Piece::Token(TokenKind::Tick, rest))),
            None => Err(Stuck::BadByte),
        };
    }
    match sign(c, text) {
        Some((mark, rest)) => Ok(Some(Piece::Token(TokenKind::Sign(mark), rest))),
        None => Err(Stuck::BadByte),
    }
}

/// Takes one piece off the front of a text.
pub fn next_piece(text: &str) -> Result<Option<Piece<'_>>, Stuck>
    ensures found { IfOk result (λ found. IsFound (chars text.now) found) }
    ensures stuck { IfErr result (λ stuck. IsStuck stuck (chars text.now)) }
    ensures shorter { IfOk result (λ found. IsShorter (length text.now) found) }
{
    match ascii_piece(text) {
        Some(piece) => Ok(Some(piece)),
        None => piece_by_characters(text),
    }
}
