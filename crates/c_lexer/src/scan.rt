//! From bytes to one token after another.

ghost use Rattle.std.specs.Prelude.{◌≡◌, ◌≤◌, ◌<◌, ◌+◌, ◌^◌, ◌-◌, ℕ, [], ◌∷◌, length, map, filter, drop, MatchOption, Some, None, IfSome, OnOk};
ghost use Rattle.c_syntax.specs.Tokens as t;
ghost use Rattle.c_syntax.specs.Text.{before_mark, first_beginning, following, fixed_piece, is_run_byte, max_number, letter_token, number_of, named_token, Piece, past_run, piece, prim_of, quoted_piece, run, run_token, sign_piece, item_with_text, with_digit, word_of, digits_after, is_text_name};
ghost use Rattle.c_syntax.specs.Tokens.{prim_text, word_text, token_text};
ghost use Rattle.c_syntax.specs.declared.token.TheConstants.CWord as words;
ghost use Rattle.c_syntax.specs.declared.program.TheConstants.CPrim as prims;
ghost use Rattle.c_lexer.specs.declared.scan.TheConstants.Mark as marks;
ghost use Rattle.c_lexer.specs.View.{token_of, lexemes_of};
ghost use Rattle.c_lexer.specs.Steps.{mark_token, is_in, may_begin, AreOthers, IsFirst, IsPiece, first_piece};

use crate::token::{Lexeme, Token};
use c_syntax::{CName, CPrim, CSign, CVar, CWord};
use vlt_base::Memory;
use vlt_ops::{Op, row};

/// The largest number.
const MAX_NUMBER: u64 = 9_223_372_036_854_775_807;

/// A class of bytes of which a run is taken.
#[derive(Clone, Copy)]
enum Class {
    Blank,
    Run,
}

/// A sign.
#[derive(Clone, Copy)]
enum Mark {
    Sign(CSign),
    Operator(Op),
}

impl Class {
    fn has(self, byte: u8) -> bool
        ensures { result ≡ is_in self byte }
    {
        match self {
            Class::Blank => byte == b' ' || byte == b'\n',
            Class::Run => byte.is_ascii_alphanumeric() || byte == b'_',
        }
    }
}

impl Mark {
    /// All signs, the longer ones first.
    const ALL: [Mark; 27] = [
        Mark::Sign(CSign::Arrow),
        Mark::Operator(Op::And),
        Mark::Operator(Op::Or),
        Mark::Operator(Op::Equal),
        Mark::Operator(Op::NotEqual),
        Mark::Operator(Op::LessOrEqual),
        Mark::Operator(Op::GreaterOrEqual),
        Mark::Sign(CSign::OpenBrace),
        Mark::Sign(CSign::CloseBrace),
        Mark::Sign(CSign::OpenParen),
        Mark::Sign(CSign::CloseParen),
        Mark::Sign(CSign::OpenBracket),
        Mark::Sign(CSign::CloseBracket),
        Mark::Sign(CSign::Semicolon),
        Mark::Sign(CSign::Comma),
        Mark::Sign(CSign::Assign),
        Mark::Operator(Op::Not),
        Mark::Operator(Op::Multiply),
        Mark::Operator(Op::Divide),
        Mark::Operator(Op::Remainder),
        Mark::Operator(Op::Add),
        Mark::Operator(Op::Subtract),
        Mark::Operator(Op::Less),
        Mark::Operator(Op::Greater),
        Mark::Operator(Op::BitAnd),
        Mark::Operator(Op::BitXor),
        Mark::Operator(Op::BitOr),
    ];

    fn text(self) -> &'static str
        ensures { result.now ≡ token_text (mark_token self) }
    {
        match self {
            Mark::Sign(sign) => sign.text(),
            Mark::Operator(op) => row(op).sign,
        }
    }

    fn token<'a>(self) -> Token<'a>
        ensures { token_of result ≡ mark_token self }
    {
        match self {
            Mark::Sign(sign) => Token::Sign(sign),
            Mark::Operator(op) => Token::Operator(op),
        }
    }
}

/// What is left after the run of the class that a text begins with.
fn past(class: Class, text: &[u8]) -> &[u8]
    ensures rest { result.now ≡ past_run (is_in class) text.now }
    ensures no_longer { length result.now ≤ length text.now }
{
    let mut rest = text;
    while let Some((&byte, after)) = rest.split_first() {
        if !class.has(byte) {
            break;
        }
        rest = after;
    }
    rest
}

/// The run of letters, digits and `_` that a text begins with, by what is left after it.
#[tactic(auto, using(crate::proofs::Runs::run_is))]
fn run_before<'a>(text: &'a [u8], rest: &[u8]) -> &'a [u8]
    requires left { rest.now ≡ past_run is_run_byte text.now }
    requires no_longer { length rest.now ≤ length text.now }
    ensures { result.now ≡ run is_run_byte text.now }
{
    &text[..text.len() - rest.len()]
}

/// What stands after this prefix, if the text begins with it.
fn following<'a>(text: &'a [u8], prefix: &[u8]) -> Option<&'a [u8]>
    ensures rest { MatchOption result (following prefix.now text.now ≡ None)
        (λ rest. following prefix.now text.now ≡ Some rest.now) }
    ensures taken { IfSome result (λ rest.
        length rest.now + length prefix.now ≤ length text.now) }
{
    let mut rest = text;
    for &expected in prefix {
        let (&byte, after) = rest.split_first()?;
        if byte != expected {
            return None;
        }
        rest = after;
    }
    Some(rest)
}

/// A number with one more digit.
fn with_digit(n: u64, byte: u8) -> Option<u64>
    requires { n ≤ max_number }
    ensures value { result ≡ with_digit n byte }
    ensures small { IfSome result (λ m. m ≤ max_number) }
{
    if !byte.is_ascii_digit() {
        return None;
    }
    let next = n.checked_mul(10)?.checked_add(u64::from(byte - b'0'))?;
    if next > MAX_NUMBER {
        return None;
    }
    Some(next)
}

/// The number that these digits make.
fn digits(run: &[u8]) -> Option<u64>
    ensures value { result ≡ digits_after 0 run.now }
    ensures small { IfSome result (λ n. n ≤ max_number) }
{
    let mut n = 0;
    for &byte in run {
        n = with_digit(n, byte)?;
    }
    Some(n)
}

/// The number that a run is.
fn number(run: &[u8]) -> Option<u64>
    ensures value { result ≡ number_of run.now }
    ensures small { IfSome result (λ n. n ≤ max_number) }
{
    match run {
        [] => None,
        [b'0', _, ..] => None,
        _ => digits(run),
    }
}

/// What a letter with a number is.
fn named<'a>(letter: u8, number: u64) -> Token<'a>
    ensures { token_of result ≡ letter_token letter number }
{
    match letter {
        b'n' => Token::Var(CVar {
            reference: false,
            number,
        }),
        b'p' => Token::Var(CVar {
            reference: true,
            number,
        }),
        b'f' => Token::Name(CName {
            glue: false,
            number,
        }),
        b'e' => Token::Name(CName { glue: true, number }),
        _ => Token::Stray,
    }
}

/// The first of the words that is spelled so.
fn first_word(words: &[CWord], run: &[u8]) -> Option<CWord>
    ensures { result ≡ item_with_text word_text words.now run.now }
{
    for &word in words {
        if word.text().as_bytes() == run {
            return Some(word);
        }
    }
    None
}

/// The first of the primitives that is spelled so.
fn first_primitive(primitives: &[CPrim], run: &[u8]) -> Option<CPrim>
    ensures { result ≡ item_with_text prim_text primitives.now run.now }
{
    for &primitive in primitives {
        if primitive.text().as_bytes() == run {
            return Some(primitive);
        }
    }
    None
}

/// The words that begin with this byte.
fn words_from(first: u8) -> &'static [CWord]
    ensures { result.now ≡ filter (λ w. may_begin first (word_text w)) words.ALL }
{
    match first {
        b'b' => &[CWord::Break],
        b'c' => &[CWord::Continue],
        b'e' => &[CWord::Else],
        b'i' => &[CWord::If],
        b'l' => &[CWord::Long],
        b'n' => &[CWord::Numbers],
        b'r' => &[CWord::Return, CWord::References],
        b'v' => &[CWord::Void, CWord::Ref, CWord::Null],
        b'w' => &[CWord::While],
        _ => &[],
    }
}

/// The word that is spelled so, by its first byte.
fn word(run: &[u8]) -> Option<CWord>
    ensures { result ≡ word_of run.now }
{
    match run.first() {
        Some(first) => first_word(words_from(*first), run),
        None => None,
    }
}

/// The primitives whose fourth byte is this one: what they begin with is the same.
fn primitives_with(fourth: u8) -> &'static [CPrim]
    ensures { result.now ≡ filter (λ p. may_begin fourth (drop 3 (prim_text p))) prims.ALL }
{
    match fourth {
        b'a' => &[CPrim::ArgN, CPrim::ArgP, CPrim::Ask],
        b'b' => &[CPrim::Back],
        b'c' => &[CPrim::Call],
        b'd' => &[CPrim::Disown],
        b'e' => &[CPrim::End],
        b'g' => &[CPrim::GetN, CPrim::GetP],
        b'i' => &[CPrim::Int],
        b'm' => &[CPrim::More],
        b'n' => &[CPrim::New],
        b'o' => &[CPrim::Own, CPrim::Out],
        b'p' => &[
            CPrim::Parent,
            CPrim::Print,
            CPrim::PutN,
            CPrim::PutP,
            CPrim::Pick,
        ],
        b'r' => &[CPrim::Release, CPrim::Read],
        b't' => &[CPrim::Trap],
        _ => &[],
    }
}

/// The primitive that is spelled so, by its fourth byte.
fn primitive(run: &[u8]) -> Option<CPrim>
    ensures { result ≡ prim_of run.now }
{
    match run.get(3) {
        Some(fourth) => first_primitive(primitives_with(*fourth), run),
        None => None,
    }
}

/// What a letter with a number is, if the run is one.
fn named_token<'a>(run: &[u8]) -> Token<'a>
    ensures { token_of result ≡ named_token run.now }
{
    match run.split_first() {
        Some((&letter, digits)) => match number(digits) {
            Some(n) => named(letter, n),
            None => Token::Stray,
        },
        None => Token::Stray,
    }
}

/// What a run of letters, digits and `_` is.
fn run_token<'a>(run: &[u8]) -> Token<'a>
    ensures { token_of result ≡ run_token run.now }
{
    if let Some(word) = word(run) {
        return Token::Word(word);
    }
    if let Some(primitive) = primitive(run) {
        return Token::Primitive(primitive);
    }
    match number(run) {
        Some(n) => Token::Number(n as i64),
        None => named_token(run),
    }
}

/// Whether a run can stand between quotes.
fn is_text_name(run: &[u8]) -> bool
    ensures { result ≡ is_text_name run.now }
{
    match run.first() {
        Some(byte) => !byte.is_ascii_digit(),
        None => false,
    }
}

/// The token that begins with a quote before this text, and what stands after it.
fn quoted(text: &[u8]) -> (Token<'_>, &[u8])
    ensures token { token_of result.0 ≡ (quoted_piece text.now).0 }
    ensures rest { result.1.now ≡ (quoted_piece text.now).1 }
    ensures no_longer { length result.1.now ≤ length text.now }
{
    let end = past(Class::Run, text);
    let name = run_before(text, end);
    match following(end, b"\"") {
        Some(rest) => {
            if is_text_name(name) {
                (Token::Text(name), rest)
            } else {
                (Token::Stray, text)
            }
        }
        None => (Token::Stray, text),
    }
}

/// The first of the signs that begins the text, and what stands after it.
fn first_mark<'a>(marks: &[Mark], text: &'a [u8]) -> Option<(Mark, &'a [u8])>
    ensures mark { MatchOption result ((other : Piece) →
        first_beginning (map mark_token marks.now) text.now other ≡ other) (λ x. (other : Piece) →
        first_beginning (map mark_token marks.now) text.now other ≡ (mark_token x.0, x.1.now)) }
    ensures shorter { IfSome result (λ x. length x.1.now < length text.now) }
{
    for &mark in marks {
        if let Some(rest) = following(text, mark.text().as_bytes()) {
            return Some((mark, rest));
        }
    }
    None
}

/// The signs that begin with this byte, the longer ones first.
fn marks_from(first: u8) -> &'static [Mark]
    ensures { result.now ≡ filter (λ m. may_begin first (token_text (mark_token m))) marks.ALL }
{
    match first {
        b'-' => &[Mark::Sign(CSign::Arrow), Mark::Operator(Op::Subtract)],
        b'&' => &[Mark::Operator(Op::And), Mark::Operator(Op::BitAnd)],
        b'|' => &[Mark::Operator(Op::Or), Mark::Operator(Op::BitOr)],
        b'=' => &[Mark::Operator(Op::Equal), Mark::Sign(CSign::Assign)],
        b'!' => &[Mark::Operator(Op::NotEqual), Mark::Operator(Op::Not)],
        b'<' => &[Mark::Operator(Op::LessOrEqual), Mark::Operator(Op::Less)],
        b'>' => &[
            Mark::Operator(Op::GreaterOrEqual),
            Mark::Operator(Op::Greater),
        ],
        b'{' => &[Mark::Sign(CSign::OpenBrace)],
        b'}' => &[Mark::Sign(CSign::CloseBrace)],
        b'(' => &[Mark::Sign(CSign::OpenParen)],
        b')' => &[Mark::Sign(CSign::CloseParen)],
        b'[' => &[Mark::Sign(CSign::OpenBracket)],
        b']' => &[Mark::Sign(CSign::CloseBracket)],
        b';' => &[Mark::Sign(CSign::Semicolon)],
        b',' => &[Mark::Sign(CSign::Comma)],
        b'*' => &[Mark::Operator(Op::Multiply)],
        b'/' => &[Mark::Operator(Op::Divide)],
        b'%' => &[Mark::Operator(Op::Remainder)],
        b'+' => &[Mark::Operator(Op::Add)],
        b'^' => &[Mark::Operator(Op::BitXor)],
        _ => &[],
    }
}

/// The sign that a text begins with, by the text's first byte, and what stands after it.
fn signed<'a>(first: u8, text: &'a [u8], after: &'a [u8]) -> (Token<'a>, &'a [u8])
    requires { text.now ≡ first ∷ after.now }
    ensures token { token_of result.0 ≡ (sign_piece text.now after.now).0 }
    ensures rest { result.1.now ≡ (sign_piece text.now after.now).1 }
    ensures shorter { length result.1.now < length text.now }
{
    match first_mark(marks_from(first), text) {
        Some((mark, rest)) => (mark.token(), rest),
        None => (Token::Stray, after),
    }
}

/// The token that a text begins with, and what stands after it.
fn piece(text: &[u8]) -> Option<(Token<'_>, &[u8])>
    ensures piece { MatchOption result (text.now ≡ [])
        (λ x. IsPiece text.now (token_of x.0) x.1.now) }
    ensures shorter { IfSome result (λ x. length x.1.now < length text.now) }
{
    let (&byte, after) = text.split_first()?;
    if Class::Run.has(byte) {
        let rest = past(Class::Run, after);
        return Some((run_token(run_before(text, rest)), rest));
    }
    if byte == b'"' {
        return Some(quoted(after));
    }
    Some(signed(byte, text, after))
}

/// What stands in the two first lines.
#[derive(Clone, Copy)]
pub enum First {
    Include,
    LineEnd,
    Define,
    Number,
}

impl First {
    pub const LINES: [First; 5] = [
        First::Include,
        First::LineEnd,
        First::Define,
        First::Number,
        First::LineEnd,
    ];

    /// What a text begins with where this has to stand, and what stands after it.
    pub fn take(self, text: &[u8]) -> Option<(Token<'_>, &[u8])>
        ensures piece { MatchOption result (text.now ≡ [])
            (λ x. IsFirst (first_piece self) text.now (token_of x.0) x.1.now) }
        ensures shorter { IfSome result (λ x. length x.1.now < length text.now) }
    {
        match self {
            First::Include => fixed(text, b"#include \"vault_rt.h\"", Token::Include),
            First::LineEnd => fixed(text, b"\n", Token::LineEnd),
            First::Define => fixed(text, b"#define VR_MAIN f", Token::Define),
            First::Number => piece(text),
        }
    }
}

/// The token where the text begins with this prefix, and what stands after it.
fn fixed<'a>(text: &'a [u8], prefix: &[u8], token: Token<'a>) -> Option<(Token<'a>, &'a [u8])>
    requires spelled { prefix.now ≡ token_text (token_of token) }
    requires some { 0 < length prefix.now }
    ensures piece { MatchOption result (text.now ≡ [])
        (λ x. IsFirst (fixed_piece (token_of token.entry)) text.now (token_of x.0) x.1.now) }
    ensures shorter { IfSome result (λ x. length x.1.now < length text.now) }
{
    let (_, after) = text.split_first()?;
    match following(text, prefix) {
        Some(rest) => Some((token, rest)),
        None => Some((Token::Stray, after)),
    }
}

/// A token with its place: what is left of the text begins with it.
pub fn lexeme<'a>(token: Token<'a>, text: &[u8], left: &[u8]) -> Lexeme<'a>
    requires size { length text.now < 2 ^ 32 }
    requires within { length left.now ≤ length text.now }
    ensures token { result.token ≡ token.entry }
    ensures at { result.at + length left.now ≡ length text.now }
{
    Lexeme {
        token,
        at: (text.len() - left.len()) as u32,
    }
}

/// Adds the tokens of what is left of the text to those before.
pub fn others<'a>(text: &[u8], left: &'a [u8], lexemes: &mut Vec<Lexeme<'a>>) -> Result<(), Memory>
    requires size { length text.now < 2 ^ 32 }
    requires within { length left.now ≤ length text.now }
    ensures { OnOk result (AreOthers (length text.now) left.now (lexemes_of lexemes.old.items)
        (lexemes_of lexemes.new.items)) }
{
    let mut rest = past(Class::Blank, left);
    while let Some((token, after)) = piece(rest) {
        lexemes.push(lexeme(token, text, rest))?;
        rest = past(Class::Blank, after);
    }
    Ok(())
}

/// What a certificate begins with.
const MARK: &[u8] = b"/*VAULT-CERT\n";

/// The text before the first mark of a certificate.
pub fn before_mark(text: &[u8]) -> &[u8]
    ensures cut { result.now ≡ before_mark text.now }
    ensures no_longer { length result.now ≤ length text.now }
{
    let mut rest = text;
    while let Some((_, after)) = rest.split_first() {
        if following(rest, MARK).is_some() {
            return &text[..text.len() - rest.len()];
        }
        rest = after;
    }
    text
}
