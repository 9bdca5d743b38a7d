//! The text of a certificate: its marks, and whether it is plain.

ghost use Rattle.std.specs.Prelude.{◌≡◌, ℕ, List, MatchOption, IfOk};
ghost use Rattle.json.specs.Reads.{token_of};
ghost use Rattle.cert_format.specs.Text.{marked, are_digits, is_plain_number, is_plain_token, is_plain};

use json::{Reader, Scratch, Token};
use std::alloc::{AllocError, Global};

/// What stands between the marks, if both are there.
pub(crate) fn between_marks(text: &[u8]) -> Option<&[u8]>
    ensures { MatchOption result ((body : List ℕ) → text.now ≡ marked body → ⊥)
        (λ body. text.now ≡ marked body.now) }
{
    let Some(rest) = text.strip_prefix(b"/*VAULT-CERT\n") else {
        return None;
    };
    rest.strip_suffix(b"\n*/\n")
}

fn are_digits(s: &[u8]) -> bool
    ensures { result ≡ are_digits s.now }
{
    for x in s {
        if !x.is_ascii_digit() {
            return false;
        }
    }
    true
}

/// Whether a number is whole, with at most 19 digits, or -1.
fn is_plain_number(s: &str) -> bool
    ensures { result ≡ is_plain_number s.now }
{
    (are_digits(s.as_bytes()) && s.len() <= 19) || s == "-1"
}

fn is_plain_token(t: &Token<'_>) -> bool
    ensures { result ≡ is_plain_token (token_of t.now) }
{
    match t {
        Token::BeginArray => true,
        Token::EndArray => true,
        Token::String(_) => true,
        Token::Number(s) => is_plain_number(s),
        _ => false,
    }
}

/// Whether the text has brackets, commas, blanks, strings and plain numbers alone.
pub(crate) fn is_plain(alloc: Global, text: &str) -> Result<bool, AllocError>
    ensures { IfOk result (λ b. b ≡ is_plain text.now) }
{
    let mut scratch = Scratch::new(alloc);
    let mut reader = Reader::new(text, &mut scratch)?;
    while let Some(t) = reader.next() {
        if !is_plain_token(&t) {
            return Ok(false);
        }
    }
    Ok(true)
}
