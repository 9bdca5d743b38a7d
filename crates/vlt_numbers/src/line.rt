ghost use Rattle.std.specs.Prelude.{◌≡◌, ℕ, ◌+◌, ◌≤◌, ◌++◌, false, length, vec_len, IsTrue, OnOk};
ghost use Rattle.std.specs.List.{after_first, before_first};
ghost use Rattle.vlt_numbers.specs.Text.{is_good, is_one_of, numbers_of};

use crate::error::NumbersError;
use crate::word::number;

const BLANKS: &[u8] = b" \t\r";

/// Pushes the numbers of a line, the one with this number of its file.
/// After an error the numbers are some of those that the line begins with.
pub fn push_numbers(numbers: &mut Vec<i64>, line: &[u8], at: u32) -> Result<(), NumbersError>
    ensures good { OnOk result (IsTrue (is_good line.now)) }
    ensures pushed { OnOk result (numbers.new.items ≡ numbers.old.items ++ numbers_of line.now) }
    ensures few { OnOk result (vec_len numbers.new ≤ vec_len numbers.old + length line.now) }
    ensures bad { (n : ℕ) → result ≡ Err (NumbersError.Bad n) →
        (n ≡ at) × (is_good line.now ≡ false) }
{
    let mut rest = line;
    while !rest.is_empty() {
        let (word, following) = cut(rest, BLANKS);
        if !word.is_empty() {
            let Some(number) = number(word) else {
                return Err(NumbersError::Bad(at));
            };
            numbers.push(number)?;
        }
        rest = following;
    }
    Ok(())
}

/// What stands before the first of these bytes, and what stands after it.
/// Where the text has none of them, that is the text and nothing.
pub fn cut<'a>(text: &'a [u8], separators: &[u8]) -> (&'a [u8], &'a [u8])
    ensures before { result.0.now ≡ before_first (is_one_of separators.now) text.now }
    ensures following { result.1.now ≡ after_first (is_one_of separators.now) text.now }
{
    match text.iter().position(|byte| separators.contains(byte)) {
        Some(at) => (&text[..at], &text[at + 1..]),
        None => (text, &[]),
    }
}
