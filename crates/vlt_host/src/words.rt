//! The words of a line.

ghost use Rattle.std.specs.Prelude.{◌≡◌, ◌<◌, ◌≤◌, ◌+◌, ◌∷◌, [], length, IfNone, IfSome};
ghost use Rattle.std.specs.Option.{option_map};
ghost use Rattle.vlt_numbers.specs.Text.{words_of};
ghost use Rattle.vlt_host_meaning.specs.Tables.{argument_of};
ghost use Rattle.vlt_host.specs.CallsFile.{argument_in};

use vlt_host_meaning::HostArg;
use vlt_numbers::{cut, number};

const BLANKS: &[u8] = b" \t\r";

/// The first word of a line, and what comes after it.
pub fn next_word(line: &[u8]) -> Option<(&[u8], &[u8])>
    ensures none { IfNone result (words_of line.now ≡ []) }
    ensures some { IfSome result (λ q. words_of line.now ≡ q.0.now ∷ words_of q.1.now) }
    ensures shorter { IfSome result (λ q. length q.1.now < length line.now) }
    ensures within { IfSome result (λ q. length q.0.now + length q.1.now ≤ length line.now) }
{
    let mut rest = line;
    while !rest.is_empty() {
        let (word, after) = cut(rest, BLANKS);
        if !word.is_empty() {
            return Some((word, after));
        }
        rest = after;
    }
    None
}

/// The argument that a word spells, if it spells one.
pub fn argument(word: &[u8]) -> Option<HostArg>
    ensures { option_map argument_of result ≡ argument_in word.now }
{
    match word.split_first() {
        None => None,
        Some((b'#', digits)) => match number(digits) {
            Some(n) if n >= 1 => Some(HostArg::Object(n as u64)),
            _ => None,
        },
        Some(_) => match number(word) {
            Some(z) => Some(HostArg::Number(z)),
            None => None,
        },
    }
}
