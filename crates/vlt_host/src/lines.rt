//! The lines of a calls file.

ghost use Rattle.std.specs.Prelude.{◌≡◌, ℕ, ◌≤◌, ◌+◌, Err, None, length, vec_len, OnOk};
ghost use Rattle.vlt_numbers.specs.Text.{words_of};
ghost use Rattle.vlt_host.specs.CallsFile.{is_name, arguments_in, call_of_line};
ghost use Rattle.vlt_host.specs.Pushed.{PushesArguments, PushesCall};

use crate::error::CallsError;
use crate::words::{argument, next_word};
use vlt_host_meaning::HostArg;

/// Whether a word may be a name.
fn is_name(word: &[u8]) -> bool
    ensures { result ≡ is_name word.now }
{
    match word.first() {
        None => false,
        Some(first) => !first.is_ascii_digit() && *first != b'-' && *first != b'#',
    }
}

/// Pushes the arguments that the words of a line spell. The number is that of the whole line in its file, from 1.
/// After an error the arguments are some of those that the line begins with.
fn push_args(args: &mut Vec<HostArg>, line: &[u8], number: u32) -> Result<(), CallsError>
    ensures pushed { OnOk result (PushesArguments line.now args.old.items args.new.items) }
    ensures few { OnOk result (vec_len args.new ≤ vec_len args.old + length line.now) }
    ensures bad { (n : ℕ) → result ≡ Err (CallsError.Bad n) →
        (n ≡ number) × (arguments_in (words_of line.now) ≡ None) }
{
    let mut rest = line;
    while let Some((word, after)) = next_word(rest) {
        let Some(argument) = argument(word) else {
            return Err(CallsError::Bad(number));
        };
        args.push(argument)?;
        rest = after;
    }
    Ok(())
}

/// Pushes the call that a line spells, the one of this number in its file, from 1.
/// After an error the arguments are some of those that the line has.
pub fn push_call(
    names: &mut Vec<u8>,
    args: &mut Vec<HostArg>,
    line: &[u8],
    number: u32,
) -> Result<(), CallsError>
    ensures pushed { OnOk result (PushesCall line.now names.old.items names.new.items
        args.old.items args.new.items) }
    ensures few { OnOk result (vec_len names.new + vec_len args.new ≤
        vec_len names.old + vec_len args.old + length line.now) }
    ensures bad { (n : ℕ) → result ≡ Err (CallsError.Bad n) →
        (n ≡ number) × (call_of_line line.now ≡ None) }
{
    if str::from_utf8(line).is_err() {
        return Err(CallsError::Bad(number));
    }
    let Some((word, after)) = next_word(line) else {
        return Err(CallsError::Bad(number));
    };
    if !is_name(word) {
        return Err(CallsError::Bad(number));
    }
    push_args(args, after, number)?;
    names.extend_from_slice(word)?;
    Ok(())
}
