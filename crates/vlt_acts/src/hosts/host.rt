//! What a host gives.

ghost use Rattle.std.specs.Prelude.{◌≡◌};
ghost use Rattle.vlt_ops.specs.Operator.{bool_number};
ghost use Rattle.vlt_meaning.specs.Step.{is_more};

use vlt_numbers::Answers;

/// What is left of the input, the answers, and how many of them were taken; and room for the line of an event.
#[derive(Drop)]
pub struct Host<'h> {
    pub input: &'h [i64],
    pub answers: &'h Answers,
    pub taken: u32,
    pub line: Vec<u8>,
}

/// Whether there are numbers, as 1 or 0.
pub fn has_more(left: &[i64]) -> i64
    ensures { result ≡ bool_number (is_more left.now) }
{
    match left {
        [] => 0,
        _ => 1,
    }
}
