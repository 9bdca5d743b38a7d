//! How a run over files of numbers ends.

ghost use Rattle.std.specs.Prelude.{◌≡◌};
ghost use Rattle.vlt_steps.specs.Ends.{refusal_of};

use vlt_numbers::GivenError;

/// How a run ends whose machine stops in one of the ways of `S`.
#[derive(Clone, Copy, Debug, PartialEq, Eq)]
pub enum RunEnd<S> {
    /// This line of the input file, counted from 1, isn't of numbers.
    BadInput(u32),
    /// This line of the answers file, counted from 1, isn't of numbers.
    BadAnswers(u32),
    /// The frames and objects of the budgets could have more values than limit 13 allows.
    TooWide,
    /// The machine stopped so.
    Stopped(S),
    /// Memory ran out before the run began.
    Memory,
}

/// The end of a run whose files give no numbers.
pub fn end_of<S>(error: GivenError) -> RunEnd<S>
    ensures { result ≡ refusal_of error }
{
    match error {
        GivenError::BadInput(line) => RunEnd::BadInput(line),
        GivenError::BadAnswers(line) => RunEnd::BadAnswers(line),
        GivenError::Memory => RunEnd::Memory,
    }
}
