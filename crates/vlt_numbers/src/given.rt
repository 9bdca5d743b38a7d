//! What a run is given: the bytes of its input file and of its answers file in, numbers out, or the first bad line.
//! Read `specs/Given/Given.antt` first, and `specs/Text.antt`.
//! Used by: `run` and `crun`.

ghost use Rattle.std.specs.Prelude.{◌≡◌, ℕ, ◌-◌, ◌^◌, ◌<◌, length, Err, IfOk};
ghost use Rattle.vlt_numbers.specs.HostAnswers.{lists_of};
ghost use Rattle.vlt_numbers.specs.Given.Given.{given_by, numbers, bad_input, bad_answers};

use crate::{Answers, NumbersError, read_answers, read_input};
use std::alloc::Global;
use thiserror::Error;

/// The numbers of a run's input, and the answers of its host.
#[derive(Drop)]
pub struct Given {
    pub input: Vec<i64>,
    pub answers: Answers,
}

/// Why the files give no numbers.
#[derive(Clone, Copy, Debug, PartialEq, Eq, Error)]
pub enum GivenError {
    /// This line of the input file, counted from 1, has something else than numbers.
    #[error("a line of the input isn't of numbers")]
    BadInput(u32),
    /// This line of the answers file, counted from 1, has something else than numbers.
    #[error("a line of the answers isn't of numbers")]
    BadAnswers(u32),
    /// There was no memory for the numbers.
    #[error("there was no memory for the numbers")]
    Memory,
}

/// Reads the input file, and then the answers file. A file without bytes has no numbers.
///
/// # Errors
///
/// `BadInput` and `BadAnswers` with the first bad line, the input's first; and `Memory` where there is too little.
pub fn read_given(alloc: Global, input: &[u8], answers: &[u8]) -> Result<Given, GivenError>
    requires input { length input.now < 2 ^ 32 - 1 }
    requires answers { length answers.now < 2 ^ 32 - 1 }
    ensures ok { IfOk result (λ x.
        given_by input.now answers.now ≡ numbers x.input.items (lists_of x.answers)) }
    ensures input { (line : ℕ) → result ≡ Err (GivenError.BadInput line) →
        given_by input.now answers.now ≡ bad_input line }
    ensures answers { (line : ℕ) → result ≡ Err (GivenError.BadAnswers line) →
        given_by input.now answers.now ≡ bad_answers line }
{
    let input = match read_input(alloc, input) {
        Ok(input) => input,
        Err(NumbersError::Bad(line)) => return Err(GivenError::BadInput(line)),
        Err(NumbersError::Memory) => return Err(GivenError::Memory),
    };
    match read_answers(alloc, answers) {
        Ok(answers) => Ok(Given { input, answers }),
        Err(NumbersError::Bad(line)) => Err(GivenError::BadAnswers(line)),
        Err(NumbersError::Memory) => Err(GivenError::Memory),
    }
}
