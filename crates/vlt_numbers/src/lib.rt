//! Files of numbers: bytes go in, a run's input numbers or its host's answers come out, or the first bad line.
//! Read `specs/Text.antt` first; `given` reads both files of a run.
//! Used by: `run` and `crun`, with `--input` and `--answers`.
#![tactic(auto)]

ghost use Rattle.std.specs.Prelude.{◌≡◌, ℕ, ◌-◌, ◌^◌, ◌<◌, length, IfOk};
ghost use Rattle.vlt_numbers.specs.HostAnswers.{lists_of};
ghost use Rattle.vlt_numbers.specs.Text.{answers_of, input_numbers};

pub use answers::Answers;
pub use error::NumbersError;
pub use given::{Given, GivenError, read_given};
pub use line::cut;
use line::push_numbers;
use std::alloc::Global;
pub use word::number;

mod answers;
mod error;
mod given;
mod line;
mod word;

const LINE_ENDS: &[u8] = b"\n";

/// Reads an input file: numbers between spaces, tabs, carriage returns and line feeds.
///
/// # Errors
///
/// `Bad` with the first line that has anything else, and `Memory` where there is too little.
pub fn read_input(alloc: Global, text: &[u8]) -> Result<Vec<i64>, NumbersError>
    requires { length text.now < 2 ^ 32 - 1 }
    ensures ok { IfOk result (λ numbers. input_numbers text.now ≡ Ok numbers.items) }
    ensures bad { (line : ℕ) → result ≡ Err (NumbersError.Bad line) →
        input_numbers text.now ≡ Err line }
{
    let Answers { numbers, ends } = read_answers(alloc, text)?;
    drop(ends);
    Ok(numbers)
}

/// Reads an answers file: each line is an answer, with numbers between spaces, tabs and carriage returns.
/// An empty line is an answer without numbers, and after a last line feed no further line begins.
///
/// # Errors
///
/// `Bad` with the first line that has anything else, and `Memory` where there is too little.
pub fn read_answers(alloc: Global, text: &[u8]) -> Result<Answers, NumbersError>
    requires { length text.now < 2 ^ 32 - 1 }
    ensures ok { IfOk result (λ answers. answers_of text.now ≡ Ok (lists_of answers)) }
    ensures bad { (line : ℕ) → result ≡ Err (NumbersError.Bad line) →
        answers_of text.now ≡ Err line }
{
    let mut numbers = Vec::new(alloc);
    let mut ends = Vec::new(alloc);
    let mut rest = text;
    while !rest.is_empty() {
        let (line, following) = cut(rest, LINE_ENDS);
        push_numbers(&mut numbers, line, ends.len() as u32 + 1)?;
        ends.push(numbers.len() as u32)?;
        rest = following;
    }
    Ok(Answers { numbers, ends })
}
