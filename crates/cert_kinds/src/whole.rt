//! The rules on names and types of a whole program.

ghost use Rattle.std.specs.Prelude.{◌≡◌, ◌≤◌, ◌^◌, length, IfOk};
ghost use Rattle.vlt_core.specs.View.{program_of};
ghost use Rattle.vlt_core.specs.Kinded as s;
ghost use Rattle.vlt_kinds_queries.specs.Marks.{AreMarks};
ghost use Rattle.cert_kinds_tallies.specs.Tallies.{tally_of, tallied, clean};
ghost use Rattle.cert_kinds.specs.Outcomes.{IsAnswered};
ghost use Rattle.cert_kinds.specs.declared.whole.KindedError.TheVariants.{Memory};

use crate::declarations::{tally_sets, tally_types};
use crate::functions::tally_functions;
use cert_kinds_tallies::Tally;
use cert_kinds_types::{marks, unless};
use std::alloc::{AllocError, Global};
use thiserror::Error;
use vlt_core::{Program, rules};

/// Why a program isn't known to break no rule on names and types.
#[derive(Clone, Copy, Debug, PartialEq, Eq, Error)]
pub enum KindedError {
    /// The first row that breaks a rule, with the least rule that it breaks. Row 0 is the program's own; after it come those
    /// of the state sets, of the types, each with its cases, and of the functions, each with the statements of its body, as
    /// in a certificate. Rows from 2^64 - 1 on have this number.
    #[error("row {row} breaks rule {rule}")]
    Broken { row: u64, rule: u8 },
    #[error("there was no memory")]
    Memory,
}

impl From<AllocError> for KindedError {
    ghost from_gives = { λ _ e. e ≡ Memory };

    fn from(_: AllocError) -> KindedError {
        KindedError::Memory
    }
}

/// Whether main is a function with a body.
fn has_main(p: &Program) -> bool
    ensures { result ≡ s.has_main (program_of p.now) }
{
    match p.fns.get(p.main.0 as usize) {
        None => false,
        Some(f) => !f.external,
    }
}

/// All rows of a program.
fn tally_program(alloc: Global, p: &Program, marks: &[bool]) -> Result<Tally, AllocError>
    requires types { length (program_of p.now).types ≤ 2 ^ 32 }
    requires marks { AreMarks (program_of p.now) marks.now }
    ensures { IfOk result (λ x. tally_of x
        ≡ tallied (clean 0) (s.rows_broken (program_of p.now))) }
{
    let own = Tally::clean(0).with_row(unless(has_main(p), rules::NO_MAIN));
    let sets = tally_sets(p.sets.as_slice(), own);
    let types = tally_types(p, p.types.as_slice(), sets);
    let all = tally_functions(alloc, p, marks, p.fns.as_slice(), types)?;
    Ok(all)
}

/// Whether a program breaks no rule on names and types, or the first row that breaks one, with the least rule that it
/// breaks. Out of memory comes where an allocation is refused.
pub fn kinded(alloc: Global, p: &Program) -> Result<(), KindedError>
    requires { length (program_of p.now).types ≤ 2 ^ 32 }
    ensures { IsAnswered (program_of p.now) result }
{
    let marks = marks(p, alloc)?;
    let tally = tally_program(alloc, p, marks.as_slice())?;
    match tally.found {
        None => Ok(()),
        Some(broken) => Err(KindedError::Broken {
            row: broken.row,
            rule: broken.rule,
        }),
    }
}
