//! The tests of a program's notes, function by function.

ghost use Rattle.std.specs.Prelude.{◌≡◌, ◌<◌, ◌+◌, ◌^◌, length, OnOk};
ghost use Rattle.vlt_core.specs.View.{program_of, func_of};
ghost use Rattle.vlt_core.specs.Bodies.{body_flow};
ghost use Rattle.vlt_core.specs.Flow.{size_block};
ghost use Rattle.vlt_core.specs.Instances.{origins};
ghost use Rattle.vlt_core.specs.Least.{first_number};
ghost use Rattle.cert_fit_laws.specs.Annotation.{IsLocalCertificate};
ghost use Rattle.cert_check.specs.Tests.{function_tests};
ghost use Rattle.cert_check.specs.Notes.{plain_notes, notes_of_all};
ghost use Rattle.cert_check.specs.Outcomes.{AreTestedUnless};
ghost use Rattle.cert_check.specs.Unfit.{IsUnfitFunc, IsUnfit};
ghost use Rattle.cert_check.specs.Whole.{ProgramRefusal, IsFirstRefusal, IfRefused, IfUnfit};
ghost use Rattle.cert_check.specs.Results.{IsTestedAt, IsTested};

use crate::bodies::test_body;
use crate::errors::{Refusal, Stop};
use cert_read_bodies::MapsNote;
use std::alloc::Global;
use thiserror::Error;
use vlt_base::Items;
use vlt_core::{Func, Program, Status, Tok, Wanted};
use vlt_rows::origins;

/// The first test that notes fail: in this function, a token isn't as a row or a map of the statement wants it. Statements
/// are counted from 0 over the whole program, each before those inside it.
#[derive(Clone, Copy, Debug)]
pub struct LocalRefusal {
    pub func: usize,
    pub statement: usize,
    pub tok: Tok,
    pub found: Status,
    pub wanted: Wanted,
}

/// Why the notes of a program aren't known to hold.
#[derive(Clone, Copy, Debug, Error)]
pub enum LocalError {
    #[error("a token isn't as it is wanted")]
    Refused(LocalRefusal),
    /// The program or its notes are as no certificate has them (`IsUnfit`).
    #[error("the notes aren't those of a certificate's program")]
    Unfit,
    #[error("out of memory")]
    Memory,
}

/// Tests the notes of a function with a body in each of its instances, whose origins these are, and gives how many statements
/// the body has.
fn test_instances(
    alloc: Global,
    p: &Program,
    f: &Func,
    notes: &[MapsNote],
    list: &[Option<u8>],
) -> Result<usize, Stop>
    requires { list.now ≡ origins (program_of p.now) (func_of f.now) }
    ensures { AreTestedUnless
        (IsUnfitFunc (program_of p.now) (func_of f.now) (plain_notes notes.now)) result
        (function_tests (program_of p.now) (func_of f.now) (plain_notes notes.now))
        (λ n. (n ≡ size_block (body_flow (program_of p.now) (func_of f.now)))
        × (n < 2 ^ 62)) }
{
    let mut count = None;
    for i in 0..list.len() {
        count = Some(test_body(alloc, p, f, list[i], notes, i)?);
    }
    match count {
        Some(count) => Ok(count),
        None => Err(Stop::Unfit),
    }
}

/// Tests the notes of a function with a body, and gives how many statements the body has.
fn test_func(alloc: Global, p: &Program, f: &Func, notes: &[MapsNote]) -> Result<usize, Stop>
    ensures { AreTestedUnless
        (IsUnfitFunc (program_of p.now) (func_of f.now) (plain_notes notes.now)) result
        (function_tests (program_of p.now) (func_of f.now) (plain_notes notes.now))
        (λ n. (n ≡ size_block (body_flow (program_of p.now) (func_of f.now)))
        × (n < 2 ^ 62)) }
{
    let origins = origins(alloc, p, f)?;
    test_instances(alloc, p, f, notes, origins.as_slice())
}

/// A refusal in the function g, whose first statement has the number `first`.
fn refusal_at(g: usize, first: usize, x: Refusal) -> LocalRefusal
    requires { first + x.statement < 2 ^ 64 }
    ensures { result ≡ record {
      func = g;
      statement = first + x.statement;
      tok = x.tok;
      found = x.found;
      wanted = x.wanted;
    } }
{
    LocalRefusal {
        func: g,
        statement: first + x.statement,
        tok: x.tok,
        found: x.found,
        wanted: x.wanted,
    }
}

/// Tests the function g, if it has a body; its first statement has the number `first`. Gives how many statements it has.
fn test_at(
    alloc: Global,
    p: &Program,
    all: &[Items<MapsNote>],
    g: usize,
    first: usize,
) -> Result<usize, LocalError>
    requires there { g < length p.now.fns }
    requires noted { g < length all.now }
    requires first { first ≡ first_number (program_of p.now) g }
    requires few { first < 2 ^ 62 }
    ensures { IsTestedAt (program_of p.now) (notes_of_all all.now) g first result }
{
    let f = &p.fns.as_slice()[g];
    if f.external {
        return if f.body.is_empty() {
            Ok(0)
        } else {
            Err(LocalError::Unfit)
        };
    }
    match test_func(alloc, p, f, all[g].as_slice()) {
        Ok(count) => Ok(count),
        Err(Stop::Refused(x)) => Err(LocalError::Refused(refusal_at(g, first, x))),
        Err(Stop::Unfit) => Err(LocalError::Unfit),
        Err(Stop::Memory) => Err(LocalError::Memory),
    }
}

/// Tests all functions.
fn test_all(alloc: Global, p: &Program, all: &[Items<MapsNote>]) -> Result<(), LocalError>
    ensures { IsTested (program_of p.now) (notes_of_all all.now) result }
{
    if all.len() != p.fns.len() {
        return Err(LocalError::Unfit);
    }
    let mut first = 0;
    for g in 0..p.fns.len() {
        let count = test_at(alloc, p, all, g, first)?;
        first += count;
        if first >= 1 << 62 {
            return Err(LocalError::Unfit);
        }
    }
    Ok(())
}

/// Whether the notes of a program hold in each instance of each body, or the first test that they fail; `Unfit` where the
/// program or its notes are (`IsUnfit`). Each statement is tested once.
pub fn local(alloc: Global, p: &Program, all: &[Items<MapsNote>]) -> Result<(), LocalError>
    ensures local { OnOk result
        (IsLocalCertificate (program_of p.now) (notes_of_all all.now)) }
    ensures refused { IfRefused result
        (IsFirstRefusal (program_of p.now) (notes_of_all all.now)) }
    ensures only { IfRefused result (λ x. (y : ProgramRefusal) →
        IsFirstRefusal (program_of p.now) (notes_of_all all.now) y → y ≡ x) }
    ensures never { IfRefused result (λ x.
        IsLocalCertificate (program_of p.now) (notes_of_all all.now) → ⊥) }
    ensures unfit { IfUnfit result (IsUnfit (program_of p.now) (notes_of_all all.now)) }
{
    test_all(alloc, p, all)
}
