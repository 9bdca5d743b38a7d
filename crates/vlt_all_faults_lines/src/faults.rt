//! The lines of all faults of a program.

ghost use Rattle.std.specs.Prelude.{◌≡◌, ◌++◌, ◌<◌, ◌^◌, ◌-◌, List, length, IfOk, IfErr, codes};
ghost use Rattle.std.specs.List.{flat_map};
ghost use Rattle.std.specs.Fmt.{decimal};
ghost use Rattle.vlt_core.specs.View.{program_of, func_of};
ghost use Rattle.vlt_core_laws.specs.Fit.{IsWellFormed};
ghost use Rattle.vlt_rows.specs.Unfit.{UnfitBy};
ghost use Rattle.vlt_reports.specs.Placed.{IsPlace};
ghost use Rattle.vlt_reports.specs.Writing.{Adds};
ghost use Rattle.vlt_all_faults_laws.specs.Each.{AreFindingsOf};
ghost use Rattle.vlt_all_faults.specs.Tokens.{findings_of};
ghost use Rattle.vlt_all_faults_lines.specs.Lines.{finding_line, IsFaultsText};
ghost use Rattle.vlt_all_faults_lines.specs.Steps.{IsFitFunc, HasUntoldBody};
ghost use Rattle.vlt_all_faults_lines.specs.Unfit.{HasUntoldFunc};

use std::alloc::{AllocError, Global};
use vlt_all_faults::faults_in;
use vlt_core::{Func, Program};
use vlt_faults::InstanceBlame;
use vlt_reports::{Place, fault_at, place_from, text_start};
use vlt_rows::RowError;

/// The faults of a function; an external has none.
pub fn faults_of(alloc: Global, p: &Program, f: &Func) -> Result<Vec<InstanceBlame>, RowError>
    ensures findings { IfOk result (λ v. IsFitFunc (program_of p.now) (func_of f.now) →
        AreFindingsOf (program_of p.now) (func_of f.now) (findings_of v.items)) }
    ensures unfit { IfErr result
        (UnfitBy (HasUntoldBody (program_of p.now) (func_of f.now))) }
{
    if f.external {
        Ok(Vec::new(alloc))
    } else {
        faults_in(alloc, p, f)
    }
}

/// Adds the lines of a function's faults, and gives the place of the last one. Places are counted on from the given one.
fn add_faults(
    out: &mut Vec<u8>,
    alloc: Global,
    text: &[u8],
    from: Place,
    p: &Program,
    f: &Func,
    list: &[InstanceBlame],
) -> Result<Place, AllocError>
    requires size { length text.now < 2 ^ 32 - 1 }
    requires from { IsPlace text.now from }
    ensures lines { Adds result out.old.items out.new.items
        (flat_map (finding_line text.now (program_of p.now) (func_of f.now))
        (findings_of list.now)) }
    ensures place { IfOk result (IsPlace text.now) }
{
    let mut place = from;
    for told in list {
        let blame = told.blame;
        place = place_from(text, place, blame.at);
        let line = fault_at(alloc, place.line, place.column, p, f, blame.tok, blame.kind)?;
        out.extend_from_slice(line.as_slice())?;
    }
    Ok(place)
}

/// Adds the line that tells how many faults there are.
pub fn add_count(out: &mut Vec<u8>, alloc: Global, count: usize) -> Result<(), AllocError>
    ensures { Adds result out.old.items out.new.items
        (codes "faults " ++ decimal count ++ codes "\n") }
{
    let line = format!(in alloc; "faults {count}\n")?.into_bytes();
    out.extend_from_slice(line.as_slice())
}

/// The text of all faults of a program: the line of each, and how many there are. `Unfit` if of some function with a body none
/// can be told (`HasUntoldFunc`).
pub fn all_faults(alloc: Global, text: &[u8], p: &Program) -> Result<Vec<u8>, RowError>
    requires { length text.now < 2 ^ 32 - 1 }
    ensures lines { IfOk result (λ v. IsWellFormed (program_of p.now) →
        IsFaultsText text.now (program_of p.now) v.items) }
    ensures unfit { IfErr result (UnfitBy (HasUntoldFunc (program_of p.now))) }
{
    let mut out = Vec::new(alloc);
    let mut place = text_start();
    let mut count = 0_usize;
    for f in p.fns.as_slice() {
        let list = faults_of(alloc, p, f)?;
        place = add_faults(&mut out, alloc, text, place, p, f, list.as_slice())?;
        count += list.len();
    }
    add_count(&mut out, alloc, count)?;
    Ok(out)
}
