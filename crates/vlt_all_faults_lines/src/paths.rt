//! The lines of all faults of a program, each with the paths that show it.

ghost use Rattle.std.specs.Prelude.{◌≡◌, ◌++◌, ◌<◌, ◌^◌, ◌-◌, ℕ, List, [], map, length, slice_get, unwrap_or, IfOk, IfErr, OnOk};
ghost use Rattle.std.specs.Option.{option_map};
ghost use Rattle.vlt_core.specs.Core.{Name};
ghost use Rattle.vlt_core.specs.Witness.{Choice, IsWitness};
ghost use Rattle.vlt_core.specs.View.{program_of, func_of};
ghost use Rattle.vlt_core.specs.FaultView.{choices_of};
ghost use Rattle.vlt_core_laws.specs.Fit.{IsWellFormed};
ghost use Rattle.vlt_rows.specs.Unfit.{UnfitBy};
ghost use Rattle.vlt_check.specs.Checks.{fault_of};
ghost use Rattle.vlt_check_laws.specs.Shown.{IsFault};
ghost use Rattle.vlt_witness.specs.Unfit.{IsUnfitAt};
ghost use Rattle.vlt_reports.specs.Placed.{IsPlace};
ghost use Rattle.vlt_reports.specs.Reports.{instance_text, paths_text};
ghost use Rattle.vlt_all_faults_laws.specs.Laws.{fault_at};
ghost use Rattle.vlt_all_faults.specs.Tokens.{finding_of, findings_of};
ghost use Rattle.vlt_all_faults_lines.specs.Lines.{ArePathsOf, IsShown, AreWrittenOf, IsPathsText, AreNamesBy};
ghost use Rattle.vlt_all_faults_lines.specs.Steps.{AreFaultsAt};
ghost use Rattle.vlt_all_faults_lines.specs.Unfit.{HasUnshown};

use crate::faults::{add_count, faults_of};
use std::alloc::Global;
use vlt_base::FnId;
use vlt_check_laws::faults_have_witnesses;
use vlt_core::{FlowFault, Func, Program, Witness};
use vlt_faults::InstanceBlame;
use vlt_reports::{Place, fault_at, path_lines, place_from, text_start};
use vlt_rows::RowError;
use vlt_witness::witness;

/// A function with its number and its state variable, the name for the state of its bound entry's object.
#[derive(Clone, Copy)]
struct Numbered<'a> {
    fn_id: FnId,
    f: &'a Func,
    variable: &'a [u8],
}

/// A function's fault as one of the program.
fn flow_fault(fn_id: FnId, told: InstanceBlame) -> FlowFault
    ensures { fault_of result ≡ fault_at fn_id.0 (finding_of told) }
{
    FlowFault {
        fn_id,
        origin: told.origin,
        at: told.blame.at,
        tok: told.blame.tok,
        kind: told.blame.kind,
    }
}

/// Paths that show a fault.
fn witness_of(alloc: Global, p: &Program, fault: FlowFault) -> Result<Witness, RowError>
    requires well_formed { IsWellFormed (program_of p.now) }
    requires fault { IsFault (program_of p.now) (fault_of fault) }
    ensures shows { IfOk result (λ x. IsWitness (program_of p.now) (fault_of fault)
        (choices_of x.first) (option_map choices_of x.second)) }
    ensures unfit { IfErr result (UnfitBy (IsUnfitAt (program_of p.now) (fault_of fault))) }
{
    faults_have_witnesses();
    match witness(alloc, p, &fault)? {
        Some(found) => Ok(found),
        None => unreachable!(),
    }
}

/// The `path` lines of a function's fault.
fn paths_of(
    alloc: Global,
    text: &[u8],
    p: &Program,
    function: Numbered<'_>,
    told: InstanceBlame,
) -> Result<Vec<u8>, RowError>
    requires size { length text.now < 2 ^ 32 - 1 }
    requires well_formed { IsWellFormed (program_of p.now) }
    requires fault { IsFault (program_of p.now) (fault_at function.fn_id.0 (finding_of told)) }
    ensures lines { IfOk result (λ v. ArePathsOf text.now (program_of p.now)
        function.entry.variable.now function.entry.fn_id.0 (func_of function.entry.f.now)
        (finding_of told) v.items) }
    ensures unfit { IfErr result (UnfitBy (HasUnshown (program_of p.now))) }
{
    let found = witness_of(alloc, p, flow_fault(function.fn_id, told))?;
    let lines = path_lines(
        alloc,
        text,
        p,
        function.f,
        function.variable,
        told.origin,
        &found,
    )?;
    Ok(lines)
}

/// Adds the lines of a function's faults, each with the paths that show it, and gives the place of the last one. Places of
/// faults are counted on from the given one.
fn add_shown(
    out: &mut Vec<u8>,
    alloc: Global,
    text: &[u8],
    from: Place,
    p: &Program,
    function: Numbered<'_>,
    list: &[InstanceBlame],
) -> Result<Place, RowError>
    requires size { length text.now < 2 ^ 32 - 1 }
    requires from { IsPlace text.now from }
    requires well_formed { IsWellFormed (program_of p.now) }
    requires faults { AreFaultsAt (program_of p.now) function.fn_id.0 (findings_of list.now) }
    ensures lines { OnOk result ((lines : List ℕ) × AreWrittenOf (IsShown text.now
        (program_of p.now) function.entry.variable.now function.entry.fn_id.0
        (func_of function.entry.f.now)) (findings_of list.now) lines ×
        (out.new.items ≡ out.old.items ++ lines)) }
    ensures place { IfOk result (IsPlace text.now) }
    ensures unfit { IfErr result (UnfitBy (HasUnshown (program_of p.now))) }
{
    let mut place = from;
    for told in list {
        let blame = told.blame;
        place = place_from(text, place, blame.at);
        let line = fault_at(
            alloc,
            place.line,
            place.column,
            p,
            function.f,
            blame.tok,
            blame.kind,
        )?;
        out.extend_from_slice(line.as_slice())?;
        let paths = paths_of(alloc, text, p, function, *told)?;
        out.extend_from_slice(paths.as_slice())?;
    }
    Ok(place)
}

/// The name of this number, and the empty one past the list's end.
fn name_at<'a>(names: &[&'a [u8]], number: u32) -> &'a [u8]
    ensures { result.now ≡ unwrap_or (slice_get (map (λ name. name.now) names.now) number) [] }
{
    match names.get(number as usize) {
        None => &[],
        Some(name) => name,
    }
}

/// The text of all faults of a program with paths that show them: after the line of each fault those of a witness, and then
/// how many faults there are. `variables` has the state variable of each function, by number; one past their end has none.
/// `Unfit` if of some function no fault can be told, or none can be searched for, or if functions are more than there are
/// numbers (`HasUnshown`).
pub fn all_paths(
    alloc: Global,
    text: &[u8],
    p: &Program,
    variables: &[&[u8]],
) -> Result<Vec<u8>, RowError>
    requires size { length text.now < 2 ^ 32 - 1 }
    requires well_formed { IsWellFormed (program_of p.now) }
    ensures lines { IfOk result (λ v. (variable : ℕ → Name) →
        AreNamesBy variables.now variable →
        IsPathsText text.now (program_of p.now) variable v.items) }
    ensures unfit { IfErr result (UnfitBy (HasUnshown (program_of p.now))) }
{
    let mut out = Vec::new(alloc);
    let mut place = text_start();
    let mut count = 0_usize;
    let mut number = 0_u32;
    for f in p.fns.as_slice() {
        let list = faults_of(alloc, p, f)?;
        let function = Numbered {
            fn_id: FnId(number),
            f,
            variable: name_at(variables, number),
        };
        place = add_shown(&mut out, alloc, text, place, p, function, list.as_slice())?;
        count += list.len();
        match number.checked_add(1) {
            Some(next) => number = next,
            None => return Err(RowError::Unfit),
        }
    }
    add_count(&mut out, alloc, count)?;
    Ok(out)
}
