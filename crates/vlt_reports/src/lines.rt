//! Whole lines.

ghost use Rattle.std.specs.Prelude.{◌≡◌, ◌<◌, ◌^◌, ◌-◌, ℕ, not, List, length, map, filter, IfOk};
ghost use Rattle.vlt_base.specs.Place.{line_of, column_of};
ghost use Rattle.vlt_core.specs.View.{program_of, func_of, tok_of};
ghost use Rattle.vlt_core.specs.FaultView.{kind_of};
ghost use Rattle.vlt_reports.specs.Reports.{kind_line, fault_text, fault_line};
ghost use Rattle.vlt_reports.specs.Accepted.{accepted_line, bodies};
ghost use Rattle.vlt_reports.specs.Seen.{names_known};
ghost use Rattle.vlt_reports.specs.Writing.{Adds};

use crate::names::{state_names, token_name};
use crate::statuses::{add, add_status, add_wanted};
use std::alloc::{AllocError, Global};
use vlt_base::{Items, place};
use vlt_core::{FaultKind, Func, Program, Tok};

/// The line and the column of a byte; of one after the text those of its end.
pub fn place_within(text: &[u8], at: u32) -> (u32, u32)
    requires { length text.now < 2 ^ 32 - 1 }
    ensures line { result.0 ≡ line_of text.now at }
    ensures column { result.1 ≡ column_of text.now at }
{
    place(text, at.min(text.len() as u32))
}

/// Which rule a program breaks, and where.
pub fn kind(alloc: Global, text: &[u8], rule: u8, at: u32) -> Result<Vec<u8>, AllocError>
    requires { length text.now < 2 ^ 32 - 1 }
    ensures { IfOk result (λ v. v.items ≡ kind_line text.now rule at) }
{
    let (line, column) = place_within(text, at);
    Ok(format!(in alloc; "kind {rule} {line}:{column}\n")?.into_bytes())
}

/// Adds what is found and wanted, or what is present.
fn add_kind(
    out: &mut Vec<u8>,
    alloc: Global,
    names: Option<&[Items<u8>]>,
    kind: FaultKind,
) -> Result<(), AllocError>
    ensures { Adds result out.old.items out.new.items
        (fault_text (names_known names.entry) (kind_of kind)) }
{
    match kind {
        FaultKind::Row { found, wanted } => {
            add(out, b" found ")?;
            add_status(out, alloc, names, found)?;
            add(out, b" wanted ")?;
            add_wanted(out, alloc, names, wanted)
        }
        FaultKind::Join { present } => {
            add(out, b" joins absent and ")?;
            add_status(out, alloc, names, present)
        }
    }
}

/// The line of a fault at the byte of this line and column. It says what `fault` says.
pub fn fault_at(
    alloc: Global,
    line: u32,
    column: u32,
    p: &Program,
    f: &Func,
    token: Tok,
    kind: FaultKind,
) -> Result<Vec<u8>, AllocError>
    ensures { (text : List ℕ) (at : ℕ) →
        line ≡ line_of text at → column ≡ column_of text at →
        IfOk result (λ v. v.items ≡ fault_line text (program_of p.now) (func_of f.now) at
        (tok_of token) (kind_of kind)) }
{
    let mut out = format!(in alloc; "protocol {line}:{column} ")?.into_bytes();
    add(&mut out, token_name(f, token))?;
    add_kind(&mut out, alloc, state_names(p, f, token), kind)?;
    add(&mut out, b"\n")?;
    Ok(out)
}

/// Where a function breaks the rules on keys, by which token, and how.
pub fn fault(
    alloc: Global,
    text: &[u8],
    p: &Program,
    f: &Func,
    at: u32,
    token: Tok,
    kind: FaultKind,
) -> Result<Vec<u8>, AllocError>
    requires { length text.now < 2 ^ 32 - 1 }
    ensures { IfOk result (λ v. v.items
        ≡ fault_line text.now (program_of p.now) (func_of f.now) at (tok_of token)
        (kind_of kind)) }
{
    let (line, column) = place_within(text, at);
    fault_at(alloc, line, column, p, f, token, kind)
}

/// How many of the functions have a body.
fn count_bodies(fns: &[Func]) -> usize
    ensures { result ≡ length (filter (λ f. not f.external) (map func_of fns.now)) }
{
    let mut count = 0;
    for f in fns {
        if !f.external {
            count += 1;
        }
    }
    count
}

/// How many functions of the program have a body.
pub fn bodies(p: &Program) -> usize
    ensures { result ≡ bodies (program_of p.now) }
{
    count_bodies(p.fns.as_slice())
}

/// How many functions with a body were accepted.
pub fn accepted(alloc: Global, p: &Program) -> Result<Vec<u8>, AllocError>
    ensures { IfOk result (λ v. v.items ≡ accepted_line (program_of p.now)) }
{
    let count = bodies(p);
    Ok(format!(in alloc; "accepted {count}\n")?.into_bytes())
}
