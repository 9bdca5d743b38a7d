//! The cases of a variant, as far as their rows go.

ghost use Rattle.std.specs.Prelude.{◌≡◌, ◌≤◌, Some, length, IfOk, option_map};
ghost use Rattle.vlt_core.specs.View.{case_of};
ghost use Rattle.cert_read_decls.specs.Rows.{row_of};
ghost use Rattle.cert_read.specs.Cases.{decls_at, first_at, case_in, IsReadCases};

use cert_read_decls::{DeclRow, decl_row};
use serde_json::Value;
use std::alloc::{AllocError, Global};
use vlt_base::Items;
use vlt_core::CaseDecl;

/// Cases, and the row after them.
#[derive(Drop)]
pub struct ReadCases {
    pub cases: Items<CaseDecl>,
    pub at: usize,
}

fn case_of_row(row: DeclRow) -> Option<CaseDecl>
    ensures { option_map case_of result ≡ case_in (Some (row_of row)) }
{
    match row {
        DeclRow::Case(c) => Some(c),
        _ => None,
    }
}

/// The declaration's row at `at`, if one stands there.
pub(crate) fn decl_at(
    alloc: Global,
    ordered: bool,
    rows: &[Value],
    at: usize,
) -> Result<Option<DeclRow>, AllocError>
    ensures { IfOk result (λ r. option_map row_of r ≡ first_at (decls_at ordered rows.now at)) }
{
    match rows.get(at) {
        Some(v) => decl_row(alloc, ordered, v),
        None => Ok(None),
    }
}

fn case_at(
    alloc: Global,
    ordered: bool,
    rows: &[Value],
    at: usize,
) -> Result<Option<CaseDecl>, AllocError>
    ensures { IfOk result (λ r. option_map case_of r
        ≡ case_in (first_at (decls_at ordered rows.now at))) }
{
    match decl_at(alloc, ordered, rows, at)? {
        Some(row) => Ok(case_of_row(row)),
        None => Ok(None),
    }
}

/// At most so many cases, from the row at `at` on.
pub fn read_cases(
    alloc: Global,
    ordered: bool,
    rows: &[Value],
    at: usize,
    count: u32,
) -> Result<ReadCases, AllocError>
    requires { at ≤ length rows.now }
    ensures { IfOk result (λ r. IsReadCases ordered at count rows.now r.cases r.at) }
{
    let mut cases = Items::new(alloc);
    let mut next = at;
    for turn in 0..count {
        if next >= rows.len() {
            return Ok(ReadCases { cases, at: next });
        }
        match case_at(alloc, ordered, rows, next)? {
            Some(c) => {
                cases.push(c)?;
                next += 1;
            }
            None => return Ok(ReadCases { cases, at: next }),
        }
    }
    Ok(ReadCases { cases, at: next })
}
