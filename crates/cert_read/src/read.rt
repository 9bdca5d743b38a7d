//! From a text to its certificate.

ghost use Rattle.std.specs.Prelude.{◌≡◌, ◌≤◌, ℕ, List, Some, map, length, IfOk};
ghost use Rattle.serde_json.specs.View.{view};
ghost use Rattle.vlt_core.specs.View.{func_of};
ghost use Rattle.cert_rows.specs.Parts.{list};
ghost use Rattle.cert_format.specs.Text.{marked, IsJsonOf};
ghost use Rattle.cert_format.specs.Certificate.{is_main, main_from};
ghost use Rattle.cert_format.specs.Pieces.{version_in, first_version};
ghost use Rattle.cert_read_decls.specs.Rows.{row_of};
ghost use Rattle.cert_read.specs.Certificates.{IsReadAs, IsParsed, IsPlainJson, IsCertificateWith};

use crate::cases::decl_at;
use crate::declarations::{Declarations, read_declarations};
use crate::error::ReadError;
use crate::text::{between_marks, is_plain};
use cert_read_bodies::MapsNote;
use cert_read_decls::DeclRow;
use cert_read_parts::array;
use serde_json::{Category, Value};
use std::alloc::{AllocError, Global};
use std::str;
use vlt_base::{FnId, Items};
use vlt_core::{Func, Program};

/// What a certificate says. The maps of each function are listed by the numbers of its statements; an external has none.
#[derive(Drop)]
pub struct Certificate {
    pub program: Program,
    pub notes: Items<Items<MapsNote>>,
    /// Whether its first row names version 2, in which sets may have links and entries be bound.
    pub ordered: bool,
}

fn parse(alloc: Global, text: &str) -> Result<Value, ReadError>
    ensures { IsParsed text.now result }
{
    match Value::from_str(alloc, text) {
        Ok(value) => Ok(value),
        Err(e) => match e.classify() {
            Category::Memory => Err(ReadError::Memory),
            _ => Err(ReadError::NotJson),
        },
    }
}

fn version_of_row(row: DeclRow) -> Option<bool>
    ensures { result ≡ version_in (Some (row_of row)) }
{
    match row {
        DeclRow::Version(ordered) => Some(ordered),
        _ => None,
    }
}

/// The version that the first row names: whether sets may have links, and entries may be bound.
fn version(alloc: Global, rows: &[Value]) -> Result<Option<bool>, AllocError>
    ensures { IfOk result (λ v. v ≡ first_version (map view rows.now)) }
{
    match decl_at(alloc, true, rows, 0)? {
        Some(row) => Ok(version_of_row(row)),
        None => Ok(None),
    }
}

fn is_main(f: &Func) -> bool
    ensures { result ≡ is_main (func_of f.now) }
{
    !f.external && f.name.as_slice() == b"main".as_slice()
}

/// The first function with a body that is named `main`, else how many functions there are.
fn main_of(fns: &[Func]) -> u32
    requires { length fns.now ≤ 4294967295 }
    ensures { result ≡ main_from 0 (map func_of fns.now) }
{
    let mut n = 0;
    for f in fns {
        if is_main(f) {
            return n;
        }
        n += 1;
    }
    n
}

fn certificate_of(ordered: bool, read: Declarations) -> Certificate
    requires { length read.fns ≤ 4294967295 }
    ensures { IsCertificateWith ordered read result }
{
    let main = main_of(read.fns.as_slice());
    let tables = read.tables;
    Certificate {
        program: Program {
            sets: tables.sets,
            types: tables.types,
            fns: read.fns,
            main: FnId(main),
        },
        notes: read.notes,
        ordered,
    }
}

fn from_rows(alloc: Global, rows: &[Value]) -> Result<Certificate, ReadError>
    ensures { (text : List ℕ) → IsPlainJson text (list (map view rows.now))
        → IsReadAs text result }
{
    let Some(ordered) = version(alloc, rows)? else {
        return Err(ReadError::Form(0));
    };
    let (read, fault) = read_declarations(alloc, ordered, rows)?;
    match fault {
        Some(row) => Err(ReadError::Form(row)),
        None => Ok(certificate_of(ordered, read)),
    }
}

fn from_value(alloc: Global, body: &str, value: &Value) -> Result<Certificate, ReadError>
    ensures { (text : List ℕ) → text ≡ marked body.now → IsJsonOf text (view value.now)
        → IsReadAs text result }
{
    if !is_plain(alloc, body)? {
        return Err(ReadError::Form(0));
    }
    match array(value) {
        Some(rows) => from_rows(alloc, rows),
        None => Err(ReadError::Form(0)),
    }
}

pub(crate) fn read_text(alloc: Global, text: &[u8]) -> Result<Certificate, ReadError>
    ensures { IsReadAs text.now result }
{
    let Some(body) = between_marks(text) else {
        return Err(ReadError::NotJson);
    };
    let Ok(body) = str::from_utf8(body) else {
        return Err(ReadError::NotJson);
    };
    match parse(alloc, body) {
        Ok(value) => from_value(alloc, body, &value),
        Err(e) => Err(e),
    }
}
