//! The rows of a program, and their text.

ghost use Rattle.std.specs.Prelude.{◌≡◌, ◌∷◌, [], Bool, map, drop, None, IfOk, OnOk, is_some};
ghost use Rattle.vlt_core.specs.Instances.{bound_in};
ghost use Rattle.vlt_core.specs.View.{set_of, type_of, func_of, program_of};
ghost use Rattle.cert_rows.specs.Parts.{list, All};
ghost use Rattle.cert_rows.specs.Rows as row;
ghost use Rattle.cert_rows.specs.Rows.{row_data};
ghost use Rattle.cert_format.specs.Places.{unplaced_program};
ghost use Rattle.cert_format.specs.Certificate.{shape, program_data, FitsCertificate, IsCertificateOf};
ghost use Rattle.cert_format_laws.specs.Versions.{is_ordered as is_ordered_program};
ghost use Rattle.cert_values.specs.Laid.{laid, each_laid};
ghost use Rattle.cert_values.specs.Declarations.Names.{HasTextSet, HasTextType, HasTextFunc, HasTextNames, IsNamed, IfNameless};
ghost use Rattle.cert_write.specs.Notes.{notes_in};
ghost use Rattle.cert_write.specs.Texts.{IsTextOfRows};
ghost use Rattle.cert_write.specs.Rows.{head_data, body_data, fn_data, first_annotations as first_of, fns_data, sets_data, types_data, rows_data, AreExact};

use crate::cursor::Cursor;
use crate::ordered::is_ordered;
use crate::walk::put_stmts;
use cert_format_laws::{certificates_are_written, programs_have_a_written_version};
use cert_rows::rows_are_exact;
use cert_values::{CertText, Unwritten, put_fn as put_fn_row, put_set, put_type};
use std::alloc::{AllocError, Global};
use vlt_base::Items;
use vlt_core::{Annotation, Func, Program, SetDecl, TypeDecl};

/// Writes the first row.
fn put_version(out: &mut CertText, ordered: bool) -> Result<(), AllocError>
    ensures { OnOk result (out.new
        ≡ laid (row_data (shape ordered None) (row.version ordered)) out.old) }
{
    out.tag("vault")?;
    out.number(if ordered { 2 } else { 1 })?;
    out.end()
}

fn put_sets(out: &mut CertText, ordered: bool, sets: &[SetDecl]) -> Result<(), Unwritten>
    ensures rows { OnOk result (out.new
        ≡ each_laid (sets_data ordered (map set_of sets.now)) out.old) }
    ensures named { All HasTextSet (map set_of sets.now) → IsNamed result }
{
    for set in sets {
        put_set(out, ordered, set)?;
    }
    Ok(())
}

fn put_types(out: &mut CertText, types: &[TypeDecl]) -> Result<(), Unwritten>
    ensures rows { OnOk result (out.new
        ≡ each_laid (types_data (map type_of types.now)) out.old) }
    ensures named { All HasTextType (map type_of types.now) → IsNamed result }
{
    for declared in types {
        put_type(out, declared)?;
    }
    Ok(())
}

/// Writes the row of a function.
fn put_head(out: &mut CertText, f: &Func) -> Result<(), Unwritten>
    ensures rows { OnOk result (out.new ≡ laid (head_data (func_of f.now)) out.old) }
    ensures named { HasTextFunc (func_of f.now) → IsNamed result }
{
    put_fn_row(out, f)
}

fn has_bound(f: &Func) -> bool
    ensures { result ≡ is_some (bound_in (func_of f.now).clause) }
{
    f.bound().is_some()
}

/// Writes the rows of a function's statements.
fn put_body(out: &mut CertText, f: &Func, annotations: &[Annotation]) -> Result<(), AllocError>
    ensures { OnOk result (out.new
        ≡ each_laid (body_data (func_of f.now) annotations.now) out.old) }
{
    let start = Cursor { next: 0, at: 0 };
    let _end = put_stmts(out, has_bound(f), annotations, f.body.as_slice(), start)?;
    Ok(())
}

fn put_fn(out: &mut CertText, f: &Func, annotations: &[Annotation]) -> Result<(), Unwritten>
    ensures rows { OnOk result (out.new
        ≡ each_laid (fn_data (func_of f.now) annotations.now) out.old) }
    ensures named { HasTextFunc (func_of f.now) → IsNamed result }
{
    put_head(out, f)?;
    put_body(out, f, annotations)?;
    Ok(())
}

/// The annotations of the next function, and those of the others.
fn next_annotations(notes: &[Items<Annotation>]) -> (&[Annotation], &[Items<Annotation>])
    ensures first { result.0.now ≡ first_of notes.now }
    ensures rest { result.1.now ≡ drop 1 notes.now }
{
    match notes.split_first() {
        Some((annotations, rest)) => (annotations.as_slice(), rest),
        None => (&[], notes),
    }
}

fn put_fns(out: &mut CertText, fns: &[Func], notes: &[Items<Annotation>]) -> Result<(), Unwritten>
    ensures rows { OnOk result (out.new
        ≡ each_laid (fns_data (map func_of fns.now) notes.now) out.old) }
    ensures named { All HasTextFunc (map func_of fns.now) → IsNamed result }
{
    let mut left = notes;
    for f in fns {
        let (annotations, rest) = next_annotations(left);
        put_fn(out, f, annotations)?;
        left = rest;
    }
    Ok(())
}

/// Writes the rows of a program, in an array.
#[tactic(auto, using(crate::proofs::Whole::rows_laid))]
fn put_rows(
    out: &mut CertText,
    ordered: bool,
    p: &Program,
    notes: &[Items<Annotation>],
) -> Result<(), Unwritten>
    ensures rows { OnOk result (out.new
        ≡ laid (list (rows_data ordered (program_of p.now) notes.now)) out.old) }
    ensures named { HasTextNames (program_of p.now) → IsNamed result }
{
    out.begin()?;
    put_version(out, ordered)?;
    put_sets(out, ordered, p.sets.as_slice())?;
    put_types(out, p.types.as_slice())?;
    put_fns(out, p.fns.as_slice(), notes)?;
    out.end()?;
    Ok(())
}

/// The rows of a program, as an array between the marks.
fn rows_text(
    alloc: Global,
    ordered: bool,
    p: &Program,
    notes: &[Items<Annotation>],
) -> Result<Vec<u8>, Unwritten>
    requires { AreExact (rows_data ordered (program_of p.now) notes.now) }
    ensures text { IfOk result (λ text. IsTextOfRows
        (rows_data ordered (program_of p.now) notes.now) text.items) }
    ensures named { HasTextNames (program_of p.now) → IsNamed result }
{
    let mut out = CertText::new(alloc)?;
    put_rows(&mut out, ordered, p, notes)?;
    Ok(out.finish()?)
}

/// The text of a program's certificate, from its mark to the closing one. `notes` has for each function its annotations,
/// one for each instance in the order of their origins: one of a function without a bound entry, none of an external. The
/// version is 1 where no set has links and no entry is bound, else 2. Places aren't written. What is written for a program
/// that has a certificate with these notes is that certificate. `Name` where a name isn't UTF-8.
pub fn to_text(
    alloc: Global,
    p: &Program,
    notes: &[Items<Annotation>],
) -> Result<Vec<u8>, Unwritten>
    ensures certificate { IfOk result (λ text. (ordered : Bool) → FitsCertificate ordered
        (unplaced_program (program_of p.now)) (notes_in (program_of p.now).fns notes.now)
        → IsCertificateOf text.items (unplaced_program (program_of p.now))
        (notes_in (program_of p.now).fns notes.now)) }
    ensures text { IfOk result (λ text. IsTextOfRows
        (program_data (is_ordered_program (unplaced_program (program_of p.now)))
        (unplaced_program (program_of p.now)) (notes_in (program_of p.now).fns notes.now))
        text.items) }
    ensures name { IfNameless result (HasTextNames (program_of p.now) → ⊥) }
{
    rows_are_exact();
    certificates_are_written();
    programs_have_a_written_version();
    rows_text(alloc, is_ordered(p), p, notes)
}
