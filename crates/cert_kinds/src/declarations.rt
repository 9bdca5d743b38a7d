//! The rows of declarations: state sets, types and their cases.

ghost use Rattle.std.specs.Prelude.{◌≡◌, ◌≤◌, ◌^◌, map, length};
ghost use Rattle.vlt_core.specs.View.{program_of, set_of, header_of, case_of, type_of};
ghost use Rattle.vlt_core.specs.KindedHeads as s;
ghost use Rattle.cert_kinds_types.specs.TypeRows.{case_rows};
ghost use Rattle.cert_kinds_tallies.specs.Tallies.{tally_of, tallied};
ghost use Rattle.cert_kinds.specs.Whole as z;

use cert_kinds_tallies::Tally;
use cert_kinds_types::{case_broken, set_broken, type_broken};
use vlt_base::TypeId;
use vlt_core::{CaseDecl, Program, SetDecl, TypeDecl};

/// The rows of the state sets.
pub fn tally_sets(sets: &[SetDecl], tally: Tally) -> Tally
    ensures { tally_of result ≡ tallied (tally_of tally)
        (map s.set_broken (map set_of sets.now)) }
{
    let mut all = tally;
    for d in sets {
        all = all.with_row(set_broken(d));
    }
    all
}

fn tally_cases(p: &Program, header: &[Option<TypeId>], cases: &[CaseDecl], tally: Tally) -> Tally
    ensures { tally_of result ≡ tallied (tally_of tally)
        (map (s.case_broken (program_of p.now) (header_of header.now)) (map case_of cases.now)) }
{
    let mut all = tally;
    for d in cases {
        all = all.with_row(case_broken(p, header, d));
    }
    all
}

/// The rows of a type's cases.
fn tally_case_rows(p: &Program, d: &TypeDecl, tally: Tally) -> Tally
    ensures { tally_of result ≡ tallied (tally_of tally)
        (case_rows (program_of p.now) (type_of d.now)) }
{
    match d {
        TypeDecl::Variant { header, cases, .. } => {
            tally_cases(p, header.as_slice(), cases.as_slice(), tally)
        }
        _ => tally,
    }
}

/// The rows of a declared type: its own, and one for each case.
#[tactic(auto, using(crate::proofs::Declared::rows_of_type))]
fn tally_type(p: &Program, t: TypeId, d: &TypeDecl, tally: Tally) -> Tally
    ensures { tally_of result ≡ tallied (tally_of tally)
        (s.type_rows (program_of p.now) t.0 (type_of d.now)) }
{
    tally_case_rows(p, d, tally.with_row(type_broken(p, t, d)))
}

/// The rows of types, which are numbered from 0.
pub fn tally_types(p: &Program, types: &[TypeDecl], tally: Tally) -> Tally
    requires { length types.now ≤ 2 ^ 32 }
    ensures { tally_of result ≡ tallied (tally_of tally)
        (z.types_rows (program_of p.now) (map type_of types.now)) }
{
    let mut all = tally;
    for t in 0..types.len() {
        all = tally_type(p, TypeId(t as u32), &types[t], all);
    }
    all
}
