//! Whole answers.

ghost use Rattle.std.specs.Prelude.{◌≡◌, map};
ghost use Rattle.vlt_core.specs.View.{program_of, func_of, case_of, ty_of};
ghost use Rattle.vlt_core.specs.Lookups.{cases_of};
ghost use Rattle.vlt_core.specs.Instances.{instance};
ghost use Rattle.vlt_meaning.specs.HostAnswers.{variant_read, piece_read, result_read};
ghost use Rattle.vlt_externals.specs.HostAnswers.Read.{rest_of, left_in, AreSets, AreWithin};
ghost use Rattle.vlt_externals.specs.HostAnswers.Whole.{IsCaseRead, IsFitting};

use crate::host_answers::numbers::below;
use crate::host_answers::pieces::{after_entries, after_pieces, following_keys, read_piece};
use vlt_base::TypeId;
use vlt_core::{CaseDecl, Func, Program, Ty, TypeDecl};

/// A case of a variant, and the numbers after its own.
#[derive(Clone, Copy)]
pub struct CaseRead<'a, 'h> {
    pub case: usize,
    pub decl: &'a CaseDecl,
    pub left: &'h [i64],
}

/// The cases of a variant, none of any other type.
fn cases<'a>(program: &'a Program, t: TypeId) -> &'a [CaseDecl]
    ensures { map case_of result.now ≡ cases_of (program_of program.now) t.0 }
{
    match program.types.get(t.0 as usize) {
        Some(TypeDecl::Variant { cases, .. }) => cases.as_slice(),
        _ => &[],
    }
}

/// The case of a variant that is next.
pub fn read_case<'a, 'h>(
    program: &'a Program,
    t: TypeId,
    left: &'h [i64],
) -> Option<CaseRead<'a, 'h>>
    ensures { IsCaseRead (program_of program.now) t.0 left.now result }
{
    let cases = cases(program, t);
    match below(cases.len(), left) {
        None => None,
        Some((case, left)) => match cases.get(case) {
            None => None,
            Some(decl) => Some(CaseRead { case, decl, left }),
        },
    }
}

/// What is left after a value of a variant.
fn after_variant<'h>(program: &Program, t: TypeId, left: &'h [i64]) -> Option<&'h [i64]>
    ensures { left_in result ≡ rest_of (variant_read (program_of program.now) t.0 left.now) }
{
    match read_case(program, t, left) {
        None => None,
        Some(read) => match following_keys(read.decl.keys.as_slice(), read.left) {
            None => None,
            Some(left) => after_pieces(read.decl.payload.as_slice(), left),
        },
    }
}

/// What is left after a number, a bool or a new object.
fn after_piece<'h>(t: &Ty, left: &'h [i64]) -> Option<&'h [i64]>
    ensures { left_in result ≡ rest_of (piece_read (ty_of t.now) left.now) }
{
    match read_piece(t, left) {
        None => None,
        Some((_, left)) => Some(left),
    }
}

/// What is left after the result of an external.
fn following_result<'h>(program: &Program, g: &Func, left: &'h [i64]) -> Option<&'h [i64]>
    ensures { left_in result ≡
        rest_of (result_read (program_of program.now) (func_of g.now).result left.now) }
{
    match &g.result {
        None => Some(left),
        Some(Ty::Key(..)) => Some(left),
        Some(Ty::Var(t, _)) => after_variant(program, *t, left),
        Some(Ty::OwnVar(t, _)) => after_variant(program, *t, left),
        Some(t) => after_piece(t, left),
    }
}

/// The numbers of an answer's result, where the answer fits the external's instance of this origin and no number is left over.
pub fn fitting<'h>(
    program: &Program,
    g: &Func,
    origin: Option<u8>,
    answer: &'h [i64],
) -> Option<&'h [i64]>
    requires within { AreWithin (program_of program.now) (func_of g.now) origin
        (func_of g.now).clause }
    ensures { AreSets (program_of program.now) (func_of g.now)
        (instance (program_of program.now) (func_of g.now) origin).clause →
        IsFitting (program_of program.now)
        (instance (program_of program.now) (func_of g.now) origin) answer.now result }
{
    match after_entries(program, g, origin, g.clause.as_slice(), answer) {
        None => None,
        Some(result) => match following_result(program, g, result) {
            None => None,
            Some([]) => Some(result),
            Some(_) => None,
        },
    }
}
