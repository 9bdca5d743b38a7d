//! The parts of the verification of a C file, in order.

ghost use Rattle.std.specs.Prelude.{◌≡◌, ◌<◌, ◌≤◌, ◌-◌, ◌^◌, not, map, filter, length};
ghost use Rattle.vlt_core.specs.View.{func_of, program_of};
ghost use Rattle.cert_check.specs.Unfit.{IsUnfit};
ghost use Rattle.cert_read.specs.Declarations.{notes_of_all};
ghost use Rattle.cert_verify.specs.Outcomes.{IsAnswer};
ghost use Rattle.cert_verify.specs.Parts.{AreTested};

use crate::error::VerifyError;
use crate::file::{CertifiedFile, certified_file};
use c_match::matches;
use cert_check::{LocalError, local};
use cert_check_laws::{certificates_arent_unfit, texts_have_more_bytes};
use cert_fit_laws::certificates_are_formed;
use cert_kinds::kinded;
use cert_read_bodies::MapsNote;
use std::alloc::Global;
use vlt_base::Items;
use vlt_core::{Func, Program};

/// How many functions have a body.
fn count_bodies(fns: &[Func]) -> u32
    requires { length fns.now ≤ 4294967295 }
    ensures { result ≡ length (filter (λ f. not f.external) (map func_of fns.now)) }
{
    let mut count = 0;
    for f in fns {
        if !f.external {
            count += 1;
        }
    }
    count
}

/// Tests the notes of a program, which can be tested.
fn test_notes(
    alloc: Global,
    program: &Program,
    notes: &[Items<MapsNote>],
) -> Result<(), VerifyError>
    requires { IsUnfit (program_of program.now) (notes_of_all notes.now) → ⊥ }
    ensures { AreTested (program_of program.now) (notes_of_all notes.now) result }
{
    match local(alloc, program, notes) {
        Ok(()) => Ok(()),
        Err(LocalError::Refused(first)) => Err(VerifyError::Local(first)),
        Err(LocalError::Unfit) => unreachable!(),
        Err(LocalError::Memory) => Err(VerifyError::Memory),
    }
}

/// Verifies a C file part by part. What a part needs no more is dropped before the next.
pub fn verify_parts(alloc: Global, text: &[u8]) -> Result<u32, VerifyError>
    requires { length text.now < 2 ^ 32 - 1 }
    ensures { IsAnswer text.now result }
{
    certificates_are_formed();
    certificates_arent_unfit();
    texts_have_more_bytes();
    let file = certified_file(alloc, text)?;
    let CertifiedFile {
        c_program,
        program,
        notes,
    } = file;
    kinded(alloc, &program)?;
    test_notes(alloc, &program, notes.as_slice())?;
    drop(notes);
    matches(alloc, &program, &c_program)?;
    Ok(count_bodies(program.fns.as_slice()))
}
