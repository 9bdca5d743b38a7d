//! What a C file that verifies is good for.

ghost use Rattle.cert_verify_laws.specs.Promises.{VerifiedFilesKeepTheirPromise, VerifiedProgramsGoRight};

use crate::codes::certificates_are_of_code;
use c_reader_laws::texts_are_read_in_one_way;
use cert_text_laws::{verified_are_accepted_programs, verified_programs_run_alike};
use vlt_sound::accepted_programs_go_right;

/// The program of the certificate of a C file that verifies is accepted, so no run of it goes wrong; the C text is its C program,
/// a run of which does what that of the program does, and breaks no rule of C.
pub fn verified_files_keep_their_promise()
    ensures { VerifiedFilesKeepTheirPromise }
{
    certificates_are_of_code();
    texts_are_read_in_one_way();
    verified_are_accepted_programs();
    verified_programs_run_alike();
    accepted_programs_go_right();
}

/// So it is of the C program that the file's text stands for.
pub fn verified_programs_go_right()
    ensures { VerifiedProgramsGoRight }
{
    verified_files_keep_their_promise();
}
