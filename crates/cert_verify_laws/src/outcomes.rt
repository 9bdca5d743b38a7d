//! A C file verifies or is refused.

ghost use Rattle.std.specs.Prelude.{ℕ, List};
ghost use Rattle.cert_verify.specs.Laws.{VerifiesInSomeWay};

use crate::codes::certificates_are_of_code;
use cert_check_laws::certificates_have_an_answer;
use cert_verify::texts_verify_in_some_way;

/// It can't be that a text neither verifies nor is refused.
pub fn c_files_verify_in_some_way()
    ensures { (text : List ℕ) → VerifiesInSomeWay text }
{
    certificates_are_of_code();
    certificates_have_an_answer();
    texts_verify_in_some_way();
}
