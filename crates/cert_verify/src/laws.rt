//! A file verifies in one way, or is refused in one way.

ghost use Rattle.std.specs.Prelude.{ℕ, List};
ghost use Rattle.cert_verify.specs.Laws.{VerifiesInOneWay, TextsVerifyInSomeWay};

use c_match::apart_at_one;
use c_reader_laws::texts_are_read_in_one_way;
use cert_check::refused_in_one_way;
use cert_format_laws::{texts_have_one_reading, texts_have_some_reading};

/// A text verifies with one program and its notes, or is refused for one reason.
pub fn texts_verify_in_one_way()
    ensures { (text : List ℕ) → VerifiesInOneWay text }
{
    texts_are_read_in_one_way();
    texts_have_one_reading();
    refused_in_one_way();
    apart_at_one();
}

/// It can't be that a text neither verifies nor is refused, where notes have an answer (`NotesHaveAnAnswer`, a premise).
pub fn texts_verify_in_some_way()
    ensures { TextsVerifyInSomeWay }
{
    texts_are_read_in_one_way();
    texts_have_some_reading();
    apart_at_one();
}
