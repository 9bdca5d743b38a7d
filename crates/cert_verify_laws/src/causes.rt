//! Causes for which no text's program lacks an answer, and no accepted one a certificate.

ghost use Rattle.cert_verify_laws.specs.Causes.{
  AcceptedTextsCanBeCertified,
  TextsAreJudged,
  TextsCanBeSearched,
  TextsHaveFlows,
  TextsHaveNumbers,
};

use crate::codes::texts_are_of_code;
use cert_least_laws::accepted_bodies_have_notes;
use cert_text_laws::{
    texts_are_light, texts_are_limited, texts_have_few_statements, texts_have_text_names,
};
use vlt_fit_laws::programs_are_fit;
use vlt_resolve_laws::elaborated_programs_have_narrow_states;

/// The code has a flow of each body of a text's program, and a map for it to begin with.
pub fn texts_have_flows()
    ensures { TextsHaveFlows }
{
    texts_are_of_code();
    texts_are_limited();
    programs_are_fit();
}

/// Each name of an accepted text's program is UTF-8, some annotation holds in each of its bodies, and each body can be walked
/// and has notes.
pub fn accepted_texts_can_be_certified()
    ensures { AcceptedTextsCanBeCertified }
{
    texts_have_text_names();
    texts_are_limited();
    texts_have_few_statements();
    programs_are_fit();
    elaborated_programs_have_narrow_states();
    texts_have_flows();
    accepted_bodies_have_notes();
}

/// No body of a text's program has so many statements, rows and joins, or a key or variable of so great a number, that
/// something in it has no number.
pub fn texts_have_numbers()
    ensures { TextsHaveNumbers }
{
    texts_are_limited();
    texts_are_light();
    texts_have_few_statements();
    programs_are_fit();
}

/// No body of a text's program is unfit for the check.
pub fn texts_are_judged()
    ensures { TextsAreJudged }
{
    texts_have_flows();
    texts_are_limited();
    texts_are_light();
    texts_have_few_statements();
    programs_are_fit();
}

/// A search of each body of a text's program, for the paths to a fault, has numbers for all that it meets.
pub fn texts_can_be_searched()
    ensures { TextsCanBeSearched }
{
    texts_have_flows();
    texts_are_limited();
    texts_are_light();
    programs_are_fit();
}
