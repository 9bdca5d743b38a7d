//! Programs of texts keep the limits of certificates, and their functions have few statements.

ghost use Rattle.cert_text_laws.specs.Texts.{
  TextsAreLight,
  TextsAreLimited,
  TextsHaveFewStatements,
};

use vlt_resolve_laws::{
    elaborated_programs_are_kinded, elaborated_programs_have_blank_externals,
    elaborated_programs_have_few_keys, elaborated_programs_have_few_variables,
    elaborated_programs_have_proper_bodies,
};

/// The program of texts keeps the limits of certificates.
pub fn texts_are_limited()
    ensures { TextsAreLimited }
{
    elaborated_programs_have_proper_bodies();
    elaborated_programs_have_few_keys();
    elaborated_programs_have_few_variables();
    elaborated_programs_have_blank_externals();
    elaborated_programs_are_kinded();
}

/// Each function of the program of texts has few statements in all.
pub fn texts_have_few_statements()
    ensures { TextsHaveFewStatements }
{}

/// No body of the program of texts weighs much: it reads few fields and hands over little.
pub fn texts_are_light()
    ensures { TextsAreLight }
{}
