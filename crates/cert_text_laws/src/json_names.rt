//! Laws on the names in certificates of texts' programs: nothing goes in and nothing comes out.
//! Read `specs/JsonNames/Names.antt`.
//! Used by: `vaultc_core`, for `emit`, and `cert_verify_laws`.

ghost use Rattle.cert_text_laws.specs.JsonNames.Names.{TextsHaveTextNames};

/// Each name of the program of a text is UTF-8.
pub fn texts_have_text_names()
    ensures { TextsHaveTextNames }
{}
