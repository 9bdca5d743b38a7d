//! Laws of C texts: nothing goes in and nothing comes out.
//! Read `specs/SyntaxLaws/Laws.antt` first.
//! Used by: the law that `crun` has one reply.

ghost use Rattle.c_reader_laws.specs.SyntaxLaws.Laws.{EachTextHasTokens, OneUnitIsRead};

/// A text is read in at most one way.
pub fn one_unit_is_read()
    ensures { OneUnitIsRead }
{}

/// Each text has tokens, whatever its bytes.
pub fn each_text_has_tokens()
    ensures { EachTextHasTokens }
{}
