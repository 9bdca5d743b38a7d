//! Laws on the programs of modules that link: nothing goes in and nothing comes out.
//! Read `specs/Linked/Link.antt`; what is asked of texts is `IsProgramOfTexts`.
//! Used by: the command that links. So what is promised of compiled texts is promised of two modules together.

ghost use Rattle.cert_text_laws.specs.Linked.Link.{JoinedProgramsAreOfTexts};

use vlt_fit_laws::texts_have_text_trees;
use vlt_iface::told_joins_are_joined;
use vlt_link_laws::told_joins_are_text_trees;

/// The program of the joined tree that is told of an interface with two modules, each the tree of a text, is one of texts.
pub fn joined_programs_are_of_texts()
    ensures { JoinedProgramsAreOfTexts }
{
    texts_have_text_trees();
    told_joins_are_joined();
    told_joins_are_text_trees();
}
