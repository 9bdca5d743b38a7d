//! The trees of texts.

ghost use Rattle.vlt_fit_laws.specs.Texts.{TextsHaveTextTrees};

use vlt_syntax_laws::{texts_have_numbers, texts_have_ticks};

/// A tree of the language that a text spells is one as texts have them: the names of its cases are
/// ticks, and its numbers are from 0 to 2^63 - 1.
pub fn texts_have_text_trees()
    ensures { TextsHaveTextTrees }
{
    texts_have_ticks();
    texts_have_numbers();
}
