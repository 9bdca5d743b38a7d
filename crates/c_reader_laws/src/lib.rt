//! Laws of C texts: nothing goes in and nothing comes out.
//! Read `specs/Laws.antt` first, then `c_reader/specs/Reads.antt`; `syntax_laws` and `printer_laws` have a law each.
//! Used by: the law that `crun` has one reply, and has some; it also says that what is printed of a C program which was read is a text of it.
#![tactic(auto)]

ghost use Rattle.std.specs.Prelude.{ℕ, List};
ghost use Rattle.c_reader_laws.specs.Laws.{TextsAreReadAgain, IsReadInOneWay};

mod printer_laws;
mod syntax_laws;

use c_automaton::tokens_are_read_in_one_way;
pub use printer_laws::{canonical_texts_are_read_again, sizes_are_lengths};
pub use syntax_laws::{each_text_has_tokens, one_unit_is_read};

/// A text stands for one program, or for none for one reason.
pub fn texts_are_read_in_one_way()
    ensures { (text : List ℕ) → IsReadInOneWay text }
{
    tokens_are_read_in_one_way();
}

/// What is printed of a program that some text stands for is a text of the same program.
pub fn read_programs_are_printed()
    ensures { TextsAreReadAgain }
{}
