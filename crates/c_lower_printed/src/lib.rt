//! Laws on the C texts of accepted texts' programs: nothing goes in and nothing comes out.
//! Read `specs/Laws.antt` first, then `c_lower_runs/specs/Texts/Printable.antt`, the conditions that hold of them.
//! Used by: the command `emit`, which promises them.
#![tactic(auto)]

ghost use Rattle.c_lower_printed.specs.Laws.{TextsArePrintable, AcceptedTextsAreReadAgain};

use c_lower_runs::lowered_programs_are_c_programs;
use c_reader_laws::canonical_texts_are_read_again;
use vlt_fit_laws::programs_are_fit;

/// The program of an accepted text has what its C text is written of, where that text is no longer than a C file may be.
pub fn texts_are_printable()
    ensures { TextsArePrintable }
{
    programs_are_fit();
}

/// So the canonical text of its C program reads as that very program, alone and with a certificate after it.
pub fn accepted_texts_are_read_again()
    ensures { AcceptedTextsAreReadAgain }
{
    programs_are_fit();
    texts_are_printable();
    lowered_programs_are_c_programs();
    canonical_texts_are_read_again();
}
