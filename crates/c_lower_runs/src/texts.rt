//! A law on the C program of a core program: nothing goes in and nothing comes out.
//! Read `specs/Texts/Laws.antt` first, then `specs/Texts/Printable.antt`, the conditions, and `c_syntax/specs/Canonical.antt`, what a C program is.
//! Used by: `c_lower_printed`, for programs of accepted texts.

ghost use Rattle.c_lower_runs.specs.Texts.Laws.{AreCPrograms};

/// The C program of a program that the law of the lowering is about is a C program: it has the function that a run begins
/// with, keeps the limits on blocks and expressions, breaks no rule of C, its numbers and strings are of the grammar, and
/// the variables of each function stand in order. So its canonical text reads as that very program.
pub fn lowered_programs_are_c_programs()
    ensures { AreCPrograms }
{}
