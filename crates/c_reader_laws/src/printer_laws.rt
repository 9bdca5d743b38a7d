//! Laws of canonical texts: nothing goes in and nothing comes out.
//! Read `specs/PrinterLaws/ReadAgain.antt` first, then `specs/PrinterLaws/Sizes.antt` and `c_syntax/specs/Canonical.antt`.
//! Used by: whoever prints a C program and reads it again, or asks how long its text is.

ghost use Rattle.c_reader_laws.specs.PrinterLaws.ReadAgain.{AreReadAgain};
ghost use Rattle.c_reader_laws.specs.PrinterLaws.SizeLaws.{ListsAreSums, SizesAreLengths};

/// The canonical text of a program is a text of that program, alone and with a certificate after it.
pub fn canonical_texts_are_read_again()
    ensures { AreReadAgain }
{}

/// The length of a program's canonical text is a sum over its tree, and that of statements is a sum over the list.
pub fn sizes_are_lengths()
    ensures programs { SizesAreLengths }
    ensures lists { ListsAreSums }
{}
