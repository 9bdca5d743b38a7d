//! The law of layouts: what is printed has the tree's tokens, and is read as the same tree.
//! Read `specs/ReadAgain.antt` first.
//! Used by: whoever lays out a text and reads it again. By `vlt_syntax_laws` a text has one tree.
#![tactic(auto)]

ghost use Rattle.vlt_printer_laws.specs.ReadAgain.{IsReadAgain};

/// The layout of a tree that some text reads is a text of the same tokens and of the same tree, aside from places, and that tree
/// has the same layout.
pub fn layouts_are_read_again()
    ensures { IsReadAgain }
{}
