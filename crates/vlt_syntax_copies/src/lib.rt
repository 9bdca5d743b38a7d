//! Copies of declarations: a declaration and a distance in, the same declaration with all places so much further on out.
//! Read `specs/Mapped.antt` first, then `Raised`, `Shifted` and `Within`.
//! Used by: views of an interface with a module. A part that is shifted by 0 is a plain copy.
#![tactic(auto)]

ghost use Rattle.std.specs.Prelude.{◌≡◌, ◌+◌, ◌<◌, ◌≤◌, ◌^◌, ℕ, List, length, map};
ghost use Rattle.vlt_tokens.specs.Lexemes.{Lexeme};
ghost use Rattle.vlt_lexer.specs.Text.{IsTokensOf};
ghost use Rattle.vlt_syntax.specs.Tree.{Decl, Tree};
ghost use Rattle.vlt_syntax.specs.Places.{StandsIn};
ghost use Rattle.vlt_syntax_copies.specs.Raised.{raised};
ghost use Rattle.vlt_syntax_copies.specs.Shifted.{shifted};
ghost use Rattle.vlt_syntax_copies.specs.Within.{AreWithin};

mod blocks;
mod decls;
mod exprs;
mod heads;
mod names;
mod rights;
mod simple;
mod statements;
mod types;

pub use decls::shifted_decl;

/// A declaration that is raised by nothing stays as it is.
pub fn raised_by_zero()
    ensures { (d : Decl) → raised 0 d ≡ d }
{}

/// A declaration that is shifted by nothing stays as it is.
pub fn shifted_by_zero()
    ensures { (d : Decl) → shifted 0 d ≡ d }
{}

/// Where no place of a tree is greater than an end, and 32 bits hold that end so much further on, shifting raises.
pub fn near_trees_are_raised()
    ensures { (by end : ℕ) (t : Tree) → AreWithin end t → end + by < 2 ^ 32 →
        map (shifted by) t.decls ≡ map (raised by) t.decls }
{}

/// No place of a text's tree is greater than the text has bytes.
pub fn texts_are_within()
    ensures { (bytes : List ℕ) (ls : List Lexeme) (t : Tree) (end : ℕ) →
        IsTokensOf bytes ls → StandsIn ls t → length bytes ≤ end → AreWithin end t }
{}
