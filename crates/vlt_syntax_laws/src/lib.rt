//! Laws of the grammar: a text has just one tree, or is refused in just one way; and the automaton decides which.
//! Read `vlt_syntax/specs/Refusals.antt` and `specs/Laws.antt` first.
//! Used by: the clauses of `vlt_parser::parse`.
#![tactic(auto)]

ghost use Rattle.std.specs.Prelude.{List, ◌≡◌, ℕ};
ghost use Rattle.vlt_tokens.specs.Lexemes.{Lexeme};
ghost use Rattle.vlt_syntax_laws.specs.Laws.{HasOneTree, HasOneRefusal, HasTreeOrRefusal, IsNeverBoth, IsAccepting, IsAcceptingTrees, IsRefusing, IsRefusingAll};
ghost use Rattle.vlt_lexer.specs.Text.{IsTokensOf};
ghost use Rattle.vlt_syntax.specs.Tokens.{tokens_in};
ghost use Rattle.vlt_syntax.specs.Tree.{Tree};
ghost use Rattle.vlt_syntax.specs.Lists.{Each};
ghost use Rattle.vlt_syntax.specs.Spelling.{spelling};
ghost use Rattle.vlt_syntax_laws.specs.Ticks.{HasTicks};
ghost use Rattle.vlt_syntax_laws.specs.Numbers.{HasNumbers};

/// The grammar alone: one tree with its places, or one refusal, and never both.
pub fn tokens_are_read_in_one_way()
    ensures tree { (ls : List Lexeme) → HasOneTree ls }
    ensures refusal { (ls : List Lexeme) → HasOneRefusal ls }
    ensures either { (ls : List Lexeme) → HasTreeOrRefusal ls }
    ensures never_both { (ls : List Lexeme) → IsNeverBoth ls }
{}

/// The automaton that reads token by token accepts the tokens of trees alone, and refuses just what the grammar refuses.
pub fn automaton_decides()
    ensures accepts { (ls : List Lexeme) → IsAccepting ls }
    ensures trees { (ls : List Lexeme) → IsAcceptingTrees ls }
    ensures refuses { (ls : List Lexeme) → IsRefusing ls }
    ensures all { (ls : List Lexeme) → IsRefusingAll ls }
{}

/// In a tree that a text spells each name of a variant's case begins with a `'`.
pub fn texts_have_ticks()
    ensures { (bytes : List ℕ) (ls : List Lexeme) (t : Tree) →
        IsTokensOf bytes ls → tokens_in ls ≡ spelling t → Each HasTicks t.decls }
{}

/// In a tree that a text spells each number is from 0 to 2^63 - 1.
pub fn texts_have_numbers()
    ensures { (bytes : List ℕ) (ls : List Lexeme) (t : Tree) →
        IsTokensOf bytes ls → tokens_in ls ≡ spelling t → HasNumbers t }
{}
