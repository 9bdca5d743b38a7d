//! Laws of the grammar of C texts: nothing goes in and nothing comes out.
//! Read `specs/Laws.antt` first, then `specs/Automaton.antt`.
//! Used by: `c_parser`, which refuses a text where the automaton does; and that a C text is read in one way.
#![tactic(auto)]

ghost use Rattle.std.specs.Prelude.{List};
ghost use Rattle.c_syntax.specs.Text.{Lexeme};
ghost use Rattle.c_automaton.specs.Laws.{HasOneRefusal, HasUnitOrRefusal, IsNeverBoth, RefusesAsTheGrammar};

/// Where the automaton refuses tokens, the grammar does, for the same reason.
pub fn automaton_refuses_as_the_grammar()
    ensures { RefusesAsTheGrammar }
{}

/// Tokens are those of a text within the limits, or the grammar refuses them for one reason, and never both.
pub fn tokens_are_read_in_one_way()
    ensures refusal { (ls : List Lexeme) → HasOneRefusal ls }
    ensures either { (ls : List Lexeme) → HasUnitOrRefusal ls }
    ensures never_both { (ls : List Lexeme) → IsNeverBoth ls }
{}
