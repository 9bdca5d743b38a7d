//! The automaton of the grammar: tokens go in one by one, and it goes on, or refuses at the token that decides it; no code.
//! Read `specs/Automaton.antt` first, then `Language.antt`: the same within the limits of the language.
//! Used by: the parser's proof, and `vlt_syntax_laws`, which says that it refuses as the grammar does. No public clause of the parser cites it.
#![tactic(auto)]
