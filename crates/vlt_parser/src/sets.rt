//! The states of a set.

ghost use Rattle.std.specs.Prelude.{◌≡◌, ◌∷◌, ◌+◌, [], map, IfErr, IfOk};
ghost use Rattle.vlt_tokens.specs.declared.token.Mark.TheVariants.{Comma, Less};
ghost use Rattle.vlt_syntax.specs.Tokens.{sign as a_sign};
ghost use Rattle.vlt_syntax.specs.Lists.{IsFilled};
ghost use Rattle.vlt_syntax.specs.Spelling.{set_states_then, state_sign};
ghost use Rattle.vlt_syntax.specs.Grammar.{AtMost, BeginsChain, language};
ghost use Rattle.vlt_syntax.specs.Places.{listed_at, set_state_at};
ghost use Rattle.vlt_syntax.specs.View.{set_state_of};
ghost use Rattle.vlt_automaton.specs.Language as automaton;
ghost use Rattle.vlt_parser.specs.Declarations.{states_left};
ghost use Rattle.vlt_parser_exprs.specs.Ahead.{LacksSign, lexemes_from, refusal};
ghost use Rattle.vlt_parser_exprs.specs.Promises.{Advances, Comes, Holds, Lies, Spells, Takes};
ghost use Rattle.vlt_parser_exprs.specs.Reading.{tokens_from};

use std::alloc::Global;
use vlt_base::{Items, STATES};
use vlt_parser_exprs::ParseError;
use vlt_parser_exprs::lists::{allow_one_more, bound};
use vlt_parser_exprs::tokens::{after_sign, name, sign};
use vlt_syntax::SetState;
use vlt_tokens::{Mark, Token};

/// The sign before a further state: whether it is a `<`, and the position after it.
fn state_link(tokens: &[Token<'_>], at: usize) -> Result<(bool, usize), ParseError>
    ensures spelled { IfOk result (λ x. tokens_from tokens.now at
        ≡ a_sign (state_sign x.0) ∷ tokens_from tokens.now x.1) }
    ensures one { IfOk result (λ x. x.1 ≡ at + 1) }
    ensures moves { Advances tokens.now at result }
    ensures ahead { IfOk result (λ x. Comes (a_sign (state_sign x.0)) tokens.now at x.1) }
    ensures lacks { IfErr result (λ e. (e ≡ refusal (lexemes_from tokens.now at)) ×
        LacksSign Comma (lexemes_from tokens.now at) ×
        LacksSign Less (lexemes_from tokens.now at)) }
{
    if let Some(next) = after_sign(tokens, at, Mark::Less) {
        return Ok((true, next));
    }
    let next = sign(tokens, at, Mark::Comma)?;
    Ok((false, next))
}

/// The states of a set, up to the closing brace.
#[tactic(auto, using(crate::proofs::StateSets::states_end, crate::proofs::StateSets::states_full, crate::proofs::StateSets::states_refused))]
pub fn set_states(
    alloc: Global,
    tokens: &[Token<'_>],
    at: usize,
) -> Result<(Items<SetState>, usize), ParseError>
    ensures spelled { Spells (map set_state_of) set_states_then tokens.now at result }
    ensures placed { Lies (map set_state_of) (listed_at set_state_at) tokens.now at result }
    ensures some { Holds (map set_state_of) IsFilled result }
    ensures few { Holds (map set_state_of) (AtMost language.states) result }
    ensures chain { Holds (map set_state_of) BeginsChain result }
    ensures moves { Advances tokens.now at result }
    ensures takes { Takes (automaton.name ∷ automaton.further_states (states_left 1) ∷ [])
        tokens.now at result }
{
    let most = Some(bound(STATES));
    let mut states = Items::new(alloc);
    let mut above = false;
    let mut here = at;
    loop {
        let (name, following) = name(alloc, tokens, here)?;
        states.push(SetState { name, above })?;
        if let Some(end) = after_sign(tokens, following, Mark::CloseBrace) {
            return Ok((states, end));
        }
        let (link, next) = state_link(tokens, following)?;
        allow_one_more(most, states.len())?;
        above = link;
        here = next;
    }
}
