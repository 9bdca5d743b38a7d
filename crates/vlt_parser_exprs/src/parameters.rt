//! Parameters of functions, and entries of their clauses.

ghost use Rattle.std.specs.Prelude.{◌≡◌, ◌∷◌, [], IfOk};
ghost use Rattle.vlt_tokens.specs.declared.token.Mark.TheVariants.{CloseParen, LessEqual};
ghost use Rattle.vlt_syntax.specs.Tree.{Entry as SeenEntry, Parameter as SeenParameter};
ghost use Rattle.vlt_syntax.specs.Spelling.{entry_then, parameter_then};
ghost use Rattle.vlt_syntax.specs.Grammar.{IsEntry, IsParameter};
ghost use Rattle.vlt_syntax.specs.Places.{entry_at, parameter_at};
ghost use Rattle.vlt_syntax.specs.View.{entry_of, name_of, parameter_of};
ghost use Rattle.vlt_automaton.specs.Language as automaton;
ghost use Rattle.vlt_parser_exprs.specs.Bounds.{bound_at, bound_then};
ghost use Rattle.vlt_parser_exprs.specs.Promises.{Advances, Holds, Lies, Spells, Takes};
ghost use Rattle.vlt_parser_exprs.specs.Reading.{Stands, tokens_from};

use crate::error::ParseError;
use crate::lists::Part;
use crate::tokens::{after_sign, kind, name, sign, span};
use crate::types::{key_states, states, ty};
use std::alloc::Global;
use vlt_syntax::{Entry, KeyStates, Name, Parameter};
use vlt_tokens::{Mark, Token, TokenKind, Word};

impl Part for Parameter {
    ghost Seen = { SeenParameter };

    ghost view = { parameter_of };

    ghost spell = { parameter_then };

    ghost places = { parameter_at };

    ghost right = { IsParameter };

    ghost thing = { automaton.a_parameter };

    #[tactic(auto, using(crate::proofs::Functions::parameter_is))]
    fn part(
        alloc: Global,
        tokens: &[Token<'_>],
        at: usize,
    ) -> Result<(Parameter, usize), ParseError> {
        let (ty, next) = ty(alloc, tokens, at)?;
        let (name, next) = name(alloc, tokens, next)?;
        Ok((Parameter { ty, name }, next))
    }
}

/// A bound: the variable for the states up to it, and the state.
#[derive(Drop)]
struct StateBound {
    variable: Name,
    state: Name,
}

/// A bound, after its opening parenthesis.
fn state_bound(
    alloc: Global,
    tokens: &[Token<'_>],
    at: usize,
) -> Result<(StateBound, usize), ParseError>
    ensures spelled { IfOk result (λ x. tokens_from tokens.now at ≡
        bound_then (name_of x.0.variable) (name_of x.0.state) (tokens_from tokens.now x.1)) }
    ensures placed { IfOk result (λ x. Stands bound_at tokens.now at
        (name_of x.0.variable, name_of x.0.state) x.1) }
    ensures moves { Advances tokens.now at result }
    ensures takes { Takes (automaton.name ∷ automaton.sign LessEqual ∷ automaton.name ∷
        automaton.sign CloseParen ∷ []) tokens.now at result }
{
    let (variable, next) = name(alloc, tokens, at)?;
    let next = sign(tokens, next, Mark::LessEqual)?;
    let (state, next) = name(alloc, tokens, next)?;
    let next = sign(tokens, next, Mark::CloseParen)?;
    Ok((StateBound { variable, state }, next))
}

/// An entry that begins with its key.
#[tactic(auto, using(crate::proofs::Functions::entry_at, crate::proofs::Functions::entry_alone, crate::proofs::Functions::entry_bound, crate::proofs::Functions::entry_states, crate::proofs::Functions::entry_changes, crate::proofs::Functions::entry_stays))]
fn held_entry(alloc: Global, tokens: &[Token<'_>], at: usize) -> Result<(Entry, usize), ParseError>
    ensures spelled { Spells entry_of entry_then tokens.now at result }
    ensures placed { Lies entry_of entry_at tokens.now at result }
    ensures right { Holds entry_of IsEntry result }
    ensures moves { Advances tokens.now at result }
    ensures takes { Takes (automaton.name ∷ automaton.entry_states ∷ []) tokens.now at result }
{
    let (key, next) = name(alloc, tokens, at)?;
    let Some(next) = after_sign(tokens, next, Mark::At) else {
        return Ok((Entry::Held(KeyStates { key, states: None }), next));
    };
    if let Some(inside) = after_sign(tokens, next, Mark::OpenParen) {
        let (StateBound { variable, state }, next) = state_bound(alloc, tokens, inside)?;
        return Ok((
            Entry::Bound {
                key,
                variable,
                state,
            },
            next,
        ));
    }
    let (before, next) = states(alloc, tokens, next)?;
    match after_sign(tokens, next, Mark::Arrow) {
        Some(next) => {
            let (after, next) = states(alloc, tokens, next)?;
            Ok((Entry::Changed { key, before, after }, next))
        }
        None => {
            let states = Some(before);
            Ok((Entry::Held(KeyStates { key, states }), next))
        }
    }
}

impl Part for Entry {
    ghost Seen = { SeenEntry };

    ghost view = { entry_of };

    ghost spell = { entry_then };

    ghost places = { entry_at };

    ghost right = { IsEntry };

    ghost thing = { automaton.an_entry };

    #[tactic(auto, using(crate::proofs::Functions::entry_with))]
    fn part(alloc: Global, tokens: &[Token<'_>], at: usize) -> Result<(Entry, usize), ParseError> {
        match kind(tokens, at) {
            Some(TokenKind::Sign(Mark::Minus)) => {
                let (key, next) = key_states(alloc, tokens, at + 1)?;
                Ok((Entry::Taken(key, span(tokens, at, next)), next))
            }
            Some(TokenKind::Sign(Mark::Plus)) => {
                let (key, next) = key_states(alloc, tokens, at + 1)?;
                Ok((Entry::Given(key, span(tokens, at, next)), next))
            }
            Some(TokenKind::Keyword(Word::New)) => {
                let (key, next) = key_states(alloc, tokens, at + 1)?;
                Ok((Entry::Fresh(key, span(tokens, at, next)), next))
            }
            _ => held_entry(alloc, tokens, at),
        }
    }
}
