//! States, keys with their states, and types.

ghost use Rattle.std.specs.Prelude.{◌≡◌, ◌∷◌, [], ◌≤◌, ◌+◌, length, Option, Some, None, option_map};
ghost use Rattle.vlt_tokens.specs.declared.token.Word.TheVariants.{Tracked};
ghost use Rattle.vlt_syntax.specs.Tokens.{keyword as a_keyword};
ghost use Rattle.vlt_syntax.specs.Tree.{KeyStates as SeenKeyStates, Ty as SeenTy};
ghost use Rattle.vlt_syntax.specs.Spelling.{states_then, at_states_then, marked_name_then, key_states_then, named_then, ty_then};
ghost use Rattle.vlt_syntax.specs.Grammar.{IsStates, IsKeyStates, IsTy};
ghost use Rattle.vlt_syntax.specs.Places.{key_states_at, marked_at, name_at, named_at, states_at, ty_at};
ghost use Rattle.vlt_syntax.specs.View.{name_of, states_of, key_states_of, named_of, ty_of};
ghost use Rattle.vlt_automaton.specs.Language as automaton;
ghost use Rattle.vlt_parser_exprs.specs.Reading.{Moves};
ghost use Rattle.vlt_parser_exprs.specs.Promises.{Advances, Holds, Lies, MayAdvance, MayBe, Spells, SpellsAfter, Takes};

use crate::error::ParseError;
use crate::lists::{Part, enclosed, some_listed};
use crate::tokens::{after_sign, keyword, kind, name, sign, span, unexpected};
use std::alloc::Global;
use vlt_syntax::{KeyStates, Name, Named, States, Ty};
use vlt_tokens::{Mark, Token, TokenKind, Word};

/// A sign and the name after it, if the sign comes next.
#[tactic(auto, using(crate::proofs::Runs::marked_some, crate::proofs::Runs::marked_none))]
pub fn marked_name(
    alloc: Global,
    tokens: &[Token<'_>],
    at: usize,
    mark: Mark,
) -> Result<(Option<Name>, usize), ParseError>
    requires { at ≤ length tokens.now }
    ensures spelled { Spells (option_map name_of) (marked_name_then mark) tokens.now at result }
    ensures placed { Lies (option_map name_of) (marked_at name_at) tokens.now at result }
    ensures moves { MayAdvance tokens.now at result }
    ensures takes { Takes (automaton.marked_name mark ∷ []) tokens.now at result }
{
    match after_sign(tokens, at, mark) {
        Some(next) => {
            let (found, next) = name(alloc, tokens, next)?;
            Ok((Some(found), next))
        }
        None => Ok((None, at)),
    }
}

/// One state, or some between braces.
#[tactic(auto, using(crate::proofs::Runs::states_several, crate::proofs::Runs::states_one))]
pub fn states(alloc: Global, tokens: &[Token<'_>], at: usize) -> Result<(States, usize), ParseError>
    ensures spelled { Spells states_of states_then tokens.now at result }
    ensures placed { Lies states_of states_at tokens.now at result }
    ensures right { Holds states_of IsStates result }
    ensures moves { Advances tokens.now at result }
    ensures takes { Takes (automaton.states ∷ []) tokens.now at result }
{
    match after_sign(tokens, at, Mark::OpenBrace) {
        Some(inside) => {
            let (names, next) = some_listed(alloc, tokens, inside, Mark::CloseBrace, None)?;
            Ok((States::Several(names, span(tokens, at, next)), next))
        }
        None => {
            let (one, next) = name(alloc, tokens, at)?;
            Ok((States::One(one), next))
        }
    }
}

/// `@` and states, if the sign comes next.
#[tactic(auto, using(crate::proofs::Runs::at_states_some, crate::proofs::Runs::at_states_none))]
pub fn at_states(
    alloc: Global,
    tokens: &[Token<'_>],
    at: usize,
) -> Result<(Option<States>, usize), ParseError>
    requires { at ≤ length tokens.now }
    ensures spelled { Spells (option_map states_of) at_states_then tokens.now at result }
    ensures placed { Lies (option_map states_of) (marked_at states_at) tokens.now at result }
    ensures right { MayBe (option_map states_of) IsStates result }
    ensures moves { MayAdvance tokens.now at result }
    ensures takes { Takes (automaton.at_states ∷ []) tokens.now at result }
{
    match after_sign(tokens, at, Mark::At) {
        Some(next) => {
            let (found, next) = states(alloc, tokens, next)?;
            Ok((Some(found), next))
        }
        None => Ok((None, at)),
    }
}

/// A key, and the states in which it is held.
#[tactic(auto, using(crate::proofs::Runs::key_is))]
pub fn key_states(
    alloc: Global,
    tokens: &[Token<'_>],
    at: usize,
) -> Result<(KeyStates, usize), ParseError>
    ensures spelled { Spells key_states_of key_states_then tokens.now at result }
    ensures placed { Lies key_states_of key_states_at tokens.now at result }
    ensures right { Holds key_states_of IsKeyStates result }
    ensures moves { Advances tokens.now at result }
    ensures takes { Takes (automaton.thing automaton.a_key ∷ []) tokens.now at result }
{
    let (key, next) = name(alloc, tokens, at)?;
    let (states, next) = at_states(alloc, tokens, next)?;
    Ok((KeyStates { key, states }, next))
}

impl Part for KeyStates {
    ghost Seen = { SeenKeyStates };

    ghost view = { key_states_of };

    ghost spell = { key_states_then };

    ghost places = { key_states_at };

    ghost right = { IsKeyStates };

    ghost thing = { automaton.a_key };

    fn part(
        alloc: Global,
        tokens: &[Token<'_>],
        at: usize,
    ) -> Result<(KeyStates, usize), ParseError> {
        key_states(alloc, tokens, at)
    }
}

/// The name of a type with its key arguments.
#[tactic(auto, using(crate::proofs::Runs::named_is))]
pub fn named(alloc: Global, tokens: &[Token<'_>], at: usize) -> Result<(Named, usize), ParseError>
    ensures spelled { Spells named_of named_then tokens.now at result }
    ensures placed { Lies named_of named_at tokens.now at result }
    ensures moves { Advances tokens.now at result }
    ensures takes { Takes (automaton.named ∷ []) tokens.now at result }
{
    let (name, next) = name(alloc, tokens, at)?;
    let (keys, next) = enclosed(alloc, tokens, next, Mark::Less, Mark::Greater, None)?;
    Ok((Named { name, keys }, next))
}

/// A tracked type, after its word.
#[tactic(auto, using(crate::proofs::Runs::tracked_keyed, crate::proofs::Runs::tracked_plain))]
fn tracked(
    alloc: Global,
    tokens: &[Token<'_>],
    at: usize,
    from: usize,
) -> Result<(Ty, usize), ParseError>
    requires following { Moves tokens.now from at }
    requires one { at ≡ from + 1 }
    ensures spelled { SpellsAfter (a_keyword Tracked) ty_of ty_then tokens.now at result }
    ensures placed { Lies ty_of ty_at tokens.now from result }
    ensures right { Holds ty_of IsTy result }
    ensures moves { Advances tokens.now at result }
    ensures takes { Takes (automaton.after_tracked ∷ []) tokens.now at result }
{
    if let Some(next) = after_sign(tokens, at, Mark::OpenParen) {
        let (key, next) = name(alloc, tokens, next)?;
        let next = sign(tokens, next, Mark::CloseParen)?;
        let (named, next) = named(alloc, tokens, next)?;
        let at = span(tokens, from, next);
        return Ok((Ty::Tracked { key, named, at }, next));
    }
    let (states, next) = at_states(alloc, tokens, at)?;
    let (named, next) = named(alloc, tokens, next)?;
    let at = span(tokens, from, next);
    Ok((Ty::Owning { states, named, at }, next))
}

/// A type that begins with a name.
#[tactic(auto, using(crate::proofs::Runs::type_name_guards, crate::proofs::Runs::type_name_plain))]
fn named_ty(alloc: Global, tokens: &[Token<'_>], at: usize) -> Result<(Ty, usize), ParseError>
    ensures spelled { Spells ty_of ty_then tokens.now at result }
    ensures placed { Lies ty_of ty_at tokens.now at result }
    ensures right { Holds ty_of IsTy result }
    ensures moves { Advances tokens.now at result }
    ensures takes { Takes (automaton.name ∷ automaton.after_type_name ∷ [])
        tokens.now at result }
{
    let (first, next) = name(alloc, tokens, at)?;
    if let Some(next) = after_sign(tokens, next, Mark::Colon) {
        let (named, next) = named(alloc, tokens, next)?;
        return Ok((Ty::Guarded { key: first, named }, next));
    }
    let (keys, next) = enclosed(alloc, tokens, next, Mark::Less, Mark::Greater, None)?;
    Ok((Ty::Plain(Named { name: first, keys }), next))
}

#[tactic(auto, using(crate::proofs::Runs::ty_word, crate::proofs::Runs::ty_named, crate::proofs::Runs::instead))]
pub fn ty(alloc: Global, tokens: &[Token<'_>], at: usize) -> Result<(Ty, usize), ParseError>
    ensures spelled { Spells ty_of ty_then tokens.now at result }
    ensures placed { Lies ty_of ty_at tokens.now at result }
    ensures right { Holds ty_of IsTy result }
    ensures moves { Advances tokens.now at result }
    ensures takes { Takes (automaton.thing automaton.a_ty ∷ []) tokens.now at result }
{
    match kind(tokens, at) {
        Some(TokenKind::Keyword(Word::Int)) => Ok((Ty::Int(span(tokens, at, at + 1)), at + 1)),
        Some(TokenKind::Keyword(Word::Bool)) => Ok((Ty::Bool(span(tokens, at, at + 1)), at + 1)),
        Some(TokenKind::Keyword(Word::Tracked)) => tracked(alloc, tokens, at + 1, at),
        Some(TokenKind::Name) => named_ty(alloc, tokens, at),
        _ => Err(unexpected(tokens, at)),
    }
}

impl Part for Ty {
    ghost Seen = { SeenTy };

    ghost view = { ty_of };

    ghost spell = { ty_then };

    ghost places = { ty_at };

    ghost right = { IsTy };

    ghost thing = { automaton.a_ty };

    fn part(alloc: Global, tokens: &[Token<'_>], at: usize) -> Result<(Ty, usize), ParseError> {
        ty(alloc, tokens, at)
    }
}
