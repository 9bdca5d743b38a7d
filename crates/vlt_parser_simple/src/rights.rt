//! Right sides of declarations and assignments, calls, and what a `return` gives.

ghost use Rattle.std.specs.Prelude.{◌≡◌, ◌∷◌, [], ◌≤◌, ◌+◌, ℕ, true, false, length, None, IfOk, option_map};
ghost use Rattle.vlt_tokens.specs.declared.token.Word.TheVariants.{New, Adopt, Into};
ghost use Rattle.vlt_tokens.specs.declared.token.Mark.TheVariants.{OpenParen, CloseParen, OpenBrace, CloseBrace};
ghost use Rattle.vlt_tokens.specs.declared.token.TokenKind.TheVariants as kinds;
ghost use Rattle.vlt_syntax.specs.Tokens.{keyword as a_keyword, sign as a_sign};
ghost use Rattle.vlt_syntax.specs.Spelling.{build_then, call_then, owner_then, right_then, returned_then};
ghost use Rattle.vlt_syntax.specs.Grammar.{IsBuild, IsCall, IsRight, IsReturned, language};
ghost use Rattle.vlt_syntax.specs.Places.{build_at, call_at, owner_at, returned_at, right_at};
ghost use Rattle.vlt_syntax.specs.View.{name_of, build_of, call_of, right_of, returned_of};
ghost use Rattle.vlt_automaton.specs.Language as automaton;
ghost use Rattle.vlt_parser_exprs.specs.Reading.{tokens_from, Moves};
ghost use Rattle.vlt_parser_exprs.specs.Ahead.{lexemes_from, Begins, BeginsWith, LacksSign, Follows};
ghost use Rattle.vlt_parser_exprs.specs.Promises.{Advances, Holds, Lies, MayAdvance, Spells, SpellsAfter, Takes};

use std::alloc::Global;
use vlt_parser_exprs::ParseError;
use vlt_parser_exprs::exprs::expr;
use vlt_parser_exprs::lists::{enclosed, listed};
use vlt_parser_exprs::tokens::{after_sign, case_name, keyword, kind, name, sign, span};
use vlt_parser_exprs::types::named;
use vlt_syntax::{Build, Call, Name, Returned, Right};
use vlt_tokens::{Mark, Token, TokenKind, Word};

/// A case with its payload.
fn build(alloc: Global, tokens: &[Token<'_>], at: usize) -> Result<(Build, usize), ParseError>
    ensures spelled { Spells build_of build_then tokens.now at result }
    ensures placed { Lies build_of build_at tokens.now at result }
    ensures right { Holds build_of (IsBuild language) result }
    ensures moves { Advances tokens.now at result }
    ensures takes { Takes (automaton.tick ∷
        automaton.enclosed automaton.an_expr OpenParen CloseParen None ∷ []) tokens.now at result }
{
    let (case, next) = case_name(alloc, tokens, at)?;
    let (payload, next) = enclosed(alloc, tokens, next, Mark::OpenParen, Mark::CloseParen, None)?;
    let at = span(tokens, at, next);
    Ok((Build { case, payload, at }, next))
}

pub fn call(alloc: Global, tokens: &[Token<'_>], at: usize) -> Result<(Call, usize), ParseError>
    ensures spelled { Spells call_of call_then tokens.now at result }
    ensures placed { Lies call_of call_at tokens.now at result }
    ensures right { Holds call_of (IsCall language) result }
    ensures moves { Advances tokens.now at result }
    ensures takes { Takes (automaton.name ∷ automaton.sign OpenParen ∷
        automaton.listed automaton.an_expr CloseParen None ∷ []) tokens.now at result }
{
    let (function, next) = name(alloc, tokens, at)?;
    let next = sign(tokens, next, Mark::OpenParen)?;
    let (arguments, next) = listed(alloc, tokens, next, Mark::CloseParen, None)?;
    let at = span(tokens, at, next);
    Ok((
        Call {
            function,
            arguments,
            at,
        },
        next,
    ))
}

/// The variable of an object that adopts, in parentheses, if one comes next.
#[tactic(auto, using(crate::proofs::Sides::owner_some, crate::proofs::Sides::owner_none))]
fn owner(
    alloc: Global,
    tokens: &[Token<'_>],
    at: usize,
) -> Result<(Option<Name>, usize), ParseError>
    requires { at ≤ length tokens.now }
    ensures spelled { Spells (option_map name_of) owner_then tokens.now at result }
    ensures placed { Lies (option_map name_of) owner_at tokens.now at result }
    ensures moves { MayAdvance tokens.now at result }
    ensures takes { Takes (automaton.owner ∷ []) tokens.now at result }
{
    match after_sign(tokens, at, Mark::OpenParen) {
        Some(next) => {
            let (found, next) = name(alloc, tokens, next)?;
            let next = sign(tokens, next, Mark::CloseParen)?;
            Ok((Some(found), next))
        }
        None => Ok((None, at)),
    }
}

/// A `new`, after its word.
fn make(
    alloc: Global,
    tokens: &[Token<'_>],
    at: usize,
    from: usize,
) -> Result<(Right, usize), ParseError>
    requires following { Moves tokens.now from at }
    requires one { at ≡ from + 1 }
    ensures spelled { SpellsAfter (a_keyword New) right_of right_then tokens.now at result }
    ensures placed { Lies right_of right_at tokens.now from result }
    ensures right { Holds right_of (IsRight language) result }
    ensures moves { Advances tokens.now at result }
    ensures takes { Takes (automaton.owner ∷ automaton.named ∷ automaton.sign OpenBrace ∷
        automaton.listed automaton.an_init CloseBrace None ∷ []) tokens.now at result }
{
    let (owner, next) = owner(alloc, tokens, at)?;
    let (named, next) = named(alloc, tokens, next)?;
    let next = sign(tokens, next, Mark::OpenBrace)?;
    let (fields, next) = listed(alloc, tokens, next, Mark::CloseBrace, None)?;
    let at = span(tokens, from, next);
    Ok((
        Right::New {
            owner,
            named,
            fields,
            at,
        },
        next,
    ))
}

/// An adoption, after its word.
fn adopt(
    alloc: Global,
    tokens: &[Token<'_>],
    at: usize,
    from: usize,
) -> Result<(Right, usize), ParseError>
    requires following { Moves tokens.now from at }
    requires one { at ≡ from + 1 }
    ensures spelled { SpellsAfter (a_keyword Adopt) right_of right_then tokens.now at result }
    ensures placed { Lies right_of right_at tokens.now from result }
    ensures right { Holds right_of (IsRight language) result }
    ensures moves { Advances tokens.now at result }
    ensures takes { Takes (automaton.name ∷ automaton.keyword Into ∷ automaton.name ∷ [])
        tokens.now at result }
{
    let (variable, next) = name(alloc, tokens, at)?;
    let next = keyword(tokens, next, Word::Into)?;
    let (owner, next) = name(alloc, tokens, next)?;
    let at = span(tokens, from, next);
    Ok((
        Right::Adopt {
            variable,
            owner,
            at,
        },
        next,
    ))
}

/// Whether a call begins here: a name and a `(`.
fn begins_call(tokens: &[Token<'_>], at: usize) -> bool
    ensures yes { result ≡ true →
        (next : ℕ) × Begins (a_sign OpenParen) (lexemes_from tokens.now (at + 1))
        (lexemes_from tokens.now next) }
    ensures no { result ≡ false →
        BeginsWith kinds.Name (lexemes_from tokens.now at) (lexemes_from tokens.now (at + 1)) →
        LacksSign OpenParen (lexemes_from tokens.now (at + 1)) }
{
    matches!(kind(tokens, at), Some(TokenKind::Name))
        && after_sign(tokens, at + 1, Mark::OpenParen).is_some()
}

/// The pair of parentheses after `input` or `more`.
fn no_arguments(tokens: &[Token<'_>], at: usize) -> Result<usize, ParseError>
    ensures spelled { IfOk result (λ next. tokens_from tokens.now at ≡ a_sign OpenParen ∷
        a_sign CloseParen ∷ tokens_from tokens.now next) }
    ensures two { IfOk result (λ next. next ≡ at + 1 + 1) }
    ensures moves { IfOk result (λ next. Moves tokens.now at next) }
    ensures takes { Follows (automaton.sign OpenParen ∷ automaton.sign CloseParen ∷
        []) (λ x. x) tokens.now at result }
{
    let next = sign(tokens, at, Mark::OpenParen)?;
    sign(tokens, next, Mark::CloseParen)
}

#[tactic(auto, using(crate::proofs::Sides::right_build, crate::proofs::Sides::right_word, crate::proofs::Sides::right_call, crate::proofs::Sides::right_variable, vlt_parser_exprs::proofs::Runs::instead, crate::proofs::Spans::input_stands, crate::proofs::Spans::more_stands))]
pub fn right(alloc: Global, tokens: &[Token<'_>], at: usize) -> Result<(Right, usize), ParseError>
    ensures spelled { Spells right_of right_then tokens.now at result }
    ensures placed { Lies right_of right_at tokens.now at result }
    ensures right { Holds right_of (IsRight language) result }
    ensures moves { Advances tokens.now at result }
    ensures takes { Takes (automaton.right ∷ []) tokens.now at result }
{
    match kind(tokens, at) {
        Some(TokenKind::Tick) => {
            let (built, next) = build(alloc, tokens, at)?;
            Ok((Right::Build(built), next))
        }
        Some(TokenKind::Keyword(Word::Input)) => {
            let next = no_arguments(tokens, at + 1)?;
            Ok((Right::Input(span(tokens, at, next)), next))
        }
        Some(TokenKind::Keyword(Word::More)) => {
            let next = no_arguments(tokens, at + 1)?;
            Ok((Right::More(span(tokens, at, next)), next))
        }
        Some(TokenKind::Keyword(Word::New)) => make(alloc, tokens, at + 1, at),
        Some(TokenKind::Keyword(Word::Adopt)) => adopt(alloc, tokens, at + 1, at),
        Some(TokenKind::Name) if begins_call(tokens, at) => {
            let (called, next) = call(alloc, tokens, at)?;
            Ok((Right::Call(called), next))
        }
        _ => {
            let (value, next) = expr(alloc, tokens, at)?;
            Ok((Right::Value(value), next))
        }
    }
}

/// What stands between `return` and its semicolon.
#[tactic(auto, using(crate::proofs::Sides::returned_nothing, crate::proofs::Sides::returned_build))]
pub fn returned(
    alloc: Global,
    tokens: &[Token<'_>],
    at: usize,
) -> Result<(Returned, usize), ParseError>
    requires { at ≤ length tokens.now }
    ensures spelled { Spells returned_of returned_then tokens.now at result }
    ensures placed { Lies returned_of returned_at tokens.now at result }
    ensures right { Holds returned_of (IsReturned language) result }
    ensures moves { MayAdvance tokens.now at result }
    ensures takes { Takes (automaton.returned ∷ []) tokens.now at result }
{
    match kind(tokens, at) {
        Some(TokenKind::Sign(Mark::Semicolon)) => Ok((Returned::Nothing, at)),
        Some(TokenKind::Tick) => {
            let (built, next) = build(alloc, tokens, at)?;
            Ok((Returned::Build(built), next))
        }
        _ => {
            let (value, next) = expr(alloc, tokens, at)?;
            Ok((Returned::Value(value), next))
        }
    }
}
