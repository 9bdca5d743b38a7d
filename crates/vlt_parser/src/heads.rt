//! Heads of functions, with their clauses.

ghost use Rattle.std.specs.Prelude.{◌≡◌, ◌∷◌, [], ◌≤◌, length, map, option_map, IfOk};
ghost use Rattle.vlt_tokens.specs.declared.token.Mark.TheVariants.{OpenParen};
ghost use Rattle.vlt_syntax.specs.Lists.{Each};
ghost use Rattle.vlt_syntax.specs.Spelling.{result_type_then, clause_then, head_then};
ghost use Rattle.vlt_syntax.specs.Grammar.{IsEntry, IsResultType, IsHead, language};
ghost use Rattle.vlt_syntax.specs.Places.{clause_at, head_at, result_type_at};
ghost use Rattle.vlt_syntax.specs.View.{entry_of, name_of, result_type_of, head_of};
ghost use Rattle.vlt_automaton.specs.Language as automaton;
ghost use Rattle.vlt_parser.specs.Heads.{start_then, start_at};
ghost use Rattle.vlt_parser_exprs.specs.Reading.{tokens_from, Stands};
ghost use Rattle.vlt_parser_exprs.specs.Promises.{Advances, Holds, Lies, MayAdvance, MayBe, Spells, Takes};

use std::alloc::Global;
use vlt_base::{Items, PARAMETERS};
use vlt_parser_exprs::ParseError;
use vlt_parser_exprs::lists::{bound, listed};
use vlt_parser_exprs::tokens::{after_sign, kind, name, sign, span};
use vlt_parser_exprs::types::ty;
use vlt_syntax::{Entry, Head, Name, ResultType};
use vlt_tokens::{Mark, Token, TokenKind, Word};

#[tactic(auto, using(crate::proofs::Functions::result_type_void))]
fn result_type(
    alloc: Global,
    tokens: &[Token<'_>],
    at: usize,
) -> Result<(ResultType, usize), ParseError>
    ensures spelled { Spells result_type_of result_type_then tokens.now at result }
    ensures placed { Lies result_type_of result_type_at tokens.now at result }
    ensures right { Holds result_type_of IsResultType result }
    ensures moves { Advances tokens.now at result }
    ensures takes { Takes (automaton.thing automaton.a_result_type ∷ []) tokens.now at result }
{
    match kind(tokens, at) {
        Some(TokenKind::Keyword(Word::Void)) => Ok((
            ResultType::Void(span(tokens, at, at + 1)),
            at + 1,
        )),
        _ => {
            let (value, next) = ty(alloc, tokens, at)?;
            Ok((ResultType::Value(value), next))
        }
    }
}

/// A clause, if one comes next.
#[tactic(auto, using(crate::proofs::Functions::clause_some, crate::proofs::Functions::clause_none))]
fn clause(
    alloc: Global,
    tokens: &[Token<'_>],
    at: usize,
) -> Result<(Option<Items<Entry>>, usize), ParseError>
    requires { at ≤ length tokens.now }
    ensures spelled { Spells (option_map (map entry_of)) clause_then tokens.now at result }
    ensures placed { Lies (option_map (map entry_of)) clause_at tokens.now at result }
    ensures right { MayBe (option_map (map entry_of)) (Each IsEntry) result }
    ensures moves { MayAdvance tokens.now at result }
    ensures takes { Takes (automaton.clause ∷ []) tokens.now at result }
{
    match after_sign(tokens, at, Mark::OpenBracket) {
        Some(next) => {
            let (entries, next) = listed(alloc, tokens, next, Mark::CloseBracket, None)?;
            Ok((Some(entries), next))
        }
        None => Ok((None, at)),
    }
}

/// What a head has before its parameters.
#[derive(Drop)]
struct HeadStart {
    result_type: ResultType,
    name: Name,
}

/// `void f(`
fn head_start(
    alloc: Global,
    tokens: &[Token<'_>],
    at: usize,
) -> Result<(HeadStart, usize), ParseError>
    ensures spelled { IfOk result (λ x. tokens_from tokens.now at ≡
        start_then (result_type_of x.0.result_type) (name_of x.0.name)
        (tokens_from tokens.now x.1)) }
    ensures placed { IfOk result (λ x. Stands start_at
        tokens.now at (result_type_of x.0.result_type, name_of x.0.name) x.1) }
    ensures right { IfOk result (λ x. IsResultType (result_type_of x.0.result_type)) }
    ensures moves { Advances tokens.now at result }
    ensures takes { Takes (automaton.thing automaton.a_result_type ∷ automaton.name ∷
        automaton.sign OpenParen ∷ []) tokens.now at result }
{
    let (result_type, next) = result_type(alloc, tokens, at)?;
    let (name, next) = name(alloc, tokens, next)?;
    let next = sign(tokens, next, Mark::OpenParen)?;
    Ok((HeadStart { result_type, name }, next))
}

#[tactic(auto, using(crate::proofs::Functions::head_is))]
pub fn head(alloc: Global, tokens: &[Token<'_>], at: usize) -> Result<(Head, usize), ParseError>
    ensures spelled { Spells head_of head_then tokens.now at result }
    ensures placed { Lies head_of head_at tokens.now at result }
    ensures right { Holds head_of (IsHead language) result }
    ensures moves { Advances tokens.now at result }
    ensures takes { Takes (automaton.head ∷ []) tokens.now at result }
{
    let (start, next) = head_start(alloc, tokens, at)?;
    let most = Some(bound(PARAMETERS));
    let (parameters, next) = listed(alloc, tokens, next, Mark::CloseParen, most)?;
    let (clause, next) = clause(alloc, tokens, next)?;
    let at = span(tokens, at, next);
    Ok((
        Head {
            result_type: start.result_type,
            name: start.name,
            parameters,
            clause,
            at,
        },
        next,
    ))
}
