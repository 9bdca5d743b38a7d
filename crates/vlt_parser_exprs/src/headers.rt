//! Headers of types, and cases of variants.

ghost use Rattle.std.specs.Prelude.{◌≤◌, ◌∷◌, [], length, map};
ghost use Rattle.vlt_syntax.specs.Tree.{HeaderKey as SeenHeaderKey, Case as SeenCase};
ghost use Rattle.vlt_syntax.specs.Spelling.{header_key_then, header_then, case_then};
ghost use Rattle.vlt_syntax.specs.Grammar.{AtMost, IsCase, language};
ghost use Rattle.vlt_syntax.specs.Places.{case_at, enclosed_at, header_key_at};
ghost use Rattle.vlt_syntax.specs.View.{header_key_of, case_of};
ghost use Rattle.vlt_automaton.specs.Language as automaton;
ghost use Rattle.vlt_parser_exprs.specs.Promises.{Holds, Lies, MayAdvance, Spells, Takes};

use crate::error::ParseError;
use crate::lists::{Part, bound, enclosed};
use crate::tokens::{case_name, name, span};
use crate::types::marked_name;
use std::alloc::Global;
use vlt_base::{Items, PARAMETERS, PAYLOADS};
use vlt_syntax::{Case, HeaderKey};
use vlt_tokens::{Mark, Token};

impl Part for HeaderKey {
    ghost Seen = { SeenHeaderKey };

    ghost view = { header_key_of };

    ghost spell = { header_key_then };

    ghost places = { header_key_at };

    ghost right = { λ p. Unit {0} };

    ghost thing = { automaton.a_param };

    #[tactic(auto, using(crate::proofs::Variants::param_is))]
    fn part(
        alloc: Global,
        tokens: &[Token<'_>],
        at: usize,
    ) -> Result<(HeaderKey, usize), ParseError> {
        let (key, next) = name(alloc, tokens, at)?;
        let (key_type, next) = marked_name(alloc, tokens, next, Mark::Colon)?;
        Ok((HeaderKey { key, key_type }, next))
    }
}

/// The header of a type, if one comes next.
pub fn header(
    alloc: Global,
    tokens: &[Token<'_>],
    at: usize,
) -> Result<(Items<HeaderKey>, usize), ParseError>
    requires { at ≤ length tokens.now }
    ensures spelled { Spells (map header_key_of) header_then tokens.now at result }
    ensures placed { Lies (map header_key_of) (enclosed_at header_key_at) tokens.now at result }
    ensures few { Holds (map header_key_of) (AtMost language.parameters) result }
    ensures moves { MayAdvance tokens.now at result }
    ensures takes { Takes (automaton.header ∷ []) tokens.now at result }
{
    let most = Some(bound(PARAMETERS));
    enclosed(alloc, tokens, at, Mark::Less, Mark::Greater, most)
}

impl Part for Case {
    ghost Seen = { SeenCase };

    ghost view = { case_of };

    ghost spell = { case_then };

    ghost places = { case_at };

    ghost right = { IsCase language };

    ghost thing = { automaton.a_case };

    #[tactic(auto, using(crate::proofs::Variants::case_is))]
    fn part(alloc: Global, tokens: &[Token<'_>], at: usize) -> Result<(Case, usize), ParseError> {
        let (name, next) = case_name(alloc, tokens, at)?;
        let most = Some(bound(PAYLOADS));
        let (payload, next) = enclosed(
            alloc,
            tokens,
            next,
            Mark::OpenParen,
            Mark::CloseParen,
            most,
        )?;
        let (keys, next) = enclosed(alloc, tokens, next, Mark::OpenBrace, Mark::CloseBrace, None)?;
        let at = span(tokens, at, next);
        Ok((
            Case {
                name,
                payload,
                keys,
                at,
            },
            next,
        ))
    }
}
