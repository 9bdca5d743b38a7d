//! Lists of things with commas between them.

ghost use Rattle.std.specs.Prelude.{◌≡◌, ◌<◌, ◌≤◌, ◌+◌, ◌∷◌, [], length, map, IfOk, IfErr, OnOk, List};
ghost use Rattle.vlt_base.specs.Limits.{limit_of};
ghost use Rattle.vlt_automaton.specs.Language as automaton;
ghost use Rattle.vlt_syntax.specs.Tokens.{Token as Plain};
ghost use Rattle.vlt_syntax.specs.Spelling.{name_then};
ghost use Rattle.vlt_syntax.specs.Tree.{Name as SeenName};
ghost use Rattle.vlt_syntax.specs.Places.{enclosed_at, listed_at, Placing, name_at};
ghost use Rattle.vlt_syntax.specs.View.{name_of};
ghost use Rattle.vlt_syntax.specs.Lists.{listed_then, enclosed_then, Each, IsFilled};
ghost use Rattle.vlt_parser_exprs.specs.Reading.{IsWithin, IsSomeMost};
ghost use Rattle.vlt_parser_exprs.specs.Ahead.{left_of, IsFull};
ghost use Rattle.vlt_parser_exprs.specs.Promises.{Advances, Holds, Lies, MayAdvance, Spells, Takes};

use crate::error::ParseError;
use crate::tokens::{after_sign, name, sign};
use std::alloc::Global;
use vlt_base::{Items, limit};
use vlt_syntax::Name;
use vlt_tokens::{Mark, Token};

/// A thing that stands in lists.
pub trait Part: Sized + Drop {
    ghost Seen: { Type 0 };

    ghost view: { Self → Seen };

    ghost spell: { Seen → List Plain → List Plain };

    ghost places: { Seen → Placing Seen };

    ghost right: { Seen → Type 0 };

    ghost thing: { automaton.Thing };

    /// Reads one.
    fn part(alloc: Global, tokens: &[Token<'_>], at: usize) -> Result<(Self, usize), ParseError>
        ensures spelled { Spells view spell tokens.now at result }
        ensures placed { Lies view places tokens.now at result }
        ensures right { IfOk result (λ x. right (view x.0)) }
        ensures moves { Advances tokens.now at result }
        ensures takes { Takes (automaton.thing thing ∷ []) tokens.now at result };
}

impl Part for Name {
    ghost Seen = { SeenName };

    ghost view = { name_of };

    ghost spell = { name_then };

    ghost places = { name_at };

    ghost right = { λ n. Unit {0} };

    ghost thing = { automaton.a_name };

    fn part(alloc: Global, tokens: &[Token<'_>], at: usize) -> Result<(Name, usize), ParseError> {
        name(alloc, tokens, at)
    }
}

/// How many things a list may have.
#[derive(Clone, Copy)]
pub struct Most {
    /// The number of the limit.
    pub limit: u8,
    pub count: usize,
}

/// What the limit of a number allows.
pub fn bound(number: u8) -> Most
    requires from { 1 ≤ number }
    requires to { number ≤ 15 }
    ensures count { result.count ≡ limit_of number }
    ensures limit { result.limit ≡ number }
{
    Most {
        limit: number,
        count: limit(number) as usize,
    }
}

/// Whether one more may stand beside so many.
pub fn allow_one_more(most: Option<Most>, count: usize) -> Result<(), ParseError>
    ensures within { OnOk result (IsWithin most (count + 1)) }
    ensures full { IfErr result (λ e. IsFull most count e) }
{
    match most {
        Some(most) if count >= most.count => Err(ParseError::Limit(most.limit)),
        _ => Ok(()),
    }
}

/// One thing or more, up to the closing sign.
#[tactic(auto, using(crate::proofs::Runs::further_closed, crate::proofs::Runs::further_full, crate::proofs::Runs::further_refused))]
pub fn some_listed<T: Part>(
    alloc: Global,
    tokens: &[Token<'_>],
    at: usize,
    closing: Mark,
    most: Option<Most>,
) -> Result<(Items<T>, usize), ParseError>
    requires { IsSomeMost most }
    ensures spelled { Spells (map T.view) (listed_then T.spell closing) tokens.now at result }
    ensures placed { Lies (map T.view) (listed_at T.places) tokens.now at result }
    ensures some { Holds (map T.view) IsFilled result }
    ensures right { Holds (map T.view) (Each T.right) result }
    ensures few { IfOk result (λ x. IsWithin most (length (map T.view x.0))) }
    ensures moves { Advances tokens.now at result }
    ensures takes { Takes (automaton.thing T.thing ∷
        automaton.further T.thing closing (left_of most 1) ∷ []) tokens.now at result }
{
    let mut items = Items::new(alloc);
    let mut here = at;
    loop {
        let (item, following) = T::part(alloc, tokens, here)?;
        items.push(item)?;
        if let Some(end) = after_sign(tokens, following, closing) {
            return Ok((items, end));
        }
        let next = sign(tokens, following, Mark::Comma)?;
        allow_one_more(most, items.len())?;
        here = next;
    }
}

/// Things up to the closing sign, if need be none.
#[tactic(auto, using(crate::proofs::Runs::listed_closed, crate::proofs::Runs::listed_some))]
pub fn listed<T: Part>(
    alloc: Global,
    tokens: &[Token<'_>],
    at: usize,
    closing: Mark,
    most: Option<Most>,
) -> Result<(Items<T>, usize), ParseError>
    requires { IsSomeMost most }
    ensures spelled { Spells (map T.view) (listed_then T.spell closing) tokens.now at result }
    ensures placed { Lies (map T.view) (listed_at T.places) tokens.now at result }
    ensures right { Holds (map T.view) (Each T.right) result }
    ensures few { IfOk result (λ x. IsWithin most (length (map T.view x.0))) }
    ensures moves { Advances tokens.now at result }
    ensures takes { Takes (automaton.listed T.thing closing (left_of most 0) ∷ [])
        tokens.now at result }
{
    if let Some(end) = after_sign(tokens, at, closing) {
        return Ok((Items::new(alloc), end));
    }
    some_listed(alloc, tokens, at, closing, most)
}

/// Things between two signs, or none and no signs.
#[tactic(auto, using(crate::proofs::Runs::enclosed_some, crate::proofs::Runs::enclosed_none, crate::proofs::Runs::instead))]
pub fn enclosed<T: Part>(
    alloc: Global,
    tokens: &[Token<'_>],
    at: usize,
    opening: Mark,
    closing: Mark,
    most: Option<Most>,
) -> Result<(Items<T>, usize), ParseError>
    requires some { IsSomeMost most }
    requires within { at ≤ length tokens.now }
    ensures spelled { Spells (map T.view) (enclosed_then T.spell opening closing)
        tokens.now at result }
    ensures placed { Lies (map T.view) (enclosed_at T.places) tokens.now at result }
    ensures right { Holds (map T.view) (Each T.right) result }
    ensures few { IfOk result (λ x. IsWithin most (length (map T.view x.0))) }
    ensures moves { MayAdvance tokens.now at result }
    ensures takes { Takes (automaton.enclosed T.thing opening closing (left_of most 0) ∷ [])
        tokens.now at result }
{
    match after_sign(tokens, at, opening) {
        Some(inside) => some_listed(alloc, tokens, inside, closing, most),
        None => Ok((Items::new(alloc), at)),
    }
}
