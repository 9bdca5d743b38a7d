//! A held map against one that is given as pairs, token by token.

ghost use Rattle.std.specs.Prelude.{◌≡◌, ◌↔◌, IsTrue, IfOk, IfErr, OnOk};
ghost use Rattle.vlt_core.specs.Core.{a_var};
ghost use Rattle.vlt_core.specs.View.{tok_of};
ghost use Rattle.vlt_core.specs.HeldView.{status_of};
ghost use Rattle.vlt_core.specs.Maps.{IsStatusBelow, IsBelow, absent};
ghost use Rattle.vlt_keyset.specs.Pairs.{map_of_pairs, IsBefore, AreInOrder};
ghost use Rattle.vlt_keyset.specs.Held.{map_of, HasPlace, IsApart};
ghost use Rattle.vlt_keyset.specs.Cursors.{IsAt, IsPast, IsHere, AreBelow};

use crate::Held;
use crate::faults::Apart;
use crate::statuses::is_below;
use vlt_base::{KeyId, VarId};
use vlt_core::{Status, Tok};

/// The status that the pairs give to a token, and the place after its own in the list.
#[derive(Clone, Copy)]
struct Given {
    status: Status,
    next: usize,
}

/// What the pairs give to a token whose pair, if it has one, is at the place.
fn given_at(pairs: &[(Tok, Status)], at: usize, tok: Tok) -> Given
    requires { IsAt pairs.now at (tok_of tok) }
    ensures status { status_of result.status ≡ map_of_pairs pairs.now (tok_of tok) }
    ensures past { IsPast pairs.now result.next (tok_of tok) }
{
    if at < pairs.len() {
        let pair = pairs[at];
        if pair.0.is_same(tok) {
            return Given {
                status: pair.1,
                next: at + 1,
            };
        }
    }
    Given {
        status: Status::Absent,
        next: at,
    }
}

/// Tests one token, and gives the place after its own in the list.
fn test(held: &Held, pairs: &[(Tok, Status)], at: usize, tok: Tok) -> Result<usize, Apart>
    requires place { HasPlace held.now (tok_of tok) }
    requires at { IsAt pairs.now at (tok_of tok) }
    ensures below { IfOk result (λ j. IsStatusBelow (map_of held.now (tok_of tok))
        (map_of_pairs pairs.now (tok_of tok))) }
    ensures past { IfOk result (λ j. IsPast pairs.now j (tok_of tok)) }
    ensures apart { IfErr result
        (IsHere (map_of held.now) (map_of_pairs pairs.now) (tok_of tok)) }
{
    let found = held.status(tok);
    let given = given_at(pairs, at, tok);
    if is_below(found, given.status) {
        Ok(given.next)
    } else {
        Err(Apart {
            tok,
            found,
            wanted: given.status,
        })
    }
}

fn is_key(t: Tok) -> bool
    ensures { IsTrue result ↔ IsBefore (tok_of t) (a_var 0) }
{
    match t {
        Tok::Key(_) => true,
        Tok::Var(_) => false,
    }
}

/// A token that the map has no place for.
fn missing(pair: (Tok, Status)) -> Apart
    ensures tok { tok_of result.tok ≡ tok_of pair.0 }
    ensures found { status_of result.found ≡ absent }
    ensures wanted { status_of result.wanted ≡ status_of pair.1 }
{
    Apart {
        tok: pair.0,
        found: Status::Absent,
        wanted: pair.1,
    }
}

/// Tests all keys, and gives the place of the first variable in the list.
pub fn test_keys(held: &Held, pairs: &[(Tok, Status)]) -> Result<usize, Apart>
    requires { AreInOrder pairs.now }
    ensures below { IfOk result
        (λ j. AreBelow (map_of held.now) (map_of_pairs pairs.now) (a_var 0)) }
    ensures at { IfOk result (λ j. IsAt pairs.now j (a_var 0)) }
    ensures apart { IfErr result (IsApart (map_of held.now) (map_of_pairs pairs.now)) }
{
    let mut at = 0;
    for k in 0..held.keys.len() {
        at = test(held, pairs, at, Tok::Key(KeyId(k as u32)))?;
    }
    if at < pairs.len() {
        let pair = pairs[at];
        if is_key(pair.0) {
            return Err(missing(pair));
        }
    }
    Ok(at)
}

/// Tests all variables, from the place of the first one in the list.
pub fn test_vars(held: &Held, pairs: &[(Tok, Status)], start: usize) -> Result<(), Apart>
    requires at { IsAt pairs.now start (a_var 0) }
    requires below { AreBelow (map_of held.now) (map_of_pairs pairs.now) (a_var 0) }
    ensures below { OnOk result (IsBelow (map_of held.now) (map_of_pairs pairs.now)) }
    ensures apart { IfErr result (IsApart (map_of held.now) (map_of_pairs pairs.now)) }
{
    let mut at = start;
    for v in 0..held.vars.len() {
        at = test(held, pairs, at, Tok::Var(VarId(v as u32)))?;
    }
    if at < pairs.len() {
        return Err(missing(pairs[at]));
    }
    Ok(())
}
