//! A held map as the list of its tokens that aren't absent.

ghost use Rattle.std.specs.Prelude.{◌≡◌, IfOk, OnOk};
ghost use Rattle.vlt_core.specs.Core.{Tok as SpecTok, a_key, a_var};
ghost use Rattle.vlt_keyset.specs.Held.{map_of};
ghost use Rattle.vlt_keyset.specs.Pairs.{HasOnly};
ghost use Rattle.vlt_flow.specs.Notes.Noted.{IfUnlisted};
ghost use Rattle.vlt_flow.specs.Notes.Listed.{map_in, IsListed};
ghost use Rattle.vlt_flow.specs.Notes.Pushed.{status_in, first_of, keys_of, vars_of, IsPushed, with_pair, IsListedTo};

use crate::errors::NoteError;
use std::alloc::Global;
use vlt_base::{Items, KeyId, Memory, VarId};
use vlt_core::{Status, Tok, TokMap};
use vlt_keyset::{Held, TokenCounts};

fn push(pairs: &mut Items<(Tok, Status)>, tok: Tok, status: Status) -> Result<(), Memory>
    ensures pushed { OnOk result (IsPushed tok status pairs.old pairs.new) }
    ensures list { OnOk result (pairs.new ≡ with_pair tok status pairs.old) }
{
    match status {
        Status::Absent => Ok(()),
        _ => Ok(pairs.push((tok, status))?),
    }
}

/// Lists the keys.
fn push_keys(
    pairs: &mut Items<(Tok, Status)>,
    held: &Held,
    counts: TokenCounts,
) -> Result<(), Memory>
    requires { HasOnly counts.keys counts.vars (map_of held.now) }
    ensures status { OnOk result ((t : SpecTok) →
        status_in pairs.new t ≡ first_of (status_in pairs.old t) (keys_of (map_of held.now) t)) }
    ensures order { IsListedTo counts.keys counts.vars (a_key 0) pairs.old →
        OnOk result (IsListedTo counts.keys counts.vars (a_var 0) pairs.new) }
{
    for key in 0..counts.keys {
        let tok = Tok::Key(KeyId(key));
        if !held.has(tok) {
            return Ok(());
        }
        push(pairs, tok, held.status(tok))?;
    }
    Ok(())
}

/// Lists the variables.
fn push_vars(
    pairs: &mut Items<(Tok, Status)>,
    held: &Held,
    counts: TokenCounts,
) -> Result<(), Memory>
    requires { HasOnly counts.keys counts.vars (map_of held.now) }
    ensures status { OnOk result ((t : SpecTok) →
        status_in pairs.new t ≡ first_of (status_in pairs.old t) (vars_of (map_of held.now) t)) }
    ensures order { IsListedTo counts.keys counts.vars (a_var 0) pairs.old →
        OnOk result (IsListed counts.keys counts.vars pairs.new) }
{
    for var in 0..counts.vars {
        let tok = Tok::Var(VarId(var));
        if !held.has(tok) {
            return Ok(());
        }
        push(pairs, tok, held.status(tok))?;
    }
    Ok(())
}

/// The list of a map of a function with so many tokens; `Unfit` where another token isn't absent.
pub fn listed(alloc: Global, held: &Held, counts: TokenCounts) -> Result<TokMap, NoteError>
    ensures map { IfOk result (λ m. map_in m ≡ map_of held.now) }
    ensures order { IfOk result (λ m. IsListed counts.keys counts.vars m.pairs) }
    ensures unfit { IfUnlisted result (HasOnly counts.keys counts.vars (map_of held.now) → ⊥) }
{
    if !held.has_only(counts) {
        return Err(NoteError::Unfit);
    }
    let mut pairs = Items::new(alloc);
    push_keys(&mut pairs, held, counts)?;
    push_vars(&mut pairs, held, counts)?;
    Ok(TokMap { pairs })
}
