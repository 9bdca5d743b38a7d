//! What a block's list of tokens breaks.

ghost use Rattle.std.specs.Prelude.{◌≡◌, ◌++◌, map, filter, IfOk, OnOk};
ghost use Rattle.std.specs.Option.{option_map};
ghost use Rattle.std.specs.List.{flat_map, range_with_len};
ghost use Rattle.vlt_core.specs.View.{func_of, tok_of, vars_of};
ghost use Rattle.vlt_core.specs.Core.{a_key, a_var};
ghost use Rattle.vlt_core.specs.Lookups.{is_owning_var};
ghost use Rattle.vlt_core.specs.Maps.{is_tok};
ghost use Rattle.vlt_core.specs.Rows.{in_order};
ghost use Rattle.vlt_core.specs.KindedBodies as s;
ghost use Rattle.cert_kinds_types.specs.Least.{least};
ghost use Rattle.cert_kinds_blocks.specs.Tokens as z;

use cert_kinds_heads::is_key;
use cert_kinds_types::{lesser, unless};
use std::alloc::{AllocError, Global};
use vlt_base::{Items, VarId};
use vlt_core::{Func, Tok, rules};

fn token_broken(f: &Func, tok: Tok) -> Option<u8>
    ensures { result ≡ least (s.token_broken (func_of f.now) (tok_of tok)) }
{
    match tok {
        Tok::Key(k) => unless(is_key(f, k.0 as usize), rules::UNKNOWN_NAME),
        Tok::Var(v) => unless((v.0 as usize) < f.vars.len(), rules::UNKNOWN_NAME),
    }
}

#[tactic(auto, using(cert_kinds_types::proofs::Smallest::each_more))]
fn token_list_broken(f: &Func, listed: &[Tok]) -> Option<u8>
    ensures { result ≡ least (flat_map (s.token_broken (func_of f.now)) (map tok_of listed.now)) }
{
    let mut found = None;
    for tok in listed {
        found = lesser(found, token_broken(f, *tok));
    }
    found
}

fn is_key_tok(tok: Tok, k: usize) -> bool
    ensures { result ≡ is_tok (a_key k) (tok_of tok) }
{
    match tok {
        Tok::Key(j) => k == j.0 as usize,
        Tok::Var(_) => false,
    }
}

fn is_var_tok(tok: Tok, v: usize) -> bool
    ensures { result ≡ is_tok (a_var v) (tok_of tok) }
{
    match tok {
        Tok::Key(_) => false,
        Tok::Var(w) => v == w.0 as usize,
    }
}

/// The token of the key, where it is among these.
fn find_key(toks: &[Tok], k: usize) -> Option<Tok>
    ensures { option_map tok_of result ≡ z.found (map tok_of toks.now) (a_key k) }
{
    for tok in toks {
        if is_key_tok(*tok, k) {
            return Some(*tok);
        }
    }
    None
}

/// The token of the variable, where it is among these.
fn find_var(toks: &[Tok], v: usize) -> Option<Tok>
    ensures { option_map tok_of result ≡ z.found (map tok_of toks.now) (a_var v) }
{
    for tok in toks {
        if is_var_tok(*tok, v) {
            return Some(*tok);
        }
    }
    None
}

fn push_key(toks: &mut Items<Tok>, made: &[Tok], k: usize) -> Result<(), AllocError>
    ensures { OnOk result (map tok_of toks.new ≡ map tok_of toks.old
        ++ z.if_found (z.found (map tok_of made.now) (a_key k))) }
{
    match find_key(made, k) {
        None => Ok(()),
        Some(tok) => toks.push(tok),
    }
}

/// The keys below the count that are made, in order.
fn push_keys(toks: &mut Items<Tok>, made: &[Tok], count: usize) -> Result<(), AllocError>
    ensures { OnOk result (map tok_of toks.new ≡ map tok_of toks.old
        ++ z.kept (map tok_of made.now) (map a_key (range_with_len 0 count))) }
{
    for k in 0..count {
        push_key(toks, made, k)?;
    }
    Ok(())
}

fn is_owning_tok(f: &Func, tok: Tok) -> bool
    ensures { result ≡ z.is_owning_tok (func_of f.now) (tok_of tok) }
{
    match tok {
        Tok::Key(_) => false,
        Tok::Var(v) => f.is_owning_var(v),
    }
}

fn push_owning(toks: &mut Items<Tok>, f: &Func, tok: Tok) -> Result<(), AllocError>
    ensures { OnOk result (map tok_of toks.new ≡ map tok_of toks.old
        ++ z.if_owning (func_of f.now) (tok_of tok)) }
{
    if is_owning_tok(f, tok) {
        toks.push(tok)
    } else {
        Ok(())
    }
}

fn push_var(toks: &mut Items<Tok>, f: &Func, made: &[Tok], v: usize) -> Result<(), AllocError>
    ensures { OnOk result (map tok_of toks.new ≡ map tok_of toks.old
        ++ z.if_found_owning (func_of f.now) (z.found (map tok_of made.now) (a_var v))) }
{
    match find_var(made, v) {
        None => Ok(()),
        Some(tok) => push_owning(toks, f, tok),
    }
}

/// The owning variables below the count that are made, in order.
fn push_vars(toks: &mut Items<Tok>, f: &Func, made: &[Tok], count: usize) -> Result<(), AllocError>
    ensures { OnOk result (map tok_of toks.new ≡ map tok_of toks.old
        ++ z.kept (map tok_of made.now) (map a_var (filter (is_owning_var (func_of f.now))
        (range_with_len 0 count)))) }
{
    for v in 0..count {
        push_var(toks, f, made, v)?;
    }
    Ok(())
}

/// The function's tokens that are made, keys first, each kind in ascending order.
#[tactic(auto, using(crate::proofs::Made::both_kept))]
fn ordered(alloc: Global, f: &Func, made: &[Tok]) -> Result<Items<Tok>, AllocError>
    ensures { IfOk result (λ toks. map tok_of toks
        ≡ in_order (func_of f.now) (map tok_of made.now)) }
{
    let mut toks = Items::new(alloc);
    push_keys(&mut toks, made, f.keys.len())?;
    push_vars(&mut toks, f, made, f.vars.len())?;
    Ok(toks)
}

fn is_same_tok(a: Tok, b: Tok) -> bool
    ensures { result ≡ is_tok (tok_of a) (tok_of b) }
{
    match (a, b) {
        (Tok::Key(k), Tok::Key(j)) => k.0 == j.0,
        (Tok::Var(v), Tok::Var(w)) => v.0 == w.0,
        _ => false,
    }
}

fn same_toks(a: &[Tok], b: &[Tok]) -> bool
    ensures { result ≡ s.same_toks (map tok_of a.now) (map tok_of b.now) }
{
    match a {
        [] => b.len() == 0,
        [t, ts @ ..] => match b {
            [] => false,
            [u, us @ ..] => is_same_tok(*t, *u) && same_toks(ts, us),
        },
    }
}

/// What a block's list of tokens breaks whose statements made these. An error is a refused allocation.
#[tactic(auto, using(cert_kinds_types::proofs::Smallest::joined))]
pub fn tokens_broken(
    alloc: Global,
    f: &Func,
    listed: &[Tok],
    made: &[Tok],
) -> Result<Option<u8>, AllocError>
    ensures { IfOk result (λ found. found ≡ least (s.tokens_broken (func_of f.now)
        (map tok_of listed.now) (map tok_of made.now))) }
{
    let ordered = ordered(alloc, f, made)?;
    Ok(lesser(
        token_list_broken(f, listed),
        unless(same_toks(listed, ordered.as_slice()), rules::NAME_TAKEN),
    ))
}

fn push_all(toks: &mut Items<Tok>, more: &[Tok]) -> Result<(), AllocError>
    ensures { OnOk result (map tok_of toks.new ≡ map tok_of toks.old ++ map tok_of more.now) }
{
    for tok in more {
        toks.push(*tok)?;
    }
    Ok(())
}

fn push_owning_vars(toks: &mut Items<Tok>, f: &Func, vars: &[VarId]) -> Result<(), AllocError>
    ensures { OnOk result (map tok_of toks.new ≡ map tok_of toks.old
        ++ s.owning_toks (func_of f.now) (vars_of vars.now)) }
{
    for v in vars {
        push_owning(toks, f, Tok::Var(*v))?;
    }
    Ok(())
}

/// The tokens of an arm's variables that own, and then those that its block's statements bound. An
/// error is a refused allocation.
pub fn arm_toks(
    alloc: Global,
    f: &Func,
    vars: &[VarId],
    bound: &[Tok],
) -> Result<Items<Tok>, AllocError>
    ensures { IfOk result (λ toks. map tok_of toks
        ≡ s.owning_toks (func_of f.now) (vars_of vars.now) ++ map tok_of bound.now) }
{
    let mut toks = Items::new(alloc);
    push_owning_vars(&mut toks, f, vars)?;
    push_all(&mut toks, bound)?;
    Ok(toks)
}
