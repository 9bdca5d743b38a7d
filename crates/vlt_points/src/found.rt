//! What is found of all tokens at one point.

ghost use Rattle.std.specs.Prelude.{◌≡◌, ◌↔◌, ◌⊎◌, ◌<◌, ◌≤◌, ◌^◌, ℕ, IsTrue, [], length, map, IfOk, OnOk};
ghost use Rattle.vlt_core.specs.Core.{Tok as SpecTok};
ghost use Rattle.vlt_core.specs.Maps.{away_row};
ghost use Rattle.vlt_core.specs.View.{tok_of, func_of};
ghost use Rattle.vlt_keyset.specs.Held.{map_of};
ghost use Rattle.vlt_core.specs.HeldView.{row_of, toks_of};
ghost use Rattle.vlt_core.specs.Found.{One, Has};
ghost use Rattle.vlt_core_laws.specs.Sweep.{In, IsImage};
ghost use Rattle.vlt_rows.specs.FlowView.{rows_view};
ghost use Rattle.vlt_faults.specs.Finding.Ones.{many_of};
ghost use Rattle.vlt_faults.specs.Finding.Marks.{slot, IsInto, IsSameParts};
ghost use Rattle.vlt_faults.specs.Finding.Passes.{IsMoved};
ghost use Rattle.vlt_points.specs.Founds.{place_of, IsTokenOf, found, IsNear, IsCloser, IsJoin, IsPut};

use std::alloc::{AllocError, Global};
use std::marker::Model;
use vlt_base::{KeyId, VarId, either};
use vlt_core::{After, Func, Row, Tok, Wanted};
use vlt_faults::{Ones, made, pass_row, start_ones};
use vlt_keyset::Held;

/// What is found of each token at one point: of key k at 2 k, of variable v at 2 v + 1. Nothing is found past the end.
#[derive(Drop)]
pub struct Found {
    ones: Vec<Ones>,
}

impl Model for Found {
    ghost use Rattle.std.specs.Prelude.{List};
    ghost use Rattle.vlt_faults.specs.declared.finding.ones.Ones.{Ones};

    ghost Value = { List Ones };

    ghost view = { λ f. f.ones.items };
}

fn place_of(tok: Tok) -> usize
    ensures { result ≡ place_of (tok_of tok) }
{
    match tok {
        Tok::Key(k) => 2 * k.0 as usize,
        Tok::Var(v) => 2 * v.0 as usize + 1,
    }
}

/// The token of a place.
fn tok_at(place: usize) -> Tok
    requires { place < 2 ^ 33 }
    ensures { place_of (tok_of result) ≡ place }
{
    let number = (place / 2) as u32;
    if place % 2 == 0 {
        Tok::Key(KeyId(number))
    } else {
        Tok::Var(VarId(number))
    }
}

pub fn is_same(a: Ones, b: Ones) -> bool
    ensures { IsTrue result ↔ IsSameParts a b }
{
    a.absent == b.absent && a.full == b.full && a.held == b.held && a.lent == b.lent
}

fn union(a: Ones, b: Ones) -> Ones
    ensures { (o : One) → In (many_of result) o ↔ (In (many_of a) o ⊎ In (many_of b) o) }
{
    made(
        either(a.absent, b.absent),
        either(a.full, b.full),
        a.held | b.held,
        a.lent | b.lent,
    )
}

fn at(ones: &[Ones], i: usize) -> Ones
    ensures { IsSameParts result (slot ones.now i) }
{
    if i < ones.len() {
        ones[i]
    } else {
        made(false, false, 0, 0)
    }
}

fn put(ones: &mut Vec<Ones>, i: usize, m: Ones) -> Result<(), AllocError>
    requires { i ≤ length ones.old.items }
    ensures put { OnOk result (IsPut i m ones.old.items ones.new.items) }
    ensures some { OnOk result (i < length ones.new.items) }
    ensures long { OnOk result ((n : ℕ) → length ones.old.items ≤ n → i < n →
        length ones.new.items ≤ n) }
{
    if i < ones.len() {
        ones[i] = m;
    } else {
        ones.push(m)?;
    }
    Ok(())
}

/// Unites the place with what else comes, and says whether it grew.
fn join_at(ones: &mut Vec<Ones>, i: usize, m: Ones) -> Result<bool, AllocError>
    requires { i ≤ length ones.old.items }
    ensures some { OnOk result (i < length ones.new.items) }
    ensures long { OnOk result ((n : ℕ) → length ones.old.items ≤ n → i < n →
        length ones.new.items ≤ n) }
    ensures into { OnOk result (IsInto m (slot ones.old.items i) (slot ones.new.items i)) }
    ensures others { OnOk result ((j : ℕ) → (j ≡ i → ⊥) →
        slot ones.new.items j ≡ slot ones.old.items j) }
    ensures closer { IfOk result (λ g. IsNear g (slot ones.old.items i) (slot ones.new.items i)) }
{
    let old = at(ones.as_slice(), i);
    let both = union(old, m);
    put(ones, i, both)?;
    Ok(!is_same(both, old))
}

fn join_all(ones: &mut Vec<Ones>, others: &[Ones]) -> Result<bool, AllocError>
    ensures join { OnOk result (IsJoin others.now ones.old.items ones.new.items) }
    ensures closer { IfOk result (λ g. IsCloser g (length others.now) ones.old.items
        ones.new.items) }
{
    let mut grew = false;
    for i in 0..others.len() {
        let more = join_at(ones, i, others[i])?;
        grew = either(more, grew);
    }
    Ok(grew)
}

impl Found {
    /// Nothing of any token.
    pub fn nothing(alloc: Global) -> Found
        ensures { result ≡ [] }
    {
        Found {
            ones: Vec::new(alloc),
        }
    }

    /// What is found at the start of a body that begins with the map, of the function's keys and variables.
    pub fn at_start(alloc: Global, f: &Func, start: &Held) -> Result<Found, AllocError>
        requires few_keys { length f.now.keys < 2 ^ 32 }
        requires few_vars { length f.now.vars < 2 ^ 32 }
        ensures { IfOk result (λ m. (t : SpecTok) → IsTokenOf (func_of f.now) t → (o : One) →
            In (found m t) o ↔ Has (map_of start.now t) o) }
    {
        let count = 2 * f.keys.len().max(f.vars.len());
        let mut ones = Vec::with_capacity(alloc, count)?;
        for place in 0..count {
            ones.push(start_ones(start, tok_at(place)))?;
        }
        Ok(Found { ones })
    }

    pub fn copy(&self, alloc: Global) -> Result<Found, AllocError>
        ensures { IfOk result (λ m. m ≡ self.now) }
    {
        Ok(Found {
            ones: Vec::from_slice(alloc, self.ones.as_slice())?,
        })
    }

    pub fn set(&mut self, other: &Found) -> Result<(), AllocError>
        ensures { OnOk result (self.new ≡ other.now) }
    {
        self.ones.clear();
        self.ones.extend_from_slice(other.ones.as_slice())
    }

    pub fn clear(&mut self)
        ensures { self.new ≡ [] }
    {
        self.ones.clear();
    }

    pub fn of(&self, tok: Tok) -> Ones
        ensures { many_of result ≡ found self.now (tok_of tok) }
    {
        at(self.ones.as_slice(), place_of(tok))
    }

    fn pass_row(&mut self, row: Row)
        ensures moved { (t : SpecTok) →
            IsMoved t (row_of row) (found self.old t) (found self.new t) }
        ensures long { length self.new ≡ length self.old }
    {
        let n = place_of(row.tok);
        if n < self.ones.len() {
            self.ones[n] = pass_row(row.tok, row, self.ones[n]);
        }
    }

    pub fn pass_rows(&mut self, rows: &[Row])
        ensures image { (t : SpecTok) →
            IsImage t (rows_view rows.now) (found self.old t) (found self.new t) }
        ensures long { length self.new ≡ length self.old }
    {
        for row in rows {
            self.pass_row(*row);
        }
    }

    pub fn pass_gone(&mut self, toks: &[Tok])
        ensures image { (t : SpecTok) → IsImage t (map away_row (toks_of toks.now))
            (found self.old t) (found self.new t) }
        ensures long { length self.new ≡ length self.old }
    {
        for tok in toks {
            self.pass_row(Row {
                tok: *tok,
                wanted: Wanted::Absent,
                after: After::Absent,
            });
        }
    }

    /// Unites this with what else comes to the point, and says whether it grew.
    pub fn join(&mut self, other: &Found) -> Result<bool, AllocError>
        ensures join { OnOk result (IsJoin other.now self.old self.new) }
        ensures closer { IfOk result (λ g. IsCloser g (length other.now) self.old self.new) }
    {
        join_all(&mut self.ones, other.ones.as_slice())
    }
}
