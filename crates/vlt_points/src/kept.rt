//! What is kept of all tokens, by statement.

ghost use Rattle.std.specs.Prelude.{◌≡◌, ◌<◌, ℕ, [], length, IfOk, OnOk, false};
ghost use Rattle.vlt_core.specs.Core.{Tok};
ghost use Rattle.vlt_core_laws.specs.Sweep.{IntoHead, IntoExit};
ghost use Rattle.vlt_points.specs.Founds.{found};
ghost use Rattle.vlt_points.specs.Keeps.{row, stock, IsRowJoined, Went};

use crate::found::Found;
use std::alloc::{AllocError, Global};
use std::marker::Model;
use vlt_base::either;

/// What is kept at the heads of loops, and after loops and choices, by statement. It is only ever joined into.
#[derive(Drop)]
pub struct Kept {
    around: Vec<Found>,
    following: Vec<Found>,
    grew: bool,
}

impl Model for Kept {
    ghost use Rattle.vlt_points.specs.Keeps.{Marks};

    ghost Value = { Marks };

    ghost view = { λ k. record
        { around = k.around.items; following = k.following.items; grew = k.grew } };
}

fn nothings(alloc: Global, count: usize) -> Result<Vec<Found>, AllocError>
    ensures long { IfOk result (λ v. length v.items ≡ count) }
    ensures none { IfOk result (λ v. (i : ℕ) → row v.items i ≡ []) }
{
    let mut table = Vec::with_capacity(alloc, count)?;
    for _i in 0..count {
        table.push(Found::nothing(alloc))?;
    }
    Ok(table)
}

/// Unites a row with what else comes there, and says whether it grew.
fn join_row(rows: &mut Vec<Found>, n: usize, m: &Found) -> Result<bool, AllocError>
    requires { n < length rows.old.items }
    ensures { IfOk result (IsRowJoined n m.now rows.old.items rows.new.items) }
{
    let grew = rows[n].join(m)?;
    Ok(grew)
}

impl Kept {
    /// Nothing is kept yet.
    pub fn open(alloc: Global, count: usize) -> Result<Kept, AllocError>
        ensures around { IfOk result (λ k. length k.around ≡ count) }
        ensures following { IfOk result (λ k. length k.following ≡ count) }
        ensures none { IfOk result (λ k. (i : ℕ) → row k.around i ≡ []) }
        ensures none_after { IfOk result (λ k. (i : ℕ) → row k.following i ≡ []) }
    {
        let around = nothings(alloc, count)?;
        let following = nothings(alloc, count)?;
        Ok(Kept {
            around,
            following,
            grew: false,
        })
    }

    pub fn join_head(&mut self, n: usize, m: &Found) -> Result<(), AllocError>
        requires { n < length self.old.around }
        ensures into { OnOk result ((t : Tok) →
            IntoHead n (found m.now t) (stock self.old t) (stock self.new t)) }
        ensures went { OnOk result (Went self.old m.now self.new m.now) }
    {
        let more = join_row(&mut self.around, n, m)?;
        self.grew = either(more, self.grew);
        Ok(())
    }

    pub fn join_exit(&mut self, n: usize, m: &Found) -> Result<(), AllocError>
        requires { n < length self.old.following }
        ensures into { OnOk result ((t : Tok) →
            IntoExit n (found m.now t) (stock self.old t) (stock self.new t)) }
        ensures went { OnOk result (Went self.old m.now self.new m.now) }
    {
        let more = join_row(&mut self.following, n, m)?;
        self.grew = either(more, self.grew);
        Ok(())
    }

    pub fn exit(&self, n: usize) -> &Found
        requires { n < length self.now.following }
        ensures { result.now ≡ row self.now.following n }
    {
        &self.following[n]
    }

    pub fn head(&self, n: usize) -> &Found
        requires { n < length self.now.around }
        ensures { result.now ≡ row self.now.around n }
    {
        &self.around[n]
    }

    /// A new sweep begins.
    pub fn begin(&mut self)
        ensures around { self.new.around ≡ self.old.around }
        ensures following { self.new.following ≡ self.old.following }
        ensures fresh { self.new.grew ≡ false }
    {
        self.grew = false;
    }

    pub fn has_grown(&self) -> bool
        ensures { result ≡ self.now.grew }
    {
        self.grew
    }
}
