//! The tables that a sweep keeps.

ghost use Rattle.std.specs.Prelude.{◌≡◌, ◌<◌, ◌≢◌, ◌↔◌, ℕ, IsTrue, length, IfOk, false};
ghost use Rattle.vlt_core_laws.specs.Sweep.{IsNothing};
ghost use Rattle.vlt_faults.specs.Finding.Ones.{many_of};
ghost use Rattle.vlt_faults.specs.Finding.Marks.{slot, IsSameParts, IsPut, at, IsInto, IsNearer};

use crate::finding::ones::Ones;
use crate::finding::singles::{nothing, union};
use std::alloc::{AllocError, Global};
use std::marker::Model;

/// The tables kept, by statement. They are only ever joined into.
#[derive(Drop)]
pub struct Tables {
    around: Vec<Ones>,
    following: Vec<Ones>,
    grew: bool,
}

impl Model for Tables {
    ghost use Rattle.vlt_faults.specs.Finding.Marks.{Marks};

    ghost Value = { Marks };

    ghost view = { λ k. record { around = k.around.items; following = k.following.items; grew = k.grew } };
}

fn is_same(a: Ones, b: Ones) -> bool
    ensures { IsTrue result ↔ IsSameParts a b }
{
    a.absent == b.absent && a.full == b.full && a.held == b.held && a.lent == b.lent
}

/// Unites a table with what came before, and says whether it grew.
fn join_into(slot: &mut Ones, m: Ones) -> bool
    ensures into { IsInto m slot.old slot.new }
    ensures nearer { IsNearer result slot.old slot.new }
{
    let both = union(*slot, m);
    if is_same(both, *slot) {
        false
    } else {
        *slot = both;
        true
    }
}

fn nothings(alloc: Global, count: usize) -> Result<Vec<Ones>, AllocError>
    ensures long { IfOk result (λ v. length v.items ≡ count) }
    ensures none { IfOk result (λ v. (i : ℕ) → IsNothing (at v.items i)) }
{
    let mut table = Vec::with_capacity(alloc, count)?;
    for _i in 0..count {
        table.push(nothing())?;
    }
    Ok(table)
}

impl Tables {
    /// Nothing is kept yet.
    pub fn open(alloc: Global, count: usize) -> Result<Tables, AllocError>
        ensures around { IfOk result (λ k. length k.around ≡ count) }
        ensures following { IfOk result (λ k. length k.following ≡ count) }
        ensures none { IfOk result (λ k. (i : ℕ) → IsNothing (at k.around i)) }
        ensures none_after { IfOk result (λ k. (i : ℕ) → IsNothing (at k.following i)) }
    {
        let around = nothings(alloc, count)?;
        let following = nothings(alloc, count)?;
        Ok(Tables {
            around,
            following,
            grew: false,
        })
    }

    pub fn join_head(&mut self, n: usize, m: Ones)
        requires { n < length self.old.around }
        ensures put { IsPut n m self.old.around self.new.around self.old.grew self.new.grew }
        ensures following { self.new.following ≡ self.old.following }
    {
        if join_into(&mut self.around[n], m) {
            self.grew = true;
        }
    }

    pub fn join_exit(&mut self, n: usize, m: Ones)
        requires { n < length self.old.following }
        ensures put { IsPut n m self.old.following self.new.following self.old.grew self.new.grew }
        ensures around { self.new.around ≡ self.old.around }
    {
        if join_into(&mut self.following[n], m) {
            self.grew = true;
        }
    }

    pub fn exit(&self, n: usize) -> Ones
        requires { n < length self.now.following }
        ensures { many_of result ≡ at self.now.following n }
    {
        self.following[n]
    }

    pub fn head(&self, n: usize) -> Ones
        requires { n < length self.now.around }
        ensures { many_of result ≡ at self.now.around n }
    {
        self.around[n]
    }

    /// A new sweep begins.
    pub fn begin(&mut self)
        ensures around { self.new.around ≡ self.old.around }
        ensures following { self.new.following ≡ self.old.following }
        ensures fresh { self.new.grew ≡ false }
    {
        self.grew = false;
    }

    pub fn has_grown(&self) -> bool
        ensures { result ≡ self.now.grew }
    {
        self.grew
    }
}
