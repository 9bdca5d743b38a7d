//! The maps that a walk keeps for each loop and each choice.

ghost use Rattle.std.specs.Prelude.{◌≡◌, ◌≢◌, ◌<◌, ◌↔◌, ℕ, length, IsTrue, IsSome, IfOk, OnOk, Some, None};
ghost use Rattle.std.specs.Option.{option_copied};
ghost use Rattle.vlt_core.specs.Maps.{HeldMap, IsBelow};
ghost use Rattle.vlt_keyset.specs.Held.{map_of};
ghost use Rattle.vlt_flow_maps.specs.Kept.{slot, Above, IsInto};
ghost use Rattle.vlt_flow_maps.specs.Passed.{IfHalted};

use crate::errors::Halt;
use std::alloc::{AllocError, Global};
use std::marker::Model;
use vlt_base::Memory;
use vlt_keyset::Held;

/// The maps kept, by statement. They are only ever joined into.
#[derive(Drop)]
pub struct Kept {
    around: Vec<Option<Held>>,
    following: Vec<Option<Held>>,
}

impl Model for Kept {
    ghost use Rattle.vlt_flow_maps.specs.Kept.{Marks};

    ghost Value = { Marks };

    ghost view = { λ k. record { around = k.around.items; following = k.following.items } };
}

/// Unites a map with what came before.
fn join_into(slot: &mut Option<Held>, held: Held) -> Result<(), Halt>
    ensures ok { OnOk result (IsInto slot.old held slot.new) }
    ensures refused { IfHalted result ((m : HeldMap) → Above slot.old m →
        IsBelow (map_of held) m → ⊥) }
{
    match slot {
        None => {
            *slot = Some(held);
            Ok(())
        }
        Some(old) => {
            let _grew = old.join(&held)?;
            Ok(())
        }
    }
}

/// Unites a map with what came before, and copies it where nothing did.
fn join_copy_into(alloc: Global, slot: &mut Option<Held>, held: &Held) -> Result<(), Halt>
    ensures ok { OnOk result (IsInto slot.old held.now slot.new) }
    ensures refused { IfHalted result ((m : HeldMap) → Above slot.old m →
        IsBelow (map_of held.now) m → ⊥) }
{
    match slot {
        None => {
            *slot = Some(held.copy(alloc)?);
            Ok(())
        }
        Some(old) => {
            let _grew = old.join(held)?;
            Ok(())
        }
    }
}

/// Unites a map with the one kept after the loop n; it is copied where none is kept yet.
pub fn join_copy_after(alloc: Global, kept: &mut Kept, n: usize, held: &Held) -> Result<(), Halt>
    requires { n < length kept.old.following }
    ensures long { length kept.new.following ≡ length kept.old.following }
    ensures into { OnOk result
        (IsInto (slot kept.old.following n) held.now (slot kept.new.following n)) }
    ensures others { (i : ℕ) → i ≢ n →
        slot kept.new.following i ≡ slot kept.old.following i }
    ensures around { kept.new.around ≡ kept.old.around }
    ensures refused { IfHalted result ((m : HeldMap) → Above (slot kept.old.following n) m →
        IsBelow (map_of held.now) m → ⊥) }
{
    join_copy_into(alloc, &mut kept.following[n], held)
}

fn copy_in(alloc: Global, slot: &Option<Held>) -> Result<Held, Memory>
    requires { IsSome slot.now }
    ensures { IfOk result (λ h. slot.now ≡ Some h) }
{
    match slot {
        None => unreachable!(),
        Some(held) => held.copy(alloc),
    }
}

/// A copy of the map at the head of the loop n.
pub fn copy_around(alloc: Global, kept: &Kept, n: usize) -> Result<Held, Memory>
    requires within { n < length kept.now.around }
    requires some { IsSome (slot kept.now.around n) }
    ensures same { IfOk result (λ h. slot kept.now.around n ≡ Some h) }
{
    copy_in(alloc, &kept.around[n])
}

/// A copy of the map after the loop or choice n.
pub fn copy_after(alloc: Global, kept: &Kept, n: usize) -> Result<Held, Memory>
    requires within { n < length kept.now.following }
    requires some { IsSome (slot kept.now.following n) }
    ensures same { IfOk result (λ h. slot kept.now.following n ≡ Some h) }
{
    copy_in(alloc, &kept.following[n])
}

fn nothing(alloc: Global, count: usize) -> Result<Vec<Option<Held>>, AllocError>
    ensures long { IfOk result (λ v. length v.items ≡ count) }
    ensures none { IfOk result (λ v. (i : ℕ) → slot v.items i ≡ None) }
{
    let mut table = Vec::with_capacity(alloc, count)?;
    for _i in 0..count {
        table.push(None)?;
    }
    Ok(table)
}

impl Kept {
    /// Nothing is kept yet.
    pub fn open(alloc: Global, count: usize) -> Result<Kept, AllocError>
        ensures around { IfOk result (λ k. length k.around ≡ count) }
        ensures following { IfOk result (λ k. length k.following ≡ count) }
        ensures none { IfOk result (λ k. (i : ℕ) → slot k.around i ≡ None) }
        ensures none_after { IfOk result (λ k. (i : ℕ) → slot k.following i ≡ None) }
    {
        let around = nothing(alloc, count)?;
        let following = nothing(alloc, count)?;
        Ok(Kept { around, following })
    }

    pub fn join_around(&mut self, n: usize, held: Held) -> Result<(), Halt>
        requires { n < length self.old.around }
        ensures long { length self.new.around ≡ length self.old.around }
        ensures into { OnOk result (IsInto (slot self.old.around n) held (slot self.new.around n)) }
        ensures others { (i : ℕ) → i ≢ n →
            slot self.new.around i ≡ slot self.old.around i }
        ensures following { self.new.following ≡ self.old.following }
        ensures refused { IfHalted result ((m : HeldMap) → Above (slot self.old.around n) m →
            IsBelow (map_of held) m → ⊥) }
    {
        join_into(&mut self.around[n], held)
    }

    pub fn join_after(&mut self, n: usize, held: Held) -> Result<(), Halt>
        requires { n < length self.old.following }
        ensures long { length self.new.following ≡ length self.old.following }
        ensures into { OnOk result
            (IsInto (slot self.old.following n) held (slot self.new.following n)) }
        ensures others { (i : ℕ) → i ≢ n →
            slot self.new.following i ≡ slot self.old.following i }
        ensures around { self.new.around ≡ self.old.around }
        ensures refused { IfHalted result ((m : HeldMap) → Above (slot self.old.following n) m →
            IsBelow (map_of held) m → ⊥) }
    {
        join_into(&mut self.following[n], held)
    }

    /// The map at the head of the loop n, if one is kept.
    pub fn around(&self, n: usize) -> Option<&Held>
        requires { n < length self.now.around }
        ensures { option_copied result ≡ slot self.now.around n }
    {
        self.around[n].as_ref()
    }

    /// The map after the loop or choice n, if one is kept.
    pub fn following(&self, n: usize) -> Option<&Held>
        requires { n < length self.now.following }
        ensures { option_copied result ≡ slot self.now.following n }
    {
        self.following[n].as_ref()
    }

    /// Whether the map at the head of the loop is this one.
    pub fn is_around(&self, n: usize, held: &Held) -> bool
        requires { n < length self.now.around }
        ensures { IsTrue result ↔ (slot self.now.around n ≡ Some held.now) }
    {
        match &self.around[n] {
            None => false,
            Some(old) => old.is_same(held),
        }
    }
}
