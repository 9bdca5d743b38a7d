//! Tables of statuses by number.

ghost use Rattle.std.specs.Prelude.{◌≡◌, ◌↔◌, ◌<◌, ◌≤◌, ◌^◌, ℕ, max, length, IsTrue, IfSome, IfNone, OnOk, MatchBool};
ghost use Rattle.vlt_core.specs.HeldView.{status_of};
ghost use Rattle.vlt_core.specs.Maps.{IsStatusBelow, kind_of, absent};
ghost use Rattle.vlt_keyset.specs.Held.{at};
ghost use Rattle.vlt_keyset.specs.Statuses.{table_gap};
ghost use Rattle.vlt_keyset.specs.Tables.{IsAlike, IsJoined};

use crate::statuses::{is_alike, is_below, is_same, union};
use vlt_base::Memory;
use vlt_core::Status;

/// The status at a place; past the end it is absent.
pub fn status_at(xs: &[Status], i: usize) -> Status
    ensures { status_of result ≡ at xs.now i }
{
    if i < xs.len() { xs[i] } else { Status::Absent }
}

fn longer(n: usize, m: usize) -> usize
    ensures { result ≡ max n m }
{
    if n < m { m } else { n }
}

/// Whether each status of one table lies below that of the other.
pub fn all_below(xs: &[Status], ys: &[Status]) -> bool
    requires { length xs.now ≡ length ys.now }
    ensures { IsTrue result ↔ ((i : ℕ) → IsStatusBelow (at xs.now i) (at ys.now i)) }
{
    for i in 0..xs.len() {
        if !is_below(xs[i], ys[i]) {
            return false;
        }
    }
    true
}

/// The first place where the kinds differ.
pub fn first_unlike(xs: &[Status], ys: &[Status]) -> Option<usize>
    ensures none { IfNone result (IsAlike xs.now ys.now) }
    ensures some { IfSome result (λ i. kind_of (at xs.now i) ≡ kind_of (at ys.now i) → ⊥) }
    ensures within { IfSome result (λ i. i < max (length xs.now) (length ys.now)) }
    ensures before { IfSome result (λ i. (k : ℕ) → k < i →
        kind_of (at xs.now k) ≡ kind_of (at ys.now k)) }
{
    for i in 0..longer(xs.len(), ys.len()) {
        if !is_alike(status_at(xs, i), status_at(ys, i)) {
            return Some(i);
        }
    }
    None
}

/// Unites with the other table, and says whether this one grew.
pub fn unite_all(xs: &mut [Status], ys: &[Status]) -> bool
    requires { IsAlike xs.old ys.now }
    ensures joined { IsJoined xs.old ys.now xs.new }
    ensures grew { MatchBool result (table_gap xs.new < table_gap xs.old) (xs.new ≡ xs.old) }
{
    let mut grew = false;
    for i in 0..xs.len() {
        let x = xs[i];
        let y = status_at(ys, i);
        if !is_below(y, x) {
            xs[i] = union(x, y);
            grew = true;
        }
    }
    grew
}

/// Whether both tables are the same.
pub fn all_same(xs: &[Status], ys: &[Status]) -> bool
    ensures { IsTrue result ↔ (xs.now ≡ ys.now) }
{
    if xs.len() != ys.len() {
        return false;
    }
    for i in 0..xs.len() {
        if !is_same(xs[i], ys[i]) {
            return false;
        }
    }
    true
}

/// Whether each status from a place on is absent.
pub fn all_absent_from(xs: &[Status], start: usize) -> bool
    ensures { IsTrue result ↔ ((i : ℕ) → start ≤ i → at xs.now i ≡ absent) }
{
    for i in start..xs.len() {
        if !is_alike(xs[i], Status::Absent) {
            return false;
        }
    }
    true
}

/// Makes the table long enough for a place; the new places are absent.
pub fn reach_to(table: &mut Vec<Status>, place: u32) -> Result<(), Memory>
    ensures long { OnOk result (place < length table.new.items) }
    ensures few { length table.old.items ≤ 2 ^ 32 → length table.new.items ≤ 2 ^ 32 }
    ensures same { (i : ℕ) → at table.new.items i ≡ at table.old.items i }
{
    while table.len() <= place as usize {
        table.push(Status::Absent)?;
    }
    Ok(())
}
