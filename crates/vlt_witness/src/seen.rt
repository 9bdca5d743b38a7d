//! What paths met, each with the choices of one path.

ghost use Rattle.std.specs.Prelude.{◌≡◌, ◌↔◌, List, Some, OnOk, IsTrue};
ghost use Rattle.vlt_core.specs.Witness as w;
ghost use Rattle.vlt_witness.specs.Ways.{one_of, row_end, end_of_join, class_of, IsWay, On, IsSeen, OnSeen};
ghost use Rattle.vlt_witness.specs.Search.{Spreads, Joined, Sees, By, CanBy};
ghost use Rattle.vlt_witness.specs.Aims.{JoinHere, spot_of};

use crate::aim::{Aim, is_met_at_join};
use crate::single::{Single, has, is_same};
use crate::ways::{Way, with};
use std::alloc::{AllocError, Global};
use vlt_base::Items;
use vlt_core::Choice;

/// A join of a function, by its number among its rows and joins.
#[derive(Clone, Copy)]
pub struct JoinName {
    pub is_head: bool,
    pub number: usize,
}

/// From a status, by choices, to what was looked for.
#[derive(Drop)]
pub struct Seen {
    pub from: Single,
    /// None for a row.
    pub join: Option<JoinName>,
    pub path: Items<Choice>,
}

fn is_same_name(i: JoinName, j: JoinName) -> bool
    ensures { IsTrue result ↔ ((i.is_head ≡ j.is_head) × (i.number ≡ j.number)) }
{
    i.is_head == j.is_head && i.number == j.number
}

fn is_row(join: Option<JoinName>) -> bool
    ensures { IsTrue result ↔ (row_end ≡ end_of_join join) }
{
    match join {
        None => true,
        Some(_) => false,
    }
}

fn is_join(i: JoinName, join: Option<JoinName>) -> bool
    ensures { IsTrue result ↔ (end_of_join (Some i) ≡ end_of_join join) }
{
    match join {
        None => false,
        Some(j) => is_same_name(i, j),
    }
}

/// Whether both are rows, or the same join.
pub fn is_same_join(a: Option<JoinName>, b: Option<JoinName>) -> bool
    ensures { IsTrue result ↔ (end_of_join a ≡ end_of_join b) }
{
    match a {
        None => is_row(b),
        Some(i) => is_join(i, b),
    }
}

/// Whether the like was seen from this status.
fn was_seen(list: &[Seen], from: Single, join: Option<JoinName>) -> bool
    ensures { IsTrue result → (cs : List w.Choice) ×
        OnSeen list.now (one_of from) (end_of_join join) cs }
{
    for seen in list {
        if is_same(seen.from, from) && is_same_join(seen.join, join) {
            return true;
        }
    }
    false
}

pub fn note(list: &mut Items<Seen>, seen: Seen) -> Result<(), AllocError>
    ensures { OnOk result (Joined (OnSeen list.old) (IsSeen seen) (OnSeen list.new)) }
{
    if was_seen(list.as_slice(), seen.from, seen.join) {
        return Ok(());
    }
    list.push(seen)
}

/// Notes a path that comes to a join as it is to.
fn see_way(
    alloc: Global,
    aim: Aim,
    join: JoinName,
    at: u32,
    way: &Way,
    list: &mut Items<Seen>,
) -> Result<(), AllocError>
    ensures { OnOk result (Sees (JoinHere aim (spot_of at (class_of join.is_head) join.number))
        (IsWay way.now) (OnSeen list.old) (OnSeen list.new)) }
{
    if !is_met_at_join(aim, at, join, way.ones) {
        return Ok(());
    }
    let path = Items::from_slice(alloc, way.path.as_slice())?;
    note(
        list,
        Seen {
            from: way.from,
            join: Some(join),
            path,
        },
    )
}

/// Notes the paths that come to a join as they are to.
pub fn see_join(
    alloc: Global,
    aim: Aim,
    join: JoinName,
    at: u32,
    ways: &[Way],
    list: &mut Items<Seen>,
) -> Result<(), AllocError>
    ensures { OnOk result (Sees (JoinHere aim (spot_of at (class_of join.is_head) join.number))
        (On ways.now) (OnSeen list.old) (OnSeen list.new)) }
{
    for way in ways {
        see_way(alloc, aim, join, at, way, list)?;
    }
    Ok(())
}

/// What was met after the end of a way is met after it.
fn extend_by(
    alloc: Global,
    way: &Way,
    step: &Seen,
    list: &mut Items<Seen>,
) -> Result<(), AllocError>
    ensures { OnOk result (Spreads (By (IsSeen step.now)) (CanBy (IsSeen step.now))
        (IsWay way.now) (OnSeen list.old) (OnSeen list.new)) }
{
    if !has(way.ones, step.from) {
        return Ok(());
    }
    let path = with(alloc, way.path.as_slice(), step.path.as_slice())?;
    note(
        list,
        Seen {
            from: way.from,
            join: step.join,
            path,
        },
    )
}

/// What is met after a way.
fn extend(
    alloc: Global,
    way: &Way,
    steps: &[Seen],
    list: &mut Items<Seen>,
) -> Result<(), AllocError>
    ensures { OnOk result (Spreads (By (OnSeen steps.now)) (CanBy (OnSeen steps.now))
        (IsWay way.now) (OnSeen list.old) (OnSeen list.new)) }
{
    for step in steps {
        extend_by(alloc, way, step, list)?;
    }
    Ok(())
}

/// What is met after ways.
pub fn compose_seen(
    alloc: Global,
    ways: &[Way],
    steps: &[Seen],
    list: &mut Items<Seen>,
) -> Result<(), AllocError>
    ensures { OnOk result (Spreads (By (OnSeen steps.now)) (CanBy (OnSeen steps.now))
        (On ways.now) (OnSeen list.old) (OnSeen list.new)) }
{
    for way in ways {
        extend(alloc, way, steps, list)?;
    }
    Ok(())
}
