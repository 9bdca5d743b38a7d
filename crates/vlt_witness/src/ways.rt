//! What a search finds: statuses that paths come with, each with the choices of one path.

ghost use Rattle.std.specs.Prelude.{◌≡◌, ◌⊎◌, ◌++◌, ◌∷◌, [], List, OnOk, IfOk};
ghost use Rattle.vlt_core.specs.Found.{One};
ghost use Rattle.vlt_core.specs.Witness as w;
ghost use Rattle.vlt_core.specs.FaultView.{pick_of, choices_of};
ghost use Rattle.vlt_core_laws.specs.Sweep.{In};
ghost use Rattle.vlt_faults.specs.Finding.Ones.{many_of};
ghost use Rattle.vlt_witness.specs.Ways.{one_of, IsSmall, IsWay, On, nothing_found};
ghost use Rattle.vlt_witness.specs.Search.{Spreads, Joined, Walks, Takes, By, CanBy, Grows, IsClosed, IsEvery};

use crate::single::{Single, has, is_same, only, without};
use std::alloc::{AllocError, Global};
use vlt_base::Items;
use vlt_core::{Choice, Pick};
use vlt_faults::{Ones, is_empty};

/// From a status, by choices, to each of these statuses.
#[derive(Drop)]
pub struct Way {
    pub from: Single,
    pub ones: Ones,
    pub path: Items<Choice>,
}

/// One path, and then another.
pub fn with(alloc: Global, path: &[Choice], more: &[Choice]) -> Result<Items<Choice>, AllocError>
    ensures { IfOk result (λ cs. choices_of cs ≡ choices_of path.now ++ choices_of more.now) }
{
    let mut all = Items::from_slice(alloc, path)?;
    all.append(Items::from_slice(alloc, more)?)?;
    Ok(all)
}

/// Those to which the way doesn't lead from the status.
fn not_on(way: &Way, from: Single, ones: Ones) -> Ones
    ensures less { (o : One) → In (many_of result) o → In (many_of ones) o }
    ensures rest { (o : One) → In (many_of ones) o → In (many_of result) o ⊎
        IsWay way.now (one_of from) o (choices_of way.now.path) }
{
    if is_same(way.from, from) {
        without(ones, way.ones)
    } else {
        ones
    }
}

/// Those to which no way of the list leads from the status.
fn fresh(list: &[Way], from: Single, ones: Ones) -> Ones
    ensures less { (o : One) → In (many_of result) o → In (many_of ones) o }
    ensures rest { (o : One) → In (many_of ones) o → In (many_of result) o ⊎
        ((cs : List w.Choice) × On list.now (one_of from) o cs) }
{
    let mut left = ones;
    for way in list {
        left = not_on(way, from, left);
    }
    left
}

/// Keeps what is new of a way.
pub fn add(list: &mut Items<Way>, way: Way) -> Result<(), AllocError>
    ensures joined { OnOk result (Joined (On list.old) (IsWay way) (On list.new)) }
    ensures grows { OnOk result (Grows list.old list.new) }
{
    let ones = fresh(list.as_slice(), way.from, way.ones);
    if is_empty(ones) {
        return Ok(());
    }
    list.push(Way {
        from: way.from,
        ones,
        path: way.path,
    })
}

fn copied(alloc: Global, way: &Way) -> Result<Way, AllocError>
    ensures { IfOk result (λ x. x ≡ way.now) }
{
    Ok(Way {
        from: way.from,
        ones: way.ones,
        path: Items::from_slice(alloc, way.path.as_slice())?,
    })
}

/// The ways of both lists.
pub fn join(alloc: Global, list: &mut Items<Way>, more: &[Way]) -> Result<(), AllocError>
    ensures { OnOk result (Joined (On list.old) (On more.now) (On list.new)) }
{
    for way in more {
        add(list, copied(alloc, way)?)?;
    }
    Ok(())
}

/// The ways with one more choice.
pub fn chosen(alloc: Global, ways: &[Way], at: u32, pick: Pick) -> Result<Items<Way>, AllocError>
    ensures { IfOk result (λ r. Walks (Takes (w.choice at (pick_of pick))) (On ways.now)
        nothing_found (On r)) }
{
    let mut list = Items::new(alloc);
    for way in ways {
        let path = with(alloc, way.path.as_slice(), &[Choice { at, pick }])?;
        add(
            &mut list,
            Way {
                from: way.from,
                ones: way.ones,
                path,
            },
        )?;
    }
    Ok(list)
}

fn add_single(alloc: Global, list: &mut Items<Way>, single: Single) -> Result<(), AllocError>
    requires { IsSmall (one_of single) }
    ensures { OnOk result (Joined (On list.old)
        (λ f q cs. (f ≡ one_of single) × (q ≡ one_of single) × (cs ≡ [])) (On list.new)) }
{
    add(
        list,
        Way {
            from: single,
            ones: only(single),
            path: Items::new(alloc),
        },
    )
}

/// Each status by itself.
pub fn every(alloc: Global) -> Result<Items<Way>, AllocError>
    ensures found { IfOk result (λ r. IsEvery (On r)) }
    ensures all { IfOk result (λ r. (o : One) → IsSmall o → (cs : List w.Choice) ×
        On r o o cs) }
{
    let mut list = Items::new(alloc);
    add_single(alloc, &mut list, Single::Absent)?;
    add_single(alloc, &mut list, Single::Full)?;
    for state in 0..32_u8 {
        add_single(alloc, &mut list, Single::Held(state))?;
        add_single(alloc, &mut list, Single::Lent(state))?;
    }
    Ok(list)
}

/// Goes on from a way by a step that begins where it ends.
fn extend_by(alloc: Global, way: &Way, step: &Way, list: &mut Items<Way>) -> Result<(), AllocError>
    ensures spreads { OnOk result (Spreads (By (IsWay step.now)) (CanBy (IsWay step.now))
        (IsWay way.now) (On list.old) (On list.new)) }
    ensures grows { OnOk result (Grows list.old list.new) }
{
    if !has(way.ones, step.from) {
        return Ok(());
    }
    let path = with(alloc, way.path.as_slice(), step.path.as_slice())?;
    add(
        list,
        Way {
            from: way.from,
            ones: step.ones,
            path,
        },
    )
}

/// Goes on from a way by those of the steps that begin where it ends.
fn extend(alloc: Global, way: &Way, steps: &[Way], list: &mut Items<Way>) -> Result<(), AllocError>
    ensures spreads { OnOk result (Spreads (By (On steps.now)) (CanBy (On steps.now))
        (IsWay way.now) (On list.old) (On list.new)) }
    ensures grows { OnOk result (Grows list.old list.new) }
{
    for step in steps {
        extend_by(alloc, way, step, list)?;
    }
    Ok(())
}

/// Goes on from ways by steps.
pub fn compose(alloc: Global, ways: &[Way], steps: &[Way]) -> Result<Items<Way>, AllocError>
    ensures { IfOk result (λ r. Spreads (By (On steps.now)) (CanBy (On steps.now)) (On ways.now)
        nothing_found (On r)) }
{
    let mut list = Items::new(alloc);
    for way in ways {
        extend(alloc, way, steps, &mut list)?;
    }
    Ok(list)
}

/// Goes on by turns until nothing new comes.
pub fn close(alloc: Global, ways: &[Way], turn: &[Way]) -> Result<Items<Way>, AllocError>
    ensures { IfOk result (λ r. IsClosed (On turn.now) (On ways.now) (On r)) }
{
    let mut list = Items::new(alloc);
    join(alloc, &mut list, ways)?;
    let mut index = 0;
    while index < list.len() {
        let way = copied(alloc, &list.as_slice()[index])?;
        extend(alloc, &way, turn, &mut list)?;
        index += 1;
    }
    Ok(list)
}
