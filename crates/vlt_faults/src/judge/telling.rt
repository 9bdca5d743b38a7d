//! What a fault tells of the statuses that are found.

ghost use Rattle.std.specs.Prelude.{◌↔◌, IsTrue};
ghost use Rattle.vlt_core.specs.HeldView.{status_of, wanted_of};
ghost use Rattle.vlt_core.specs.Found.{One, Has, WantsOne};
ghost use Rattle.vlt_core.specs.Faults.{IsMixed, StandsFor, present_of};
ghost use Rattle.vlt_core_laws.specs.Sweep.{In};
ghost use Rattle.vlt_core_laws.specs.Shown.{IsOneKind};
ghost use Rattle.vlt_faults.specs.Finding.Ones.{many_of};
ghost use Rattle.vlt_faults.specs.Judge.Blames.{IsRefusing};

use crate::finding::{Ones, is_empty, made};
use vlt_base::StateSet;
use vlt_core::{Status, Wanted};

/// The single statuses of a status.
pub fn singles_of(s: Status) -> Ones
    ensures { (o : One) → In (many_of result) o ↔ Has (status_of s) o }
{
    match s {
        Status::Absent => made(true, false, 0, 0),
        Status::Held(states) => made(false, false, states.mask(), 0),
        Status::Lent(states) => made(false, false, 0, states.mask()),
        Status::Full => made(false, true, 0, 0),
    }
}

/// Those that aren't absent.
fn present_in(m: Ones) -> Ones
    ensures { (o : One) → In (many_of result) o ↔ present_of (In (many_of m)) o }
{
    made(false, m.full, m.held, m.lent)
}

/// Whether the token is absent on some paths and present on others.
pub fn is_mixed(m: Ones) -> bool
    ensures { IsTrue result ↔ IsMixed (In (many_of m)) }
{
    m.absent && !is_empty(present_in(m))
}

/// Those that a row doesn't want.
fn unwanted_in(wanted: Wanted, m: Ones) -> Ones
    ensures { (o : One) → In (many_of result) o ↔
        (In (many_of m) o × (WantsOne (wanted_of wanted) o → ⊥)) }
{
    match wanted {
        Wanted::Absent => made(false, m.full, m.held, m.lent),
        Wanted::Any => made(m.absent, m.full, 0, m.lent),
        Wanted::In(states) => made(m.absent, m.full, m.held & (m.held ^ states.mask()), m.lent),
        Wanted::Lent => made(m.absent, m.full, m.held, 0),
        Wanted::Full => made(m.absent, false, m.held, m.lent),
    }
}

/// Whether a row of the token is faulty where these are found.
pub fn is_unwanted(wanted: Wanted, m: Ones) -> bool
    ensures { IsTrue result ↔ IsRefusing (wanted_of wanted) (In (many_of m)) }
{
    !is_mixed(m) && !is_empty(unwanted_in(wanted, m))
}

/// The status that stands for these, where they are of one kind.
pub fn status_in(m: Ones) -> Status
    ensures { ((o : One) × In (many_of m) o) → IsOneKind (In (many_of m)) →
        StandsFor (status_of result) (In (many_of m)) }
{
    if m.absent {
        return Status::Absent;
    }
    if m.full {
        return Status::Full;
    }
    if let Some(states) = StateSet::of(m.held) {
        return Status::Held(states);
    }
    match StateSet::of(m.lent) {
        Some(states) => Status::Lent(states),
        None => Status::Absent,
    }
}

/// The status that stands for those that aren't absent.
pub fn present_status(m: Ones) -> Status
    ensures { IsMixed (In (many_of m)) → IsOneKind (present_of (In (many_of m))) →
        StandsFor (status_of result) (present_of (In (many_of m))) }
{
    status_in(present_in(m))
}
