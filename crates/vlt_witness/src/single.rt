//! Single statuses, by which ways are told apart.

ghost use Rattle.std.specs.Prelude.{◌≡◌, ◌↔◌, IsTrue};
ghost use Rattle.vlt_base.specs.States.{is_bit};
ghost use Rattle.vlt_core.specs.Found.{One};
ghost use Rattle.vlt_core_laws.specs.Sweep.{In};
ghost use Rattle.vlt_faults.specs.Finding.Ones.{many_of};
ghost use Rattle.vlt_witness.specs.Ways.{one_of, IsSmall};

use vlt_base::StateSet;
use vlt_faults::{Ones, made};

/// A status of an object in one state.
#[derive(Clone, Copy)]
pub enum Single {
    Absent,
    Full,
    Held(u8),
    Lent(u8),
}

pub fn is_same(a: Single, b: Single) -> bool
    ensures { IsTrue result → a ≡ b }
{
    match (a, b) {
        (Single::Absent, Single::Absent) => true,
        (Single::Full, Single::Full) => true,
        (Single::Held(i), Single::Held(j)) => i == j,
        (Single::Lent(i), Single::Lent(j)) => i == j,
        _ => false,
    }
}

/// Whether the states of the mask have this one.
fn has_state_in(mask: u32, state: u8) -> bool
    ensures { result ≡ is_bit mask state }
{
    match StateSet::of(mask) {
        None => false,
        Some(states) => states.has(state),
    }
}

/// Whether the status is among these.
pub fn has(m: Ones, single: Single) -> bool
    ensures { IsTrue result ↔ In (many_of m) (one_of single) }
{
    match single {
        Single::Absent => m.absent,
        Single::Full => m.full,
        Single::Held(state) => has_state_in(m.held, state),
        Single::Lent(state) => has_state_in(m.lent, state),
    }
}

/// The table of this status alone.
pub fn only(single: Single) -> Ones
    requires { IsSmall (one_of single) }
    ensures { (o : One) → In (many_of result) o ↔ (o ≡ one_of single) }
{
    match single {
        Single::Absent => made(true, false, 0, 0),
        Single::Full => made(false, true, 0, 0),
        Single::Held(state) => made(false, false, StateSet::only(state).mask(), 0),
        Single::Lent(state) => made(false, false, 0, StateSet::only(state).mask()),
    }
}

fn only_first(a: bool, b: bool) -> bool
    ensures { IsTrue result ↔ (IsTrue a × (IsTrue b → ⊥)) }
{
    a && !b
}

/// Those of the first that aren't among the second.
pub fn without(a: Ones, b: Ones) -> Ones
    ensures { (o : One) → In (many_of result) o
        ↔ (In (many_of a) o × (In (many_of b) o → ⊥)) }
{
    made(
        only_first(a.absent, b.absent),
        only_first(a.full, b.full),
        a.held & (a.held ^ b.held),
        a.lent & (a.lent ^ b.lent),
    )
}
