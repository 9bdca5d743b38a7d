//! Single statuses.

ghost use Rattle.std.specs.Prelude.{◌≡◌, ◌↔◌, ◌⊎◌, ◌||◌, true, IsTrue};
ghost use Rattle.vlt_core.specs.HeldView.{wanted_of, after_of};
ghost use Rattle.vlt_core.specs.Found.{One, WantsOne, LeftBy};
ghost use Rattle.vlt_core_laws.specs.Sweep.{In};
ghost use Rattle.vlt_faults.specs.Finding.Ones.{many_of};

use crate::finding::ones::Ones;
use vlt_base::either;
use vlt_core::{After, Wanted};

/// A table by its parts.
pub fn made(absent: bool, full: bool, held: u32, lent: u32) -> Ones
    ensures absent { result.absent ≡ absent }
    ensures full { result.full ≡ full }
    ensures held { result.held ≡ held }
    ensures lent { result.lent ≡ lent }
{
    Ones {
        absent,
        full,
        held,
        lent,
    }
}

/// The empty table.
pub fn nothing() -> Ones
    ensures { (o : One) → In (many_of result) o → ⊥ }
{
    made(false, false, 0, 0)
}

/// Whether nothing is in the table.
pub fn is_empty(a: Ones) -> bool
    ensures none { IsTrue result → (o : One) → In (many_of a) o → ⊥ }
    ensures some { IsTrue result ⊎ ((o : One) × In (many_of a) o) }
{
    if a.absent {
        return false;
    }
    if a.full {
        return false;
    }
    if a.held > 0 {
        return false;
    }
    if a.lent > 0 {
        return false;
    }
    true
}

pub fn union(a: Ones, b: Ones) -> Ones
    ensures { (o : One) → In (many_of result) o ↔ (In (many_of a) o ⊎ In (many_of b) o) }
{
    made(
        either(a.absent, b.absent),
        either(a.full, b.full),
        a.held | b.held,
        a.lent | b.lent,
    )
}

/// Those that a row wants.
fn wanted_in(wanted: Wanted, s: Ones) -> Ones
    ensures { (o : One) → In (many_of result) o ↔
        (In (many_of s) o × WantsOne (wanted_of wanted) o) }
{
    match wanted {
        Wanted::Absent => made(s.absent, false, 0, 0),
        Wanted::Any => made(false, false, s.held, 0),
        Wanted::In(w) => made(false, false, s.held & w.mask(), 0),
        Wanted::Lent => made(false, false, 0, s.lent),
        Wanted::Full => made(false, s.full, 0, 0),
    }
}

/// What a row leaves of those.
fn left_by(after: After, s: Ones) -> Ones
    ensures { (o : One) → In (many_of result) o ↔
        ((o' : One) × In (many_of s) o' × LeftBy (after_of after) o' o) }
{
    if is_empty(s) {
        return s;
    }
    match after {
        After::Absent => made(true, false, 0, 0),
        After::Set(m) => made(false, false, m.mask(), 0),
        After::Same => s,
        After::Full => made(false, true, 0, 0),
        After::Lend => made(s.absent, s.full, 0, s.held | s.lent),
        After::Unlend => made(s.absent, s.full, s.held | s.lent, 0),
    }
}

/// Those that a row wants, and what it leaves of them.
pub fn moved(wanted: Wanted, after: After, s: Ones) -> Ones
    ensures { (o : One) → In (many_of result) o ↔
        ((o' : One) × In (many_of s) o' × WantsOne (wanted_of wanted) o' ×
        LeftBy (after_of after) o' o) }
{
    left_by(after, wanted_in(wanted, s))
}

/// What a token comes with at first.
pub fn only_absent() -> Ones
    ensures { result.absent ≡ true }
{
    made(true, false, 0, 0)
}
