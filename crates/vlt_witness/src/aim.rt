//! What a search looks for.

ghost use Rattle.std.specs.Prelude.{◌≡◌, ◌↔◌, IsTrue};
ghost use Rattle.vlt_base.specs.States.{has_state};
ghost use Rattle.vlt_core.specs.HeldView.{row_of, wanted_of};
ghost use Rattle.vlt_core.specs.Found.{One, WantsOne};
ghost use Rattle.vlt_core.specs.Faults.{IsPresent};
ghost use Rattle.vlt_core_laws.specs.Sweep.{In};
ghost use Rattle.vlt_faults.specs.Finding.Ones.{many_of};
ghost use Rattle.vlt_witness.specs.Ways.{row_end, join_end, class_of};
ghost use Rattle.vlt_witness.specs.Aims.{rows_aimed, joins_aimed, spot_of};

use crate::seen::JoinName;
use crate::single::{Single, has, without};
use vlt_base::StateSet;
use vlt_core::{After, Row, Tok, Wanted};
use vlt_faults::{Ones, is_empty, made, pass_row};

/// What a path is to meet.
#[derive(Clone, Copy)]
pub enum Goal {
    /// A row that wants this and refuses.
    Refusal(Wanted),
    /// A join, without the token.
    Absent,
    /// A join, with the token.
    Present,
}

/// A goal with its token and place.
#[derive(Clone, Copy)]
pub struct Aim {
    pub tok: Tok,
    pub at: u32,
    pub goal: Goal,
}

fn is_same_set(a: StateSet, b: StateSet) -> bool
    ensures { IsTrue result ↔ (has_state a ≡ has_state b) }
{
    a.within(b) && b.within(a)
}

fn is_same_wanted(a: Wanted, b: Wanted) -> bool
    ensures { IsTrue result ↔ (wanted_of a ≡ wanted_of b) }
{
    match (a, b) {
        (Wanted::Absent, Wanted::Absent) => true,
        (Wanted::Any, Wanted::Any) => true,
        (Wanted::In(s), Wanted::In(t)) => is_same_set(s, t),
        (Wanted::Lent, Wanted::Lent) => true,
        (Wanted::Full, Wanted::Full) => true,
        _ => false,
    }
}

/// Those that the row doesn't want.
fn refused(row: Row, m: Ones) -> Ones
    ensures { (o : One) → In (many_of result) o
        ↔ (In (many_of m) o × (WantsOne (row_of row).wanted o → ⊥)) }
{
    let wanted = pass_row(
        row.tok,
        Row {
            tok: row.tok,
            wanted: row.wanted,
            after: After::Same,
        },
        m,
    );
    without(m, wanted)
}

/// Whether the aim is met at a row at this place, where these come to it.
pub fn is_met_at_row(aim: Aim, at: u32, row: Row, m: Ones) -> bool
    ensures { IsTrue result ↔ ((o : One) × In (many_of m) o ×
        rows_aimed aim row_end at (row_of row) o) }
{
    match aim.goal {
        Goal::Refusal(wanted) => {
            at == aim.at
                && aim.tok.is_same(row.tok)
                && is_same_wanted(row.wanted, wanted)
                && !is_empty(refused(row, m))
        }
        Goal::Absent => false,
        Goal::Present => false,
    }
}

/// Those that aren't absent.
fn present_in(m: Ones) -> Ones
    ensures { (o : One) → In (many_of result) o ↔ (In (many_of m) o × IsPresent o) }
{
    made(false, m.full, m.held, m.lent)
}

/// Whether the aim is met at a join at this place, where these come to it.
pub fn is_met_at_join(aim: Aim, at: u32, join: JoinName, m: Ones) -> bool
    ensures { IsTrue result ↔ ((o : One) × In (many_of m) o ×
        joins_aimed aim (join_end (class_of join.is_head) join.number)
        (spot_of at (class_of join.is_head) join.number) o) }
{
    match aim.goal {
        Goal::Refusal(_) => false,
        Goal::Absent => at == aim.at && has(m, Single::Absent),
        Goal::Present => at == aim.at && !is_empty(present_in(m)),
    }
}
