//! Held maps of pairs.

ghost use Rattle.std.specs.Prelude.{◌≡◌, IfOk, OnOk};
ghost use Rattle.vlt_core.specs.Maps.{IsWanted, absent, row_passed};
ghost use Rattle.vlt_core.specs.View.{tok_of};
ghost use Rattle.vlt_core.specs.HeldView.{status_of, wanted_of};
ghost use Rattle.vlt_keyset.specs.Held.{map_of, HasPlace, IsSameRange};
ghost use Rattle.vlt_keyset.specs.Pairs.{map_of_pairs, IsPresent, AreInOrder};
ghost use Rattle.cert_check.specs.Dense.{row_to, with_status};

use std::alloc::Global;
use vlt_base::Memory;
use vlt_core::{After, Row, Status, Tok, Wanted};
use vlt_keyset::Held;

/// A token that is as wanted becomes what a row leaves.
fn change(held: &mut Held, tok: Tok, wanted: Wanted, after: After)
    requires place { HasPlace held.old (tok_of tok) }
    requires wanted { IsWanted (wanted_of wanted) (map_of held.old (tok_of tok)) }
    ensures range { IsSameRange held.old held.new }
    ensures passed { map_of held.new ≡ row_passed (row_to tok wanted after) (map_of held.old) }
{
    match held.step(Row { tok, wanted, after }) {
        Ok(()) => {}
        Err(_) => unreachable!(),
    }
}

/// An absent token gets a status, which isn't absent.
fn give(held: &mut Held, tok: Tok, status: Status) -> Result<(), Memory>
    requires absent { map_of held.old (tok_of tok) ≡ absent }
    requires present { IsPresent status }
    ensures { OnOk result (map_of held.new
        ≡ with_status (tok_of tok) (status_of status) (map_of held.old)) }
{
    held.reach(tok)?;
    match status {
        Status::Absent => unreachable!(),
        Status::Held(states) => change(held, tok, Wanted::Absent, After::Set(states)),
        Status::Lent(states) => {
            change(held, tok, Wanted::Absent, After::Set(states));
            change(held, tok, Wanted::Any, After::Lend);
        }
        Status::Full => change(held, tok, Wanted::Absent, After::Full),
    }
    Ok(())
}

/// The map that the pairs say. It has places for the tokens up to theirs alone.
pub fn dense(alloc: Global, pairs: &[(Tok, Status)]) -> Result<Held, Memory>
    requires { AreInOrder pairs.now }
    ensures { IfOk result (λ h. map_of h ≡ map_of_pairs pairs.now) }
{
    let mut held = Held::open(alloc, 0, 0)?;
    let count = pairs.len();
    for j in 0..count {
        let pair = pairs[count - 1 - j];
        give(&mut held, pair.0, pair.1)?;
    }
    Ok(held)
}
