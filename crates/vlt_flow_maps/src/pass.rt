//! Rows, one after another.

ghost use Rattle.std.specs.Prelude.{◌≡◌, ◌∷◌, [], map, OnOk};
ghost use Rattle.vlt_core.specs.HeldView.{row_of, toks_of};
ghost use Rattle.vlt_rows.specs.FlowView.{rows_view};
ghost use Rattle.vlt_core.specs.Maps.{CanPass, away_row};
ghost use Rattle.vlt_keyset.specs.Held.{map_of};
ghost use Rattle.vlt_flow_maps.specs.Passed.{IfHalted, Passes};

use crate::errors::Halt;
use vlt_core::{After, Row, Tok, Wanted};
use vlt_keyset::Held;

fn pass_row(held: &mut Held, row: Row) -> Result<(), Halt>
    ensures ok { OnOk result (Passes (row_of row ∷ []) (map_of held.old) (map_of held.new)) }
    ensures refused { IfHalted result (CanPass (row_of row ∷ []) (map_of held.old) → ⊥) }
{
    held.reach(row.tok)?;
    held.step(row)?;
    Ok(())
}

/// Takes `held` through `rows`, in their order.
///
/// # Errors
///
/// `Halt::Refused` at the first row whose token isn't as the row wants it, `Halt::Memory` when memory is out.
pub fn pass_rows(held: &mut Held, rows: &[Row]) -> Result<(), Halt>
    ensures ok { OnOk result (Passes (rows_view rows.now) (map_of held.old) (map_of held.new)) }
    ensures refused { IfHalted result (CanPass (rows_view rows.now) (map_of held.old) → ⊥) }
{
    for row in rows {
        pass_row(held, *row)?;
    }
    Ok(())
}

/// Takes `held` through the end of a scope in which `toks` were declared, none of which may be held.
///
/// # Errors
///
/// `Halt::Refused` if one of them is held, `Halt::Memory` when memory is out.
pub fn pass_gone(held: &mut Held, toks: &[Tok]) -> Result<(), Halt>
    ensures ok { OnOk result (Passes (map away_row (toks_of toks.now)) (map_of held.old)
        (map_of held.new)) }
    ensures refused { IfHalted result (CanPass (map away_row (toks_of toks.now))
        (map_of held.old) → ⊥) }
{
    for tok in toks {
        pass_row(
            held,
            Row {
                tok: *tok,
                wanted: Wanted::Absent,
                after: After::Absent,
            },
        )?;
    }
    Ok(())
}
