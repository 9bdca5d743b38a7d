//! What comes to the end of a part.

ghost use Rattle.std.specs.Prelude.{◌≡◌, Some, None, IfOk, map};
ghost use Rattle.vlt_core.specs.Maps.{away_row};
ghost use Rattle.vlt_core.specs.HeldView.{toks_of};
ghost use Rattle.vlt_rows.specs.FlowView.{rows_view};
ghost use Rattle.vlt_flow_maps.specs.Passed.{IfHalted, IsLeft, NoLeft};

use crate::errors::Halt;
use crate::pass::{pass_gone, pass_rows};
use vlt_core::{Row, Tok};
use vlt_keyset::Held;

/// The map after a part, if it can be passed, and the number of the statement after it.
#[derive(Drop)]
pub struct Walked {
    pub held: Option<Held>,
    pub at: usize,
}

/// What comes to the statement `at` is this map.
pub fn comes(held: Held, at: usize) -> Walked
    ensures held { result.held ≡ Some held }
    ensures at { result.at ≡ at }
{
    Walked {
        held: Some(held),
        at,
    }
}

/// Nothing comes to the statement `at`.
pub fn stops(at: usize) -> Walked
    ensures held { result.held ≡ None }
    ensures at { result.at ≡ at }
{
    Walked { held: None, at }
}

/// The rows at the end of a part, if it can be passed.
pub fn leave_rows(walked: Walked, rows: &[Row]) -> Result<Walked, Halt>
    ensures ok { IfOk result (λ w. IsLeft (rows_view rows.now) walked.held w.held) }
    ensures at { IfOk result (λ w. w.at ≡ walked.at) }
    ensures refused { IfHalted result (NoLeft (rows_view rows.now) walked.held) }
{
    let Walked { held, at } = walked;
    match held {
        None => Ok(Walked { held: None, at }),
        Some(mut end) => {
            pass_rows(&mut end, rows)?;
            Ok(Walked {
                held: Some(end),
                at,
            })
        }
    }
}

/// The tokens that go out of scope at the end of a part, if it can be passed.
pub fn leave_gone(walked: Walked, toks: &[Tok]) -> Result<Walked, Halt>
    ensures ok { IfOk result (λ w. IsLeft (map away_row (toks_of toks.now)) walked.held w.held) }
    ensures at { IfOk result (λ w. w.at ≡ walked.at) }
    ensures refused { IfHalted result (NoLeft (map away_row (toks_of toks.now)) walked.held) }
{
    let Walked { held, at } = walked;
    match held {
        None => Ok(Walked { held: None, at }),
        Some(mut end) => {
            pass_gone(&mut end, toks)?;
            Ok(Walked {
                held: Some(end),
                at,
            })
        }
    }
}
