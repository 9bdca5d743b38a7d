//! A held map steps through a part of a statement: it passes all rows of the part, or stays as it was.

ghost use Rattle.std.specs.Prelude.{List, [], map};
ghost use Rattle.std.specs.Option.{option_map};
ghost use Rattle.vlt_core.specs.View.{program_of, func_of, operand_of, vars_of, keys_of};
ghost use Rattle.vlt_core.specs.Core.{call, build, adopt};
ghost use Rattle.vlt_core.specs.Maps.{Row};
ghost use Rattle.vlt_core.specs.Rows.{rows_of, simple_rows, arm_rows, focus_end_rows};
ghost use Rattle.vlt_rows.specs.Pieces.{focus_rows};
ghost use Rattle.vlt_rows.specs.Taking.{TookOrStopped};
ghost use Rattle.vlt_rows.specs.Passing.{IsPassed, IsStopped, Steps};

use crate::calls::give_call;
use crate::sink::RowError;
use crate::statements::{give_adopt, give_arm, give_build, give_focus, give_focus_end};
use std::alloc::Global;
use vlt_base::{FnId, KeyId, VarId};
use vlt_core::{Func, Operand, Program};
use vlt_keyset::Held;

/// The map becomes the next one, if that one passed all rows.
fn settle(held: &mut Held, next: Held, passed: Result<(), RowError>) -> Result<(), RowError>
    ensures { (rs : List Row) → TookOrStopped IsPassed IsStopped rs held.old next passed →
        Steps rs held.old held.new result }
{
    match passed {
        Ok(()) => {
            *held = next;
            Ok(())
        }
        Err(error) => Err(error),
    }
}

/// Steps over a call. After an error the map is as it was: `Refused` has the first row that isn't passed, `Unfit` is returned where
/// a row's token has no place in the map or its states are no set, and `Memory` where there was none for a copy of the map.
pub fn apply_call(
    alloc: Global,
    p: &Program,
    f: &Func,
    g: FnId,
    target: Option<VarId>,
    keys: &[KeyId],
    args: &[Operand],
    held: &mut Held,
) -> Result<(), RowError>
    ensures { Steps (rows_of (program_of p.now) (func_of f.now) []
        (call g.0 (option_map (λ v. v.0) target) (keys_of keys.now) (map operand_of args.now)))
        held.old held.new result }
{
    let mut next = held.copy(alloc)?;
    let passed = give_call(p, f, g, target, keys, args, &mut next);
    settle(held, next, passed)
}

/// Steps over `v = 'Case(..);`. Errors are those of `apply_call`, here and below.
pub fn pack_case(
    alloc: Global,
    p: &Program,
    f: &Func,
    v: VarId,
    case: u8,
    args: &[Operand],
    held: &mut Held,
) -> Result<(), RowError>
    ensures { Steps (simple_rows (program_of p.now) (func_of f.now)
        (build v.0 case (map operand_of args.now))) held.old held.new result }
{
    let mut next = held.copy(alloc)?;
    let passed = give_build(p, f, v, case, args, &mut next);
    settle(held, next, passed)
}

/// Steps into the arm of a case; the row of the switch itself isn't one of its rows.
pub fn open_case(
    alloc: Global,
    p: &Program,
    f: &Func,
    v: VarId,
    case: u8,
    vs: &[VarId],
    held: &mut Held,
) -> Result<(), RowError>
    ensures { Steps (arm_rows (program_of p.now) (func_of f.now) v.0 case (vars_of vs.now))
        held.old held.new result }
{
    let mut next = held.copy(alloc)?;
    let passed = give_arm(p, f, v, case, vs, &mut next);
    settle(held, next, passed)
}

/// Steps over `G:T y = adopt x into r;`.
pub fn adopt(
    alloc: Global,
    p: &Program,
    f: &Func,
    y: VarId,
    x: VarId,
    r: VarId,
    held: &mut Held,
) -> Result<(), RowError>
    ensures { Steps (simple_rows (program_of p.now) (func_of f.now) (adopt y.0 x.0 r.0))
        held.old held.new result }
{
    let mut next = held.copy(alloc)?;
    let passed = give_adopt(p, f, y, x, r, &mut next);
    settle(held, next, passed)
}

/// Steps into the block of a focus.
pub fn focus_in(
    alloc: Global,
    p: &Program,
    f: &Func,
    y: VarId,
    z: VarId,
    held: &mut Held,
) -> Result<(), RowError>
    ensures { Steps (focus_rows (program_of p.now) (func_of f.now) y.0 z.0)
        held.old held.new result }
{
    let mut next = held.copy(alloc)?;
    let passed = give_focus(p, f, y, z, &mut next);
    settle(held, next, passed)
}

/// Steps out of a focus, after the end of its block.
pub fn focus_out(
    alloc: Global,
    p: &Program,
    f: &Func,
    y: VarId,
    z: VarId,
    held: &mut Held,
) -> Result<(), RowError>
    ensures { Steps (focus_end_rows (program_of p.now) (func_of f.now) y.0 z.0)
        held.old held.new result }
{
    let mut next = held.copy(alloc)?;
    let passed = give_focus_end(p, f, y, z, &mut next);
    settle(held, next, passed)
}
