//! How large the tables of a run have to be. An answer is none where the room can't be counted.

ghost use Rattle.std.specs.Prelude.{◌≡◌, IfSome};
ghost use Rattle.vlt_core.specs.View.{program_of, func_of};
ghost use Rattle.vlt_acts.specs.Frames.Frames.{frame_end};
ghost use Rattle.vlt_interp.specs.Tasks.Sizes as sizes;
ghost use Rattle.vlt_interp.specs.Rooms.Rooms.{HoldsFrames, HoldsTasks, HoldsLine};

use crate::rooms::parts::most_fields;
use crate::rooms::tasks::tall;
use vlt_core::{Func, Program};

/// How many tasks there can be.
pub fn task_room(p: &Program, depth: u32) -> Option<usize>
    ensures { IfSome result (HoldsTasks (program_of p.now) depth) }
{
    let tall = u128::from(tall(p)?) + 1;
    let all = u128::from(depth).checked_mul(tall)?;
    usize::try_from(all.checked_add(3)?).ok()
}

/// How many slots a frame of the function has.
fn slots_of_frame(f: &Func, width: u32) -> u128
    ensures { result ≡ frame_end width 0 (func_of f.now) }
{
    f.vars.len() as u128 * u128::from(width) + f.keys.len() as u128
}

/// How many slots the widest frame has.
fn frame_slots(p: &Program, width: u32) -> u128
    ensures { result ≡ sizes.frame_slots (program_of p.now) width }
{
    let mut most = 0;
    for f in p.fns.as_slice() {
        most = most.max(slots_of_frame(f, width));
    }
    most
}

/// How many slots all frames can have, with the values of operands after them.
pub fn value_room(p: &Program, depth: u32, width: u32) -> Option<usize>
    ensures { IfSome result (HoldsFrames (program_of p.now) depth width) }
{
    let frames = (u128::from(depth) + 1).checked_mul(frame_slots(p, width))?;
    let operands = u128::from(most_fields(p).max(u64::from(width))).checked_mul(u128::from(width))?;
    usize::try_from(frames.checked_add(operands)?).ok()
}

/// How long the line of a call can be.
fn line_length(f: &Func) -> u128
    ensures { result ≡ sizes.line_length (func_of f.now) }
{
    let params = f.params;
    f.name.len() as u128 + u128::from(params) * 42 + 2
}

/// How long the line of an event can be.
pub fn line_room(p: &Program) -> Option<usize>
    ensures { IfSome result (HoldsLine (program_of p.now)) }
{
    let mut most = 0;
    for f in p.fns.as_slice() {
        most = most.max(line_length(f));
    }
    usize::try_from(most).ok()
}
